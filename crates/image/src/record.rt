// One record of the tree image: a byte of kind, and a body whose length the kind fixes.
ghost use Rattle.std.specs.Prelude.{◌≡◌};
ghost use Rattle.image.specs.Record.{layout_of, lies, none, bit_of, ◌bytes◌};

use crate::kind;

// A text is its place in the input and its length.
#[derive(Clone, Copy, Debug, PartialEq, Eq)]
pub enum Record {
    // The eight bytes as they stand.
    Number(u64),
    Boolean(bool),
    Text(usize, usize),
    Object,
    Null,
    Undefined,
    Reference(u16),
    EcmaArray(u32),
    ObjectEnd,
    StrictArray(u32),
    // The eight bytes, whether there is a zone, and the zone.
    Date(u64, bool, u16),
    Unsupported,
    Xml(usize, usize),
    TypedObject(usize, usize),
    Key(usize, usize),
    // How many headers and messages.
    Packet(u16, u16),
    // The name, and the flag.
    Header(usize, usize, bool),
    // The target and the response.
    Message(usize, usize, usize, usize),
    // The stored length, and the name.
    Lso(u32, usize, usize),
}

// A number in so many bytes.
#[derive(Clone, Copy)]
pub struct Field {
    pub width: usize,
    pub number: u64,
}

// How a record lies: its kind in one byte, and its fields behind it; a field that it has not is 0 bytes wide.
#[derive(Clone, Copy)]
pub struct Layout {
    pub kind: u64,
    pub a: Field,
    pub b: Field,
    pub c: Field,
    pub d: Field,
}

// A bool as a number.
pub fn bit(b: bool) -> u64
    ensures { result ≡ bit_of b }
{
    if b { 1 } else { 0 }
}

// A number in so many bytes, and no field.
fn in_bytes(width: usize, number: u64) -> Field
    ensures { result ≡ width bytes number }
{
    Field { width, number }
}

const NONE: Field = Field {
    width: 0,
    number: 0,
};

fn lies(kind: u8, a: Field, b: Field, c: Field, d: Field) -> Layout
    ensures { result ≡ lies kind a b c d }
{
    Layout {
        kind: kind as u64,
        a,
        b,
        c,
        d,
    }
}

pub fn layout_of(r: Record) -> Layout
    ensures { result ≡ layout_of r }
{
    match r {
        Record::Number(n) => lies(kind::NUMBER, in_bytes(8, n), NONE, NONE, NONE),
        Record::Boolean(v) => lies(kind::BOOLEAN, in_bytes(1, bit(v)), NONE, NONE, NONE),
        Record::Text(p, n) => lies(
            kind::TEXT,
            in_bytes(3, p as u64),
            in_bytes(3, n as u64),
            NONE,
            NONE,
        ),
        Record::Object => lies(kind::OBJECT, NONE, NONE, NONE, NONE),
        Record::Null => lies(kind::NULL, NONE, NONE, NONE, NONE),
        Record::Undefined => lies(kind::UNDEFINED, NONE, NONE, NONE, NONE),
        Record::Reference(n) => lies(kind::REFERENCE, in_bytes(2, n as u64), NONE, NONE, NONE),
        Record::EcmaArray(n) => lies(kind::ECMA_ARRAY, in_bytes(4, n as u64), NONE, NONE, NONE),
        Record::ObjectEnd => lies(kind::OBJECT_END, NONE, NONE, NONE, NONE),
        Record::StrictArray(n) => lies(kind::STRICT_ARRAY, in_bytes(4, n as u64), NONE, NONE, NONE),
        Record::Date(n, present, zone) => lies(
            kind::DATE,
            in_bytes(8, n),
            in_bytes(1, bit(present)),
            in_bytes(2, zone as u64),
            NONE,
        ),
        Record::Unsupported => lies(kind::UNSUPPORTED, NONE, NONE, NONE, NONE),
        Record::Xml(p, n) => lies(
            kind::XML,
            in_bytes(3, p as u64),
            in_bytes(3, n as u64),
            NONE,
            NONE,
        ),
        Record::TypedObject(p, n) => lies(
            kind::TYPED_OBJECT,
            in_bytes(3, p as u64),
            in_bytes(2, n as u64),
            NONE,
            NONE,
        ),
        Record::Key(p, n) => lies(
            kind::KEY,
            in_bytes(3, p as u64),
            in_bytes(2, n as u64),
            NONE,
            NONE,
        ),
        Record::Packet(headers, messages) => lies(
            kind::PACKET,
            in_bytes(2, headers as u64),
            in_bytes(2, messages as u64),
            NONE,
            NONE,
        ),
        Record::Header(p, n, flag) => lies(
            kind::HEADER,
            in_bytes(3, p as u64),
            in_bytes(2, n as u64),
            in_bytes(1, bit(flag)),
            NONE,
        ),
        Record::Message(p, n, q, m) => lies(
            kind::MESSAGE,
            in_bytes(3, p as u64),
            in_bytes(2, n as u64),
            in_bytes(3, q as u64),
            in_bytes(2, m as u64),
        ),
        Record::Lso(stored, p, n) => lies(
            kind::LSO,
            in_bytes(4, stored as u64),
            in_bytes(3, p as u64),
            in_bytes(2, n as u64),
            NONE,
        ),
    }
}
