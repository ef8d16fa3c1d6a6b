// A record told by five numbers: its kind and its fields, in the order in which they lie; a field that it has not is 0. So programs in other languages have it.
ghost use Rattle.std.specs.Prelude.{◌≡◌, ◌∷◌, []};
ghost use Rattle.wire.specs.Choice.{pick};
ghost use Rattle.wire.specs.Field.{equal};
ghost use Rattle.image.specs.Building.{low, numbers_in, holder_of, record_of, put_of};

use crate::kind;
use crate::reading::put;
use crate::record::{Layout, Record, layout_of};
use wire::answer::{ACCEPTED, Answer};
use wire::cursor::Cursor;

// What laying a record comes to: the answer, and the image bytes made. C has these numbers.
#[derive(Clone, Copy, Debug, PartialEq, Eq)]
pub struct Laying {
    pub answer: u8,
    pub made: usize,
}

// What of a number a field of two, three or four bytes holds.
fn low16(n: u64) -> u16
    ensures { result ≡ low 2 n }
{
    (n % 0x1_0000) as u16
}

fn low24(n: u64) -> usize
    ensures { result ≡ low 3 n }
{
    (n % 0x100_0000) as usize
}

fn low32(n: u64) -> u32
    ensures { result ≡ low 4 n }
{
    (n % 0x1_0000_0000) as u32
}

// The same of a zone: one that is absent is 0.
fn zone_of(present: bool, n: u64) -> u16
    ensures { result ≡ pick «present» (low 2 n) 0 }
{
    if present { low16(n) } else { 0 }
}

// The record of a kind, with what its fields hold of these numbers.
fn holder_of(kind: u8, a: u64, b: u64, c: u64, d: u64) -> Option<Record>
    ensures { result ≡ holder_of kind a b c d }
{
    match kind {
        kind::NUMBER => Some(Record::Number(a)),
        kind::BOOLEAN => Some(Record::Boolean(a == 1)),
        kind::TEXT => Some(Record::Text(low24(a), low24(b))),
        kind::OBJECT => Some(Record::Object),
        kind::NULL => Some(Record::Null),
        kind::UNDEFINED => Some(Record::Undefined),
        kind::REFERENCE => Some(Record::Reference(low16(a))),
        kind::ECMA_ARRAY => Some(Record::EcmaArray(low32(a))),
        kind::OBJECT_END => Some(Record::ObjectEnd),
        kind::STRICT_ARRAY => Some(Record::StrictArray(low32(a))),
        kind::DATE => Some(Record::Date(a, b == 1, zone_of(b == 1, c))),
        kind::UNSUPPORTED => Some(Record::Unsupported),
        kind::XML => Some(Record::Xml(low24(a), low24(b))),
        kind::TYPED_OBJECT => Some(Record::TypedObject(low24(a), low16(b) as usize)),
        kind::KEY => Some(Record::Key(low24(a), low16(b) as usize)),
        kind::PACKET => Some(Record::Packet(low16(a), low16(b))),
        kind::HEADER => Some(Record::Header(low24(a), low16(b) as usize, c == 1)),
        kind::MESSAGE => Some(Record::Message(
            low24(a),
            low16(b) as usize,
            low24(c),
            low16(d) as usize,
        )),
        kind::LSO => Some(Record::Lso(low32(a), low24(b), low16(c) as usize)),
        _ => None,
    }
}

// What lies so has these numbers.
fn has(l: Layout, kind: u64, a: u64, b: u64, c: u64, d: u64) -> bool
    ensures { result ≡ equal (numbers_in l) (kind ∷ a ∷ b ∷ c ∷ d ∷ []) }
{
    l.kind == kind && l.a.number == a && l.b.number == b && l.c.number == c && l.d.number == d
}

// The record that five numbers tell, each by itself: that of their kind, where they are its own.
#[tactic(auto, unfolding(crate::specs::Building::record_of))]
fn told_of(kind: u64, a: u64, b: u64, c: u64, d: u64) -> Option<Record>
    ensures { result ≡ record_of (kind ∷ a ∷ b ∷ c ∷ d ∷ []) }
{
    if 255 < kind {
        return None;
    }
    let r = holder_of(kind as u8, a, b, c, d)?;
    if has(layout_of(r), kind, a, b, c, d) {
        Some(r)
    } else {
        None
    }
}

// The same in a row.
pub fn record_of(fields: [u64; 5]) -> Option<Record>
    ensures { result ≡ record_of fields }
{
    told_of(fields[0], fields[1], fields[2], fields[3], fields[4])
}

// Lays the record that numbers tell behind what is made. Where it is refused, nothing is changed.
pub fn put_numbers(image: &mut [u8], made: usize, fields: &[u64; 5]) -> Laying
    ensures value { result ≡ (put_of fields.now made image.old).laying }
    ensures image_after { image.new ≡ (put_of fields.now made image.old).image }
{
    match record_of(*fields) {
        Some(r) => match put(image, made, r, 0, Cursor { at: 0 }) {
            Ok((_, m)) => Laying {
                answer: ACCEPTED,
                made: m,
            },
            Err(x) => Laying {
                answer: u8::from(x.answer()),
                made,
            },
        },
        None => Laying {
            answer: u8::from(Answer::NoTree),
            made,
        },
    }
}
