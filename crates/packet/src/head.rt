// The fields of a packet round its values, which the whole reading and the cut both read.
ghost use Rattle.std.specs.Prelude.{◌≡◌};
ghost use Rattle.packet.specs.Head.{version_at, front_of, head_at, header_at, message_at, bit_of};

use image::kind;
use wire::answer::{Answer, Refusal};
use wire::cursor::{Cursor, Parsed};
use wire::limit;

pub const HEADER: u8 = kind::HEADER;

pub const MESSAGE: u8 = kind::MESSAGE;

// The length that says that it is not known.
pub const UNKNOWN: usize = 0xFFFF_FFFF;

// One entry: a header, with its name and flag, or a message, with its target and response; and the value that it holds, by the length that it
// declares, or that was measured where it declares none. C has its kind and its flag as numbers, as `row` lays them.
#[derive(Clone, Copy, Debug, Default, PartialEq, Eq)]
pub struct Entry {
    pub kind: u8,
    pub flag: u8,
    // The name or the target, the response, and the value.
    pub place1: usize,
    pub length1: usize,
    pub place2: usize,
    pub length2: usize,
    pub place: usize,
    pub length: usize,
}

// An entry's fields before its value.
pub type Head = Parsed<Entry>;

// A zero, and the version.
#[tactic(auto, unfolding(crate::specs::Head::version_at))]
fn version(s: &[u8]) -> Result<Cursor, Refusal>
    ensures { result ≡ version_at s.now }
{
    let c = Cursor { at: 0 };
    let d = c.tag(s, b"\x00")?;
    let (v, e) = d.be_u8(s)?;
    match v {
        0 => Ok(e),
        3 => Answer::OtherVersion.refuse(d.at),
        _ => Answer::NotRight.refuse(d.at),
    }
}

// The front of a packet: the count of headers, and the cursor behind it. What is refused here has no entries.
#[tactic(auto, unfolding(crate::specs::Head::front_of))]
pub(crate) fn front(s: &[u8]) -> Parsed<u16>
    ensures { result ≡ front_of s.now }
{
    if limit::BYTES < s.len() {
        return Answer::OverLimit.refuse(0);
    }
    let c = version(s)?;
    c.be_u16(s)
}

fn bit(b: u8) -> u8
    ensures { result ≡ bit_of b }
{
    if 0 < b { 1 } else { 0 }
}

#[tactic(auto, unfolding(crate::specs::Head::header_at))]
fn header(s: &[u8], c: Cursor) -> Head
    ensures { result ≡ header_at s.now c.at }
{
    let (name, d) = c.parse_string(s)?;
    let (f, e) = d.be_u8(s)?;
    let (l, v) = e.be_u32(s)?;
    Ok((
        Entry {
            kind: HEADER,
            flag: bit(f),
            place1: name.place,
            length1: name.length,
            place2: 0,
            length2: 0,
            place: v.at,
            length: l as usize,
        },
        v,
    ))
}

#[tactic(auto, unfolding(crate::specs::Head::message_at))]
fn message(s: &[u8], c: Cursor) -> Head
    ensures { result ≡ message_at s.now c.at }
{
    let (target, d) = c.parse_string(s)?;
    let (response, e) = d.parse_string(s)?;
    let (l, v) = e.be_u32(s)?;
    Ok((
        Entry {
            kind: MESSAGE,
            flag: 0,
            place1: target.place,
            length1: target.length,
            place2: response.place,
            length2: response.length,
            place: v.at,
            length: l as usize,
        },
        v,
    ))
}

// The head of an entry of a kind: a header's, or else a message's.
pub fn head_at(s: &[u8], kind: u8, c: Cursor) -> Head
    ensures { result ≡ head_at kind s.now c.at }
{
    if kind == HEADER {
        header(s, c)
    } else {
        message(s, c)
    }
}
