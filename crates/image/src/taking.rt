// The record at a place of an image.
ghost use Rattle.std.specs.Prelude.{◌≡◌};
ghost use Rattle.image.specs.Taking.{flag_at, short_at, long_at, zone_fits, body_at, record_at};

use crate::kind;
use crate::record::Record;
use wire::cursor::{Cursor, Parsed, Span};

// A record with the cursor behind it; or its kind is none of the table's, or its body is not whole or not right.
pub type Taken = Option<(Record, Cursor)>;

// A byte that is 00 or 01.
#[tactic(auto, unfolding(crate::specs::Taking::flag_at))]
pub fn flag_at(image: &[u8], c: Cursor) -> Option<(bool, Cursor)>
    ensures { result ≡ flag_at image.now c.at }
{
    let (n, d) = c.be_u8(image).ok()?;
    match n {
        0 => Some((false, d)),
        1 => Some((true, d)),
        _ => None,
    }
}

// A place and a length of two bytes.
#[tactic(auto, unfolding(crate::specs::Taking::short_at))]
pub fn short_at(image: &[u8], c: Cursor) -> Parsed<Span>
    ensures { result ≡ short_at image.now c.at }
{
    let (p, d) = c.be_u24(image)?;
    let (n, e) = d.be_u16(image)?;
    Ok((
        Span {
            place: p as usize,
            length: n as usize,
        },
        e,
    ))
}

// A place and a length of three bytes.
#[tactic(auto, unfolding(crate::specs::Taking::long_at))]
pub fn long_at(image: &[u8], c: Cursor) -> Parsed<Span>
    ensures { result ≡ long_at image.now c.at }
{
    let (p, d) = c.be_u24(image)?;
    let (n, e) = d.be_u24(image)?;
    Ok((
        Span {
            place: p as usize,
            length: n as usize,
        },
        e,
    ))
}

// A zone that is absent is 0.
pub fn zone_fits(present: bool, zone: u16) -> bool
    ensures { result ≡ zone_fits present zone }
{
    present || zone == 0
}

// The longer bodies, each by the line of its kind.
#[tactic(auto, unfolding(crate::specs::Taking::body_at, crate::specs::Taking::u64, crate::specs::Taking::flag, crate::specs::Taking::u16, crate::specs::Taking::zoned))]
fn date_at(image: &[u8], c: Cursor) -> Taken
    ensures { result ≡ body_at 0x0B image.now c.at }
{
    let (n, d) = c.be_u64(image).ok()?;
    let (present, e) = flag_at(image, d)?;
    let (zone, f) = e.be_u16(image).ok()?;
    if zone_fits(present, zone) {
        Some((Record::Date(n, present, zone), f))
    } else {
        None
    }
}

#[tactic(auto, unfolding(crate::specs::Taking::body_at, crate::specs::Taking::u16))]
fn packet_at(image: &[u8], c: Cursor) -> Taken
    ensures { result ≡ body_at 0x30 image.now c.at }
{
    let (headers, d) = c.be_u16(image).ok()?;
    let (messages, e) = d.be_u16(image).ok()?;
    Some((Record::Packet(headers, messages), e))
}

#[tactic(auto, unfolding(crate::specs::Taking::body_at, crate::specs::Taking::short, crate::specs::Taking::flag))]
fn header_at(image: &[u8], c: Cursor) -> Taken
    ensures { result ≡ body_at 0x31 image.now c.at }
{
    let (name, d) = short_at(image, c).ok()?;
    let (flag, e) = flag_at(image, d)?;
    Some((Record::Header(name.place, name.length, flag), e))
}

#[tactic(auto, unfolding(crate::specs::Taking::body_at, crate::specs::Taking::short))]
fn message_at(image: &[u8], c: Cursor) -> Taken
    ensures { result ≡ body_at 0x32 image.now c.at }
{
    let (target, d) = short_at(image, c).ok()?;
    let (response, e) = short_at(image, d).ok()?;
    Some((
        Record::Message(target.place, target.length, response.place, response.length),
        e,
    ))
}

#[tactic(auto, unfolding(crate::specs::Taking::body_at, crate::specs::Taking::u32, crate::specs::Taking::short))]
fn lso_at(image: &[u8], c: Cursor) -> Taken
    ensures { result ≡ body_at 0x33 image.now c.at }
{
    let (stored, d) = c.be_u32(image).ok()?;
    let (name, e) = short_at(image, d).ok()?;
    Some((Record::Lso(stored, name.place, name.length), e))
}

#[tactic(auto, unfolding(crate::specs::Taking::body_at, crate::specs::Taking::u16, crate::specs::Taking::u32, crate::specs::Taking::u64, crate::specs::Taking::flag, crate::specs::Taking::short, crate::specs::Taking::long))]
fn body_at(image: &[u8], kind: u8, c: Cursor) -> Taken
    ensures { result ≡ body_at kind image.now c.at }
{
    match kind {
        kind::NUMBER => {
            let (n, d) = c.be_u64(image).ok()?;
            Some((Record::Number(n), d))
        }
        kind::BOOLEAN => {
            let (b, d) = flag_at(image, c)?;
            Some((Record::Boolean(b), d))
        }
        kind::TEXT => {
            let (t, d) = long_at(image, c).ok()?;
            Some((Record::Text(t.place, t.length), d))
        }
        kind::OBJECT => Some((Record::Object, c)),
        kind::NULL => Some((Record::Null, c)),
        kind::UNDEFINED => Some((Record::Undefined, c)),
        kind::REFERENCE => {
            let (n, d) = c.be_u16(image).ok()?;
            Some((Record::Reference(n), d))
        }
        kind::ECMA_ARRAY => {
            let (n, d) = c.be_u32(image).ok()?;
            Some((Record::EcmaArray(n), d))
        }
        kind::OBJECT_END => Some((Record::ObjectEnd, c)),
        kind::STRICT_ARRAY => {
            let (n, d) = c.be_u32(image).ok()?;
            Some((Record::StrictArray(n), d))
        }
        kind::DATE => date_at(image, c),
        kind::UNSUPPORTED => Some((Record::Unsupported, c)),
        kind::XML => {
            let (t, d) = long_at(image, c).ok()?;
            Some((Record::Xml(t.place, t.length), d))
        }
        kind::TYPED_OBJECT => {
            let (t, d) = short_at(image, c).ok()?;
            Some((Record::TypedObject(t.place, t.length), d))
        }
        kind::KEY => {
            let (t, d) = short_at(image, c).ok()?;
            Some((Record::Key(t.place, t.length), d))
        }
        kind::PACKET => packet_at(image, c),
        kind::HEADER => header_at(image, c),
        kind::MESSAGE => message_at(image, c),
        kind::LSO => lso_at(image, c),
        _ => None,
    }
}

#[tactic(auto, unfolding(crate::specs::Taking::record_at))]
pub fn record_at(image: &[u8], c: Cursor) -> Taken
    ensures { result ≡ record_at image.now c.at }
{
    let (kind, d) = c.be_u8(image).ok()?;
    body_at(image, kind, d)
}
