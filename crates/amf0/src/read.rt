// Reading one value: its marker, its own fields, its record, and what follows them.
ghost use Rattle.std.specs.Prelude.{◌≡◌, ◌+◌, ◌<◌, ◌≤◌, length};
ghost use Rattle.wire.specs.Limit.{bytes};
ghost use Rattle.wire.specs.Field.{got_at, u8_at};
ghost use Rattle.image.specs.Due.{run, ran, based, Within};
ghost use Rattle.image.specs.Whole.{padded};
ghost use Rattle.amf0.specs.Fields.{fields_at, based_fields};
ghost use Rattle.amf0.specs.Reading.{value, pairs, items, value_in, read_of};
ghost use Rattle.amf0.specs.Survey.{end_of, Onward};

use crate::part::of_whole;
use crate::survey::{COUNTERS, survey_value};
use crate::type_marker::{TypeMarker, type_marker};
use image::reading::{Reading, Step, finish, put, put_end, put_key};
use image::record::Record;
use wire::answer::{Answer, Refusal};
use wire::cursor::Cursor;
use wire::limit;

// What follows a value's own fields.
#[derive(Clone, Copy, Debug, PartialEq, Eq)]
pub enum Follow {
    Nothing,
    Pairs,
    Values(u32),
}

// A value's own fields: its record, what follows them, and where; or their refusal.
pub type Fields = Result<(Record, Follow, Cursor), Refusal>;

// The fields from a cursor on, behind the marker of a value. The input is a part that begins at the place `base` of a whole: every reader hands that on. They are
// no struct: its type would name a lifetime, and each `ensures` would say `s.entry.bytes.now` for `s.now` and `s.entry.base` for `base`.
#[tactic(auto, unfolding(crate::specs::Fields::fields_at), using(crate::proofs::Parts::within8, crate::proofs::Parts::within16, crate::proofs::Parts::within32, crate::proofs::Parts::within64, crate::proofs::Parts::within_text, crate::proofs::Parts::ends32, crate::proofs::Parts::ends64, crate::proofs::Parts::ends_text))]
fn parse_fields(s: &[u8], base: usize, c: Cursor, k: TypeMarker) -> Fields
    requires { (base + length s.now ≤ bytes) × (c.at ≤ length s.now) }
    ensures { result ≡ based_fields base (fields_at s.now c.at k) }
{
    match k {
        TypeMarker::Number => {
            let (n, d) = of_whole(base, c.be_u64(s))?;
            Ok((Record::Number(n), Follow::Nothing, d))
        }
        TypeMarker::Boolean => {
            let (b, d) = of_whole(base, c.be_u8(s))?;
            Ok((Record::Boolean(0 < b), Follow::Nothing, d))
        }
        TypeMarker::String => {
            let (t, d) = of_whole(base, c.parse_string(s))?;
            Ok((Record::Text(base + t.place, t.length), Follow::Nothing, d))
        }
        TypeMarker::Object => Ok((Record::Object, Follow::Pairs, c)),
        TypeMarker::Null => Ok((Record::Null, Follow::Nothing, c)),
        TypeMarker::Undefined => Ok((Record::Undefined, Follow::Nothing, c)),
        TypeMarker::Reference => {
            let (n, d) = of_whole(base, c.be_u16(s))?;
            Ok((Record::Reference(n), Follow::Nothing, d))
        }
        TypeMarker::EcmaArray => {
            let (n, d) = of_whole(base, c.be_u32(s))?;
            Ok((Record::EcmaArray(n), Follow::Pairs, d))
        }
        TypeMarker::StrictArray => {
            let (n, d) = of_whole(base, c.be_u32(s))?;
            // Each value takes a byte, so a count above the bytes left can't be met.
            if (n as usize) <= s.len() - d.at {
                Ok((Record::StrictArray(n), Follow::Values(n), d))
            } else {
                Answer::NotWhole.refuse(base + c.at)
            }
        }
        TypeMarker::Date => {
            let (n, d) = of_whole(base, c.be_u64(s))?;
            let (z, e) = of_whole(base, d.be_u16(s))?;
            Ok((Record::Date(n, true, z), Follow::Nothing, e))
        }
        TypeMarker::LongString => {
            let (t, d) = of_whole(base, c.parse_long_string(s))?;
            Ok((Record::Text(base + t.place, t.length), Follow::Nothing, d))
        }
        TypeMarker::Unsupported => Ok((Record::Unsupported, Follow::Nothing, c)),
        TypeMarker::Xml => {
            let (t, d) = of_whole(base, c.parse_long_string(s))?;
            Ok((Record::Xml(base + t.place, t.length), Follow::Nothing, d))
        }
        TypeMarker::TypedObject => {
            let (t, d) = of_whole(base, c.parse_string(s))?;
            Ok((
                Record::TypedObject(base + t.place, t.length),
                Follow::Pairs,
                d,
            ))
        }
        TypeMarker::Amf3 => Ok((Record::Unsupported, Follow::Nothing, c)),
    }
}

// The value at a cursor, whose marker m was read there.
#[cycle(items_pairs_value)]
fn value(
    image: &mut [u8],
    s: &[u8],
    base: usize,
    c: Cursor,
    m: u8,
    made: usize,
    left: usize,
) -> Step
    requires { (base + length s.now ≤ bytes) × (u8_at s.now c.at ≡ got_at m (c.at + 1)) }
    ensures image_after { ran result image.new ≡ run (based base (value left s.now c.at)) made image.old }
    ensures within { Within result (c.at + 1) (length s.now) (length image.old) }
{
    let at = c.at;
    let place = base + at;
    match type_marker(m) {
        None => Answer::NotRight.refuse(place),
        Some(k) => {
            if left == 0 {
                return Answer::TooDeep.refuse(place);
            }
            let (r, f, d) = parse_fields(s, base, Cursor { at: at + 1 }, k)?;
            let (e, laid) = put(image, made, r, place, d)?;
            match f {
                Follow::Nothing => Ok((e, laid)),
                Follow::Pairs => pairs(image, s, base, e, laid, left - 1),
                Follow::Values(n) => items(image, s, base, e, laid, left - 1, n),
            }
        }
    }
}

// Pairs up to the end marker. A key is read once, and the marker behind it is handed on. A level has one frame on the stack, `value`'s, with this in it.
#[cycle(items_pairs_value)]
#[inline(always)]
#[tactic(auto, using(crate::proofs::Parts::within8, crate::proofs::Parts::ends8, crate::proofs::Parts::within_text, crate::proofs::Parts::ends_text))]
fn pairs(image: &mut [u8], s: &[u8], base: usize, start: Cursor, done: usize, left: usize) -> Step
    requires { (base + length s.now ≤ bytes) × (start.at ≤ length s.now) × (done ≤ length image.old) }
    ensures image_after { ran result image.new ≡ run (based base (pairs (value left s.now) s.now (length s.now) start.at)) done image.old }
    ensures within { Within result start.at (length s.now) (length image.old) }
{
    let mut c = start;
    let mut made = done;
    loop {
        let (t, q) = of_whole(base, c.parse_string(s))?;
        let (m, e) = of_whole(base, q.be_u8(s))?;
        if m == 0x09 {
            return put_end(image, made, base + q.at, e);
        }
        let (v, laid) = put_key(image, made, base + t.place, t.length, base + c.at, q)?;
        let (d, total) = value(image, s, base, v, m, laid, left)?;
        c = d;
        made = total;
    }
}

// n values in a row.
#[cycle(items_pairs_value)]
#[inline(always)]
#[tactic(auto, using(crate::proofs::Parts::within8, crate::proofs::Parts::ends8))]
fn items(
    image: &mut [u8],
    s: &[u8],
    base: usize,
    start: Cursor,
    done: usize,
    left: usize,
    n: u32,
) -> Step
    requires { (base + length s.now ≤ bytes) × (start.at ≤ length s.now) × (done ≤ length image.old) }
    ensures image_after { ran result image.new ≡ run (based base (items (value left s.now) n start.at)) done image.old }
    ensures within { Within result start.at (length s.now) (length image.old) }
{
    let mut c = start;
    let mut made = done;
    for _ in 0..n {
        let (m, _) = of_whole(base, c.be_u8(s))?;
        let (d, total) = value(image, s, base, c, m, made, left)?;
        c = d;
        made = total;
    }
    Ok((c, made))
}

// The value at a cursor of a part of an input, laid behind what is made of the image: for the layers above.
#[tactic(auto, using(crate::proofs::Parts::within8, crate::proofs::Parts::ends8))]
pub fn parse_value(image: &mut [u8], input: &[u8], base: usize, c: Cursor, made: usize) -> Step
    ensures image_after { ran result image.new ≡ run (value_in base input.now c.at) made image.old }
    ensures within { Within result (c.at + 1) (length input.now) (length image.old) }
{
    let at = c.at;
    if limit::BYTES < input.len() {
        return Answer::OverLimit.refuse(0);
    }
    if limit::BYTES - input.len() < base {
        return Answer::OverLimit.refuse(0);
    }
    if input.len() < at {
        return Answer::OverLimit.refuse(0);
    }
    let (m, _) = of_whole(base, c.be_u8(input))?;
    value(image, input, base, c, m, made, limit::LEVELS)
}

// The value at a cursor of a part of an input, measured: where it ends, or why it is refused. It makes no records, so it needs no room: for the layers above.
pub fn measure(input: &[u8], base: usize, c: Cursor) -> Result<Cursor, Refusal>
    ensures value { result ≡ end_of (value_in base input.now c.at) }
    ensures onward { Onward result (c.at + 1) (length input.now) }
{
    let mut t = [0u32; COUNTERS];
    survey_value(&mut t, input, base, c)
}

// Reads one value at the front of an input.
pub fn parse_single_element(input: &[u8], image: &mut [u8]) -> Reading
    ensures value { result ≡ (read_of input.now (length image.old)).reading }
    ensures image_after { image.new ≡ padded (read_of input.now (length image.old)).bytes (length image.old) }
{
    let step = parse_value(image, input, 0, Cursor { at: 0 }, 0);
    finish(image, step)
}
