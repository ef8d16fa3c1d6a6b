// Writing one value: the records of its image, left to right, each as the bytes of its own fields.
ghost use Rattle.std.specs.Prelude.{◌≡◌, ℕ, ◌+◌, ◌*◌, ◌≤◌, List, length};
ghost use Rattle.wire.specs.Number.{digits};
ghost use Rattle.wire.specs.Bytes.{laid, decimal};
ghost use Rattle.wire.specs.Limit.{bytes as most_bytes, «image» as most_image};
ghost use Rattle.image.specs.declared.record.Record.{Record};
ghost use Rattle.image.specs.declared.record.Record.TheVariants.{ObjectEnd};
ghost use Rattle.image.specs.Record.{none as no_field};
ghost use Rattle.image.specs.Taking.{body_at, record_at, taken_to};
ghost use Rattle.image.specs.Out.{most, pour, poured, onto};
ghost use Rattle.amf0.specs.Shape.{Value};
ghost use Rattle.amf0.specs.Writing.{shape_of, plain as plain_of, among, kinds, value_at, value, rest as rest_of, value_in, write_of};
ghost use Rattle.amf0.specs.Code.{Ahead, longest, room, then_of, of_record, Owned, Paired, due_at, owed};

use image::kind;
use image::reading::Step;
use image::record::bit;
use image::taking::{flag_at, long_at, short_at, zone_fits};
use image::writing::{Writing, emit_numbers, emit_text, refused_by};
use wire::answer::{ACCEPTED, Answer, Refusal};
use wire::bytes::{decimal_width, write_decimal};
use wire::cursor::Cursor;
use wire::limit;
use wire::number::write_number;

// An output, an image and its text are handed on one by one, as an input and its place are in read.rt, and for the same reason: of a struct the clauses would
// say `s.entry.image.now` where these say `image.now`. So it is in the writers of lso and packet.

// The most bytes of a string whose length has two bytes.
const SHORT: usize = 0xFFFF;
// The most bytes that a layer may have put out before a value.
const BEFORE: usize = 0x1000_0000_0000_0000;

// What follows a value's own bytes: nothing, pairs up to the end, values without a key before such pairs, or so many values.
#[derive(Clone, Copy, Debug, PartialEq, Eq)]
pub enum Rest {
    Nothing,
    Pairs,
    Dense,
    Values(u32),
}

// Whether a kind is that of a value.
fn is_value(kind: u8) -> bool
    ensures { result ≡ among kinds kind }
{
    matches!(
        kind,
        kind::NUMBER
            | kind::BOOLEAN
            | kind::TEXT
            | kind::OBJECT
            | kind::NULL
            | kind::UNDEFINED
            | kind::REFERENCE
            | kind::ECMA_ARRAY
            | kind::STRICT_ARRAY
            | kind::DATE
            | kind::UNSUPPORTED
            | kind::XML
            | kind::TYPED_OBJECT
    )
}

// Whether a value's record begins at a cursor.
#[tactic(auto, unfolding(crate::specs::Writing::value_at))]
pub fn value_at(image: &[u8], c: Cursor) -> bool
    ensures { result ≡ value_at image.now c.at }
{
    match c.be_u8(image) {
        Ok((kind, _)) => is_value(kind),
        Err(_) => false,
    }
}

// Puts out the key of a value without one: its number, in decimal, as a short text.
fn index(out: &mut [u8], count: usize, k: u32) -> usize
    requires { count ≤ room most_image }
    ensures value { (result ≡ count + 2 + length (decimal k)) × (result ≤ count + 12) }
    ensures out_after { out.new ≡ laid (decimal k) (count + 2) (laid (digits 2 (length (decimal k))) count out.old) }
{
    write_number(out, count, 2, decimal_width(k) as u64);
    let n = write_decimal(out, count + 2, k);
    count + 2 + n
}

// How far a value's own bytes were put out: up to a cursor, with so many bytes put out, and then this follows; or refused.
pub type Begun = Result<(Cursor, usize, Rest), Refusal>;

#[inline(always)]
fn then(x: Step, rest: Rest) -> Begun
    ensures { result ≡ then_of x rest }
{
    let (c, n) = x?;
    Ok((c, n, rest))
}

// What was read of a record's body: where it could not be, no record stands at that place.
#[inline(always)]
fn of_record<T>(at: usize, body: Option<T>) -> Result<T, Refusal>
    ensures { result ≡ of_record at body }
{
    match body {
        Some(x) => Ok(x),
        None => Answer::NoTree.refuse(at),
    }
}

// The own bytes of each kind of value, whose body stands at a cursor and whose record at a place. These, with `then`, `of_record` and `own`, are compiled into
// `values` at once: so each way through a kind goes on to the next value, or out, without asking again whether it was refused.
#[inline(always)]
fn number(out: &mut [u8], image: &[u8], c: Cursor, at: usize, count: usize) -> Begun
    requires { count ≤ most }
    ensures { (text : List ℕ) → Owned result out.new (body_at 0x00 image.now c.at) text at count out.old }
{
    let (n, e) = of_record(at, c.be_u64(image).ok())?;
    then(
        emit_numbers(out, count, 1, 0x00, 8, n, 0, 0, e),
        Rest::Nothing,
    )
}

#[inline(always)]
fn boolean(out: &mut [u8], image: &[u8], c: Cursor, at: usize, count: usize) -> Begun
    requires { count ≤ most }
    ensures { (text : List ℕ) → Owned result out.new (body_at 0x01 image.now c.at) text at count out.old }
{
    let (b, e) = of_record(at, flag_at(image, c))?;
    then(
        emit_numbers(out, count, 1, 0x01, 1, bit(b), 0, 0, e),
        Rest::Nothing,
    )
}

#[inline(always)]
fn string(out: &mut [u8], image: &[u8], text: &[u8], c: Cursor, at: usize, count: usize) -> Begun
    requires { (length text.now ≤ most_bytes) × (count ≤ most) }
    ensures { Owned result out.new (body_at 0x02 image.now c.at) text.now at count out.old }
{
    let (t, e) = of_record(at, long_at(image, c).ok())?;
    if t.length <= SHORT {
        then(
            emit_text(out, text, count, 1, 0x02, 2, t.place, t.length, at, e),
            Rest::Nothing,
        )
    } else {
        then(
            emit_text(out, text, count, 1, 0x0C, 4, t.place, t.length, at, e),
            Rest::Nothing,
        )
    }
}

#[inline(always)]
fn reference(out: &mut [u8], image: &[u8], c: Cursor, at: usize, count: usize) -> Begun
    requires { count ≤ most }
    ensures { (text : List ℕ) → Owned result out.new (body_at 0x07 image.now c.at) text at count out.old }
{
    let (n, e) = of_record(at, c.be_u16(image).ok())?;
    then(
        emit_numbers(out, count, 1, 0x07, 2, n as u64, 0, 0, e),
        Rest::Nothing,
    )
}

#[inline(always)]
fn ecma_array(out: &mut [u8], image: &[u8], c: Cursor, at: usize, count: usize) -> Begun
    requires { count ≤ most }
    ensures { (text : List ℕ) → Owned result out.new (body_at 0x08 image.now c.at) text at count out.old }
{
    let (n, e) = of_record(at, c.be_u32(image).ok())?;
    then(
        emit_numbers(out, count, 1, 0x08, 4, n as u64, 0, 0, e),
        Rest::Dense,
    )
}

#[inline(always)]
fn strict_array(out: &mut [u8], image: &[u8], c: Cursor, at: usize, count: usize) -> Begun
    requires { count ≤ most }
    ensures { (text : List ℕ) → Owned result out.new (body_at 0x0A image.now c.at) text at count out.old }
{
    let (n, e) = of_record(at, c.be_u32(image).ok())?;
    then(
        emit_numbers(out, count, 1, 0x0A, 4, n as u64, 0, 0, e),
        Rest::Values(n),
    )
}

#[inline(always)]
fn date(out: &mut [u8], image: &[u8], c: Cursor, at: usize, count: usize) -> Begun
    requires { count ≤ most }
    ensures { (text : List ℕ) → Owned result out.new (body_at 0x0B image.now c.at) text at count out.old }
{
    let (n, d) = of_record(at, c.be_u64(image).ok())?;
    let (present, e) = of_record(at, flag_at(image, d))?;
    let (zone, f) = of_record(at, e.be_u16(image).ok())?;
    if zone_fits(present, zone) {
        then(
            emit_numbers(out, count, 1, 0x0B, 8, n, 2, zone as u64, f),
            Rest::Nothing,
        )
    } else {
        Answer::NoTree.refuse(at)
    }
}

#[inline(always)]
fn xml(out: &mut [u8], image: &[u8], text: &[u8], c: Cursor, at: usize, count: usize) -> Begun
    requires { (length text.now ≤ most_bytes) × (count ≤ most) }
    ensures { Owned result out.new (body_at 0x0F image.now c.at) text.now at count out.old }
{
    let (t, e) = of_record(at, long_at(image, c).ok())?;
    then(
        emit_text(out, text, count, 1, 0x0F, 4, t.place, t.length, at, e),
        Rest::Nothing,
    )
}

#[inline(always)]
fn typed_object(
    out: &mut [u8],
    image: &[u8],
    text: &[u8],
    c: Cursor,
    at: usize,
    count: usize,
) -> Begun
    requires { (length text.now ≤ most_bytes) × (count ≤ most) }
    ensures { Owned result out.new (body_at 0x10 image.now c.at) text.now at count out.old }
{
    let (t, e) = of_record(at, short_at(image, c).ok())?;
    then(
        emit_text(out, text, count, 1, 0x10, 2, t.place, t.length, at, e),
        Rest::Pairs,
    )
}

// A marker alone.
#[inline(always)]
fn bare(out: &mut [u8], count: usize, marker: u64, next: Cursor, rest: Rest) -> Begun
    requires { count ≤ most }
    ensures { (text : List ℕ) → (x : Record) → (at : ℕ) → shape_of x ≡ Value (plain_of marker no_field no_field) rest → Owned result out.new (taken_to x next) text at count out.old }
{
    then(emit_numbers(out, count, 1, marker, 0, 0, 0, 0, next), rest)
}

// The own bytes of the value whose record stands at a cursor.
#[inline(always)]
#[tactic(auto, unfolding(image::specs::Taking::record_at))]
fn own(out: &mut [u8], image: &[u8], text: &[u8], c: Cursor, count: usize) -> Begun
    requires { (length text.now ≤ most_bytes) × (count ≤ most) }
    ensures { Owned result out.new (record_at image.now c.at) text.now c.at count out.old }
{
    let at = c.at;
    let (kind, d) = of_record(at, c.be_u8(image).ok())?;
    match kind {
        kind::NUMBER => number(out, image, d, at, count),
        kind::BOOLEAN => boolean(out, image, d, at, count),
        kind::TEXT => string(out, image, text, d, at, count),
        kind::OBJECT => bare(out, count, 0x03, d, Rest::Pairs),
        kind::NULL => bare(out, count, 0x05, d, Rest::Nothing),
        kind::UNDEFINED => bare(out, count, 0x06, d, Rest::Nothing),
        kind::REFERENCE => reference(out, image, d, at, count),
        kind::ECMA_ARRAY => ecma_array(out, image, d, at, count),
        kind::STRICT_ARRAY => strict_array(out, image, d, at, count),
        kind::DATE => date(out, image, d, at, count),
        kind::UNSUPPORTED => bare(out, count, 0x0D, d, Rest::Nothing),
        kind::XML => xml(out, image, text, d, at, count),
        kind::TYPED_OBJECT => typed_object(out, image, text, d, at, count),
        _ => Answer::NoTree.refuse(at),
    }
}

// What stood before a value of a pair, and was put out: its key, or the end of the pairs.
#[derive(Clone, Copy, Debug, PartialEq, Eq)]
pub enum Before {
    Key(Cursor, usize),
    End(Cursor, usize),
}

fn key(
    out: &mut [u8],
    image: &[u8],
    text: &[u8],
    c: Cursor,
    at: usize,
    count: usize,
) -> Result<Before, Refusal>
    requires { (length text.now ≤ most_bytes) × (count ≤ most) }
    ensures { Paired result out.new (body_at 0x20 image.now c.at) text.now at count out.old }
{
    let (t, e) = of_record(at, short_at(image, c).ok())?;
    let (g, m) = emit_text(out, text, count, 0, 0, 2, t.place, t.length, at, e)?;
    Ok(Before::Key(g, m))
}

fn end(out: &mut [u8], count: usize, next: Cursor) -> Result<Before, Refusal>
    requires { count ≤ most }
    ensures { (text : List ℕ) → (at : ℕ) → Paired result out.new (taken_to ObjectEnd next) text at count out.old }
{
    let (g, m) = emit_numbers(out, count, 3, 0x09, 0, 0, 0, 0, next)?;
    Ok(Before::End(g, m))
}

#[tactic(auto, unfolding(image::specs::Taking::record_at))]
fn pair(
    out: &mut [u8],
    image: &[u8],
    text: &[u8],
    c: Cursor,
    count: usize,
) -> Result<Before, Refusal>
    requires { (length text.now ≤ most_bytes) × (count ≤ most) }
    ensures { Paired result out.new (record_at image.now c.at) text.now c.at count out.old }
{
    let at = c.at;
    let (kind, d) = of_record(at, c.be_u8(image).ok())?;
    match kind {
        kind::KEY => key(out, image, text, d, at, count),
        kind::OBJECT_END => end(out, count, d),
        _ => Answer::NoTree.refuse(at),
    }
}

// What is still to come at a cursor: values without a key come to pairs where no value's record begins.
fn due_at(image: &[u8], c: Cursor, due: Rest) -> Rest
    ensures { result ≡ due_at (value_at image.now c.at) due }
{
    match due {
        Rest::Dense if !value_at(image, c) => Rest::Pairs,
        _ => due,
    }
}

// The value whose record stands at a cursor.
#[cycle(value_values)]
fn value(out: &mut [u8], image: &[u8], text: &[u8], c: Cursor, count: usize, left: usize) -> Step
    requires { (length text.now ≤ most_bytes) × (length image.now ≤ most_image) × (c.at ≤ length image.now) × (count ≤ room c.at + 16) }
    ensures out_after { poured result out.new ≡ pour (value left image.now text.now c.at) count out.old }
    ensures ahead { Ahead result (c.at + 1) (length image.now) (count + longest) }
{
    if left == 0 {
        let reason = if value_at(image, c) {
            Answer::TooDeep
        } else {
            Answer::NoTree
        };
        return reason.refuse(c.at);
    }
    let (e, n, f) = own(out, image, text, c, count)?;
    if let Rest::Nothing = f {
        return Ok((e, n));
    }
    values(out, image, text, e, n, left - 1, f)
}

// Values as they follow a value's own bytes: pairs up to the end, values without a key, numbered from 0 as their keys, before such pairs, or so many values.
// One loop for all, so that a value's own bytes are put out in it, without a call.
#[cycle(value_values)]
fn values(
    out: &mut [u8],
    image: &[u8],
    text: &[u8],
    start: Cursor,
    done: usize,
    left: usize,
    rest: Rest,
) -> Step
    requires { (length text.now ≤ most_bytes) × (length image.now ≤ most_image) × (start.at ≤ length image.now) × (done ≤ room start.at) }
    ensures out_after { poured result out.new ≡ pour (rest_of (value left image.now text.now) image.now text.now rest start.at) done out.old }
    ensures ahead { Ahead result (start.at + owed rest) (length image.now) (done + longest * owed rest) }
{
    let mut c = start;
    let mut count = done;
    let mut due = rest;
    let mut k: u32 = 0;
    loop {
        due = due_at(image, c, due);
        match due {
            Rest::Nothing => {
                return Ok((c, count));
            }
            Rest::Dense => {
                count = index(out, count, k);
            }
            Rest::Values(n) => {
                if n == 0 {
                    return Ok((c, count));
                }
                due = Rest::Values(n - 1);
            }
            Rest::Pairs => match pair(out, image, text, c, count)? {
                Before::End(e, n) => {
                    return Ok((e, n));
                }
                Before::Key(e, n) => {
                    c = e;
                    count = n;
                }
            },
        }
        let (g, m) = value(out, image, text, c, count, left)?;
        c = g;
        count = m;
        k += 1;
    }
}

// The value at a cursor of an image, put out behind so many bytes: for the layers above. On an output without room it counts alone.
pub fn pour_value(out: &mut [u8], image: &[u8], text: &[u8], c: Cursor, count: usize) -> Step
    ensures out_after { poured result out.new ≡ pour (value_in image.now text.now count c.at) count out.old }
    ensures ahead { Ahead result (c.at + 1) (length image.now) (count + longest) }
{
    if limit::BYTES < text.len()
        || limit::IMAGE < image.len()
        || image.len() < c.at
        || BEFORE < count
    {
        return Answer::OverLimit.refuse(0);
    }
    values(out, image, text, c, count, limit::LEVELS, Rest::Values(1))
}

// Writes the value of an image, whose texts stand in `text`: measured first, and then put out.
pub fn write_value(image: &[u8], text: &[u8], out: &mut [u8]) -> Writing
    ensures value { result ≡ (write_of image.now text.now (length out.old)).writing }
    ensures out_after { out.new ≡ onto (write_of image.now text.now (length out.old)).bytes out.old }
{
    match pour_value(&mut out[..0], image, text, Cursor { at: 0 }, 0) {
        Err(r) => refused_by(r.answer()),
        Ok((c, _)) if c.at < image.len() => refused_by(Answer::NoTree),
        Ok((_, n)) if limit::BYTES < n => refused_by(Answer::OverLimit),
        Ok((_, n)) if out.len() < n => refused_by(Answer::NoRoom),
        Ok((_, n)) => {
            // What was measured is not refused.
            let _ = pour_value(out, image, text, Cursor { at: 0 }, 0);
            Writing {
                answer: ACCEPTED,
                count: n,
            }
        }
    }
}
