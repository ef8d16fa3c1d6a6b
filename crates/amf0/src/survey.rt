// Reading a value without records: how that ends, and counts of what no record keeps.
ghost use Rattle.std.specs.Prelude.{◌≡◌, ◌+◌, ◌<◌, ◌≤◌, length, slice_index};
ghost use Rattle.wire.specs.Limit.{bytes, levels};
ghost use Rattle.wire.specs.Field.{got_at, u8_at, text_at, bytes_at};
ghost use Rattle.image.specs.Due.{based};
ghost use Rattle.image.specs.Due.Fact.{dropped};
ghost use Rattle.amf0.specs.declared.read.Follow.TheVariants.{Nothing};
ghost use Rattle.amf0.specs.Fields.{fields_at, based_fields};
ghost use Rattle.amf0.specs.Reading.{value, pairs, items, own_at, value_in};
ghost use Rattle.amf0.specs.Survey.{bytes_passed, text_passed, passed, more, more_if, deepened, counter_of, shortens as shortens_of, uneven as uneven_of, noted, told, count, Onward};

use crate::part::of_whole;
use crate::read::Follow;
use crate::type_marker::{TypeMarker, type_marker};
use wire::answer::{Answer, Refusal};
use wire::cursor::{Cursor, Parsed};
use wire::limit;

// How a reading without records ends: behind what it read, or refused.
pub type Ended = Result<Cursor, Refusal>;

// A value's own fields, passed over: what follows them, and where.
pub type Passed = Parsed<Follow>;

// The counters: one for each marker up to 11 hex, and then those below.
pub const COUNTERS: usize = 23;

// Markers above 11 hex.
pub const ABOVE: usize = 18;

// The depth of the deepest value.
pub const DEEPEST: usize = 19;

// Keys dropped before an end marker that were not empty.
pub const DROPPED: usize = 20;

// Long strings that would fit a short one.
pub const LONG: usize = 21;

// Booleans that are neither 0 nor 1.
pub const UNEVEN: usize = 22;

// The most bytes of a long string that would fit a short one: its marker, its length in four bytes, and 65,535 letters.
const FITS_SHORT: usize = 65540;

fn count_one(t: &mut [u32; COUNTERS], i: usize)
    requires { i < 23 }
    ensures { t.new ≡ more i t.old }
{
    let n = t[i];
    let k = std::num::wrapping_add_u32(n, 1);
    t[i] = k;
}

fn count_if(t: &mut [u32; COUNTERS], yes: bool, i: usize)
    requires { i < 23 }
    ensures { t.new ≡ more_if yes i t.old }
{
    if yes {
        count_one(t, i);
    }
}

fn deepen(t: &mut [u32; COUNTERS], d: u32)
    ensures { t.new ≡ deepened d t.old }
{
    let n = t[DEEPEST];
    if n < d {
        t[DEEPEST] = d;
    }
}

// The counter of a marker.
fn counter(m: u8) -> usize
    ensures { (result ≡ counter_of m) × (result < 23) }
{
    if m <= 0x11 { m as usize } else { ABOVE }
}

// A marker with its fields, n bytes in all, is a long string that would fit a short one.
fn shortens(m: u8, n: usize) -> bool
    ensures { result ≡ shortens_of m n }
{
    if m == 0x0C { n <= FITS_SHORT } else { false }
}

// A marker with its fields, n bytes from p on, is a boolean that is neither 0 nor 1.
fn uneven(m: u8, s: &[u8], p: usize, n: usize) -> bool
    requires { p + n ≤ length s.now }
    ensures { result ≡ uneven_of m (slice_index (bytes_at n s.now p) 1) }
{
    if m == 0x01 {
        if 1 < n { 1 < s[p + 1] } else { false }
    } else {
        false
    }
}

// What is seen of a value whose marker m and own fields stand from p to q.
fn note(t: &mut [u32; COUNTERS], s: &[u8], p: usize, m: u8, q: usize, left: usize)
    requires { (p < q) × (q ≤ length s.now) × (left ≤ levels) × (m ≡ slice_index s.now p) }
    ensures { t.new ≡ noted (own_at left s.now p q) t.old }
{
    let n = q - p;
    let i = counter(m);
    count_one(t, i);
    let short = shortens(m, n);
    count_if(t, short, LONG);
    let odd = uneven(m, s, p, n);
    count_if(t, odd, UNEVEN);
    deepen(t, (limit::LEVELS - left) as u32);
}

// A key of n bytes that is dropped.
fn note_dropped(t: &mut [u32; COUNTERS], n: usize)
    ensures { t.new ≡ noted (dropped n) t.old }
{
    count_if(t, 0 < n, DROPPED);
}

// n bytes that a value's own fields end with.
fn pass_bytes(s: &[u8], base: usize, c: Cursor, n: usize, f: Follow) -> Passed
    requires { (base + length s.now ≤ bytes) × (c.at ≤ length s.now) }
    ensures { result ≡ bytes_passed base n s.now c.at f }
{
    if n <= s.len() - c.at {
        Ok((f, Cursor { at: c.at + n }))
    } else {
        Answer::NotWhole.refuse(base + c.at)
    }
}

// Short text that they end with.
#[tactic(auto, using(crate::proofs::Parts::within_text))]
fn pass_string(s: &[u8], base: usize, c: Cursor, f: Follow) -> Passed
    requires { (base + length s.now ≤ bytes) × (c.at ≤ length s.now) }
    ensures { result ≡ text_passed base (text_at 2 s.now c.at) f }
{
    let (_, d) = of_whole(base, c.parse_string(s))?;
    Ok((f, d))
}

// Long text that they end with.
#[tactic(auto, using(crate::proofs::Parts::within_text))]
fn pass_long_string(s: &[u8], base: usize, c: Cursor) -> Passed
    requires { (base + length s.now ≤ bytes) × (c.at ≤ length s.now) }
    ensures { result ≡ text_passed base (text_at 4 s.now c.at) Nothing }
{
    let (_, d) = of_whole(base, c.parse_long_string(s))?;
    Ok((Follow::Nothing, d))
}

// The fields from a cursor on, behind the marker of a value, with no record made of them. It doesn't call `parse_fields`: that is compiled into the reader
// with records only while nothing else calls it, and reading takes up to 40 in a hundred more instructions otherwise.
#[tactic(auto, unfolding(crate::specs::Fields::fields_at, wire::specs::Field::u8_at, wire::specs::Field::u16_at, wire::specs::Field::u32_at, wire::specs::Field::u64_at), using(crate::proofs::Parts::within32, crate::proofs::Parts::ends32))]
fn pass_fields(s: &[u8], base: usize, c: Cursor, k: TypeMarker) -> Passed
    requires { (base + length s.now ≤ bytes) × (c.at ≤ length s.now) }
    ensures { result ≡ passed (based_fields base (fields_at s.now c.at k)) }
{
    match k {
        TypeMarker::Number => pass_bytes(s, base, c, 8, Follow::Nothing),
        TypeMarker::Boolean => pass_bytes(s, base, c, 1, Follow::Nothing),
        TypeMarker::String => pass_string(s, base, c, Follow::Nothing),
        TypeMarker::Object => Ok((Follow::Pairs, c)),
        TypeMarker::Null => Ok((Follow::Nothing, c)),
        TypeMarker::Undefined => Ok((Follow::Nothing, c)),
        TypeMarker::Reference => pass_bytes(s, base, c, 2, Follow::Nothing),
        TypeMarker::EcmaArray => pass_bytes(s, base, c, 4, Follow::Pairs),
        TypeMarker::StrictArray => {
            let (n, d) = of_whole(base, c.be_u32(s))?;
            if (n as usize) <= s.len() - d.at {
                Ok((Follow::Values(n), d))
            } else {
                Answer::NotWhole.refuse(base + c.at)
            }
        }
        TypeMarker::Date => {
            let (f, d) = pass_bytes(s, base, c, 8, Follow::Nothing)?;
            pass_bytes(s, base, d, 2, f)
        }
        TypeMarker::LongString => pass_long_string(s, base, c),
        TypeMarker::Unsupported => Ok((Follow::Nothing, c)),
        TypeMarker::Xml => pass_long_string(s, base, c),
        TypeMarker::TypedObject => pass_string(s, base, c, Follow::Pairs),
        TypeMarker::Amf3 => Ok((Follow::Nothing, c)),
    }
}

// The value at a cursor, whose marker m was read there.
#[cycle(items_pairs_value)]
#[tactic(auto, using(crate::proofs::Parts::within8, crate::proofs::Parts::ends8))]
fn value(t: &mut [u32; COUNTERS], s: &[u8], base: usize, c: Cursor, m: u8, left: usize) -> Ended
    requires { (base + length s.now ≤ bytes) × (left ≤ levels) × (u8_at s.now c.at ≡ got_at m (c.at + 1)) }
    ensures t_after { told result t.new ≡ count (based base (value left s.now c.at)) t.old }
    ensures onward { Onward result (c.at + 1) (length s.now) }
{
    let at = c.at;
    let place = base + at;
    match type_marker(m) {
        None => Answer::NotRight.refuse(place),
        Some(k) => {
            if left == 0 {
                return Answer::TooDeep.refuse(place);
            }
            let (f, d) = pass_fields(s, base, Cursor { at: at + 1 }, k)?;
            note(t, s, at, m, d.at, left - 1);
            match f {
                Follow::Nothing => Ok(d),
                Follow::Pairs => pairs(t, s, base, d, left - 1),
                Follow::Values(n) => items(t, s, base, d, left - 1, n),
            }
        }
    }
}

// Pairs up to the end marker. A key is read once, and the marker behind it is handed on.
#[cycle(items_pairs_value)]
#[tactic(auto, using(crate::proofs::Parts::within8, crate::proofs::Parts::ends8, crate::proofs::Parts::within_text, crate::proofs::Parts::ends_text))]
fn pairs(t: &mut [u32; COUNTERS], s: &[u8], base: usize, start: Cursor, left: usize) -> Ended
    requires { (base + length s.now ≤ bytes) × (left ≤ levels) × (start.at ≤ length s.now) }
    ensures t_after { told result t.new ≡ count (based base (pairs (value left s.now) s.now (length s.now) start.at)) t.old }
    ensures onward { Onward result start.at (length s.now) }
{
    let mut c = start;
    loop {
        let (key, q) = of_whole(base, c.parse_string(s))?;
        let (m, e) = of_whole(base, q.be_u8(s))?;
        if m == 0x09 {
            note_dropped(t, key.length);
            return Ok(e);
        }
        c = value(t, s, base, q, m, left)?;
    }
}

// n values in a row.
#[cycle(items_pairs_value)]
#[tactic(auto, using(crate::proofs::Parts::within8, crate::proofs::Parts::ends8))]
fn items(
    t: &mut [u32; COUNTERS],
    s: &[u8],
    base: usize,
    start: Cursor,
    left: usize,
    n: u32,
) -> Ended
    requires { (base + length s.now ≤ bytes) × (left ≤ levels) × (start.at ≤ length s.now) }
    ensures t_after { told result t.new ≡ count (based base (items (value left s.now) n start.at)) t.old }
    ensures onward { Onward result start.at (length s.now) }
{
    let mut c = start;
    for _ in 0..n {
        let (m, _) = of_whole(base, c.be_u8(s))?;
        c = value(t, s, base, c, m, left)?;
    }
    Ok(c)
}

// The value at a cursor of a part of an input, with what no record keeps counted: for the layers above.
#[tactic(auto, unfolding(crate::specs::Reading::value_in, crate::specs::Survey::count), using(crate::proofs::Parts::within8, crate::proofs::Parts::ends8, crate::proofs::Laws::value_cut))]
pub fn survey_value(t: &mut [u32; COUNTERS], input: &[u8], base: usize, c: Cursor) -> Ended
    ensures t_after { told result t.new ≡ count (value_in base input.now c.at) t.old }
    ensures onward { Onward result (c.at + 1) (length input.now) }
{
    let at = c.at;
    if limit::BYTES < input.len() {
        return Answer::OverLimit.refuse(0);
    }
    if limit::BYTES - input.len() < base {
        return Answer::OverLimit.refuse(0);
    }
    if input.len() < at {
        return Answer::OverLimit.refuse(0);
    }
    let (m, _) = of_whole(base, c.be_u8(input))?;
    value(t, input, base, c, m, limit::LEVELS)
}
