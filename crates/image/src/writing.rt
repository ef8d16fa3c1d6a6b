// A writing puts rows of bytes behind one another, each made of a record of an image and of the text that it names.
ghost use Rattle.std.specs.Prelude.{◌≡◌, ℕ, ◌+◌, ◌≤◌, List, length};
ghost use Rattle.image.specs.Out.{pour, poured, «end», row_in, row_of, named_at, row_bytes, number_bytes, Grown};
ghost use Rattle.wire.specs.Answer.{number_of};
ghost use Rattle.wire.specs.Bytes.{laid};
ghost use Rattle.image.specs.Record.{◌bytes◌, none};

use crate::reading::{Step, lay};
use crate::record::Field;
use wire::answer::Answer;
use wire::bytes::write_bytes;
use wire::cursor::Cursor;
use wire::number::write_number;
use wire::text::{inside, part};
use wire::utf8::is_utf8;

// No writing comes to more bytes.
pub const MOST: usize = 0x4000_0000_0000_0000;

// A row: three numbers, each in so many bytes, and a text by its place and length.
#[derive(Clone, Copy)]
pub struct Row {
    pub mark: Field,
    pub a: Field,
    pub b: Field,
    pub place: usize,
    pub length: usize,
}

// What a public writing returns. C has these numbers.
#[derive(Clone, Copy, Debug, PartialEq, Eq)]
pub struct Writing {
    pub answer: u8,
    pub count: usize,
}

// A writing that is refused, by an answer's number, and by an answer.
pub fn refused(a: u8) -> Writing
    ensures { result ≡ record { answer = a; count = 0 } }
{
    Writing {
        answer: a,
        count: 0,
    }
}

pub fn refused_by(a: Answer) -> Writing
    ensures { result ≡ record { answer = number_of a; count = 0 } }
{
    refused(u8::from(a))
}

// Whether a text stands in the lent one and is UTF-8.
fn named(text: &[u8], place: usize, n: usize) -> bool
    ensures { result ≡ named_at text.now place n }
{
    inside(text, place, n) && (n == 0 || is_utf8(part(text, place, n)))
}

// Lays a row whose text is named, all of it or none.
fn lay_row(out: &mut [u8], text: &[u8], at: usize, size: usize, r: Row)
    requires { size ≡ length (row_bytes text.now r) }
    ensures { out.new ≡ laid (row_bytes text.now r) at out.old }
{
    if at <= out.len() {
        if size <= out.len() - at {
            let i = lay(out, at, r.mark);
            let j = lay(out, i, r.a);
            let k = lay(out, j, r.b);
            write_bytes(out, k, part(text, r.place, r.length));
        }
    }
}

// Puts out the row of a record at `place`: the writing then goes on at `next`, or is refused for the row's text. A number wider than eight bytes, or a
// count past MOST, is refused with 1: no writing has either.
pub fn emit(out: &mut [u8], text: &[u8], count: usize, r: Row, place: usize, next: Cursor) -> Step
    ensures out_after { poured result out.new ≡ pour (row_in count text.now r place (end next.at)) count out.old }
    ensures grown { Grown result next.at (count + 24 + length text.now) }
{
    if MOST < count {
        return Answer::OverLimit.refuse(0);
    }
    let mark = r.mark;
    let a = r.a;
    let b = r.b;
    if 8 < mark.width {
        return Answer::OverLimit.refuse(0);
    }
    if 8 < a.width {
        return Answer::OverLimit.refuse(0);
    }
    if 8 < b.width {
        return Answer::OverLimit.refuse(0);
    }
    if named(text, r.place, r.length) {
        let size = mark.width + a.width + b.width + r.length;
        lay_row(out, text, count, size, r);
        Ok((next, count + size))
    } else {
        Answer::NoTree.refuse(place)
    }
}

// Lays three numbers behind one another, all of them or none.
fn lay_numbers(out: &mut [u8], at: usize, u: usize, l: u64, v: usize, m: u64, w: usize, n: u64)
    requires { (u ≤ 8) × (v ≤ 8) × (w ≤ 8) }
    ensures { out.new ≡ laid (number_bytes (u bytes l) (v bytes m) (w bytes n)) at out.old }
{
    if at <= out.len() {
        if u + v + w <= out.len() - at {
            write_number(out, at, u, l);
            write_number(out, at + u, v, m);
            write_number(out, at + u + v, w, n);
        }
    }
}

// Puts out a row without a text, whatever is lent, as `emit` does: three numbers, each behind its width. Most rows are of this kind or the next, and handed on
// as numbers, not as a struct, they do not go through memory.
pub fn emit_numbers(
    out: &mut [u8],
    count: usize,
    u: usize,
    l: u64,
    v: usize,
    m: u64,
    w: usize,
    n: u64,
    next: Cursor,
) -> Step
    ensures by_index { (text : List ℕ) → (place : ℕ) → poured result out.new ≡ pour (row_in count text (row_of (u bytes l) (v bytes m) (w bytes n) 0 0) place (end next.at)) count out.old }
    ensures grown { Grown result next.at (count + 24) }
{
    if MOST < count {
        return Answer::OverLimit.refuse(0);
    }
    if 8 < u {
        return Answer::OverLimit.refuse(0);
    }
    if 8 < v {
        return Answer::OverLimit.refuse(0);
    }
    if 8 < w {
        return Answer::OverLimit.refuse(0);
    }
    lay_numbers(out, count, u, l, v, m, w, n);
    Ok((next, count + u + v + w))
}

// Lays a marker, a length and its text, all of it or none.
fn lay_text(
    out: &mut [u8],
    text: &[u8],
    at: usize,
    v: usize,
    mark: u64,
    w: usize,
    place: usize,
    n: usize,
)
    requires { (v ≤ 8) × (w ≤ 8) × (place + n ≤ length text.now) }
    ensures { out.new ≡ laid (row_bytes text.now (row_of (v bytes mark) (w bytes n) none place n)) at out.old }
{
    if at <= out.len() {
        if v + w + n <= out.len() - at {
            write_number(out, at, v, mark);
            write_number(out, at + v, w, n as u64);
            write_bytes(out, at + v + w, part(text, place, n));
        }
    }
}

// Puts out a text behind its length in w bytes, and that behind a marker in v, as `emit` does.
pub fn emit_text(
    out: &mut [u8],
    text: &[u8],
    count: usize,
    v: usize,
    mark: u64,
    w: usize,
    place: usize,
    n: usize,
    at: usize,
    next: Cursor,
) -> Step
    ensures out_after { poured result out.new ≡ pour (row_in count text.now (row_of (v bytes mark) (w bytes n) none place n) at (end next.at)) count out.old }
    ensures grown { Grown result next.at (count + 24 + length text.now) }
{
    if MOST < count {
        return Answer::OverLimit.refuse(0);
    }
    if 8 < v {
        return Answer::OverLimit.refuse(0);
    }
    if 8 < w {
        return Answer::OverLimit.refuse(0);
    }
    if named(text, place, n) {
        lay_text(out, text, count, v, mark, w, place, n);
        Ok((next, count + v + w + n))
    } else {
        Answer::NoTree.refuse(at)
    }
}
