// A packet read by entry: an entry that can't be read is said to be damaged, and the others are shown all the same.
use crate::tree::{Tree, head};
use crate::wrong::failed;
use faults::fault::refused;
use faults::field::{of_entry, of_packet};
use figures::page::word;
use image::reading::Reading;
use image::record::Record;
use packet::entry::{nth, parse_span};
use packet::head::{Entry, HEADER, MESSAGE};
use packet::walk::entry_at;
use std::io;
use std::io::Write;
use wire::answer::{ACCEPTED, Answer};
use wire::cursor::Cursor;
use wire::text::{inside, part};

// More entries than two counts of two bytes can give.
const ENTRIES: usize = 131_071;
// Where the count of headers stands.
const COUNT: usize = 2;

// The record that a reading of the whole packet lays before the entry's value.
fn record_of(e: Entry) -> Record {
    if e.kind == HEADER {
        Record::Header(e.place1, e.length1, e.flag == 1)
    } else {
        Record::Message(e.place1, e.length1, e.place2, e.length2)
    }
}

// A refusal of the value of an entry, of which the reading had the bytes up to its end.
fn damaged(page: &mut impl Write, input: &[u8], e: Entry, r: Reading) -> io::Result<()> {
    if inside(input, e.place, e.length) {
        let read = part(input, 0, e.place + e.length);
        refused(page, input, read, of_entry(e.place), r, 4)?;
    }
    Ok(())
}

// Three times the value's length is room enough; the rest of the buffer need not be cleared.
fn value(page: &mut impl Write, input: &[u8], e: Entry, image: &mut [u8]) -> io::Result<()> {
    if image.len() / 3 < e.length {
        return Ok(());
    }
    let room = &mut image[..3 * e.length];
    let r = parse_span(input, e.place, e.length, room);
    if r.answer == ACCEPTED {
        Tree::of(input, room, r.made).show(page, 2)
    } else {
        damaged(page, input, e, r)
    }
}

// Shows the entry of a kind at a cursor, and returns the cursor behind it.
fn entry(
    page: &mut impl Write,
    input: &[u8],
    kind: u8,
    c: Cursor,
    image: &mut [u8],
) -> io::Result<Cursor> {
    match entry_at(input, kind, c) {
        Err(r) => Ok(Cursor { at: r.place() }),
        Ok((e, d)) => {
            head(page, input, record_of(e))?;
            value(page, input, e, image)?;
            Ok(d)
        }
    }
}

// So many entries of a kind from a cursor on; returns the cursor behind them.
fn row(
    page: &mut impl Write,
    input: &[u8],
    kind: u8,
    n: u16,
    start: Cursor,
    image: &mut [u8],
) -> io::Result<Cursor> {
    let mut c = start;
    for _ in 0..n {
        c = entry(page, input, kind, c, image)?;
    }
    Ok(c)
}

// The entries of a kind behind their count.
fn counted(
    page: &mut impl Write,
    input: &[u8],
    kind: u8,
    c: Cursor,
    image: &mut [u8],
) -> io::Result<Cursor> {
    match c.be_u16(input) {
        Err(r) => Ok(Cursor { at: r.place() }),
        Ok((n, d)) => row(page, input, kind, n, d, image),
    }
}

// The library says first whether the lengths cut the packet exactly; then the entries stand one behind the other, and each is looked at once.
pub fn entries(page: &mut impl Write, input: &[u8], image: &mut [u8]) -> io::Result<()> {
    word(page, b"AMF packet by entry\n")?;
    match nth(input, ENTRIES) {
        Ok(_) => Ok(()),
        Err(r) if r.answer() == Answer::NoEntry => {
            let c = counted(page, input, HEADER, Cursor { at: COUNT }, image)?;
            counted(page, input, MESSAGE, c, image)?;
            Ok(())
        }
        Err(r) => refused(page, input, input, of_packet(true), failed(r), 0),
    }
}
