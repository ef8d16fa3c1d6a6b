// A file, a packet or a row of values as one JSON document, as docs/JSON.md says.
use crate::form::{Kind, why_unknown};
use crate::tree::Tree;
use crate::wrong::{failed, in_element, not_right};
use amf0::read::parse_value;
use faults::fault::words;
use faults::field::{Spot, of_file, of_packet, of_value};
use figures::page::word;
use image::reading::Reading;
use image::record::Record;
use image::taking::record_at;
use index::make::make_index;
use std::io;
use std::io::Write;
use to_json::document;
use to_json::tree::tree;
use wire::answer::{ACCEPTED, Answer};
use wire::cursor::Cursor;
use wire::text::part;

// How deep the values of a list of the document stand.
const ITEM: usize = 2;
// How long a reason may be. It is far shorter (faults::fault::words).
const REASON: usize = 4096;

// Why and where is written by itself first, and quoted from there.
fn reason(page: &mut impl Write, input: &[u8], from: Spot, r: Reading) -> io::Result<()> {
    let mut said = io::Cursor::new([0u8; REASON]);
    words(&mut said, input, from, r)?;
    document::reason(page, part(said.get_ref(), 0, said.position() as usize))
}

// Too long an input is refused at no place.
fn refused(page: &mut impl Write, input: &[u8], from: Spot, r: Reading) -> io::Result<()> {
    document::refused(page, r.answer)?;
    if r.answer != u8::from(Answer::OverLimit) {
        document::place(page, b"place", r.used)?;
    }
    reason(page, input, from, r)
}

// A file's end that can't be read, from a place on.
fn unread(page: &mut impl Write, input: &[u8], image: &mut [u8], place: usize) -> io::Result<()> {
    let r = in_element(input, image, place);
    document::refused(page, r.answer)?;
    document::place(page, b"place", r.used)?;
    document::place(page, b"unreadFrom", place)?;
    reason(page, input, of_file(), r)
}

// Makes the index of a tree; None where it does not fit.
fn indexed<'a>(t: Tree, index: &'a mut [u8]) -> Option<&'a [u8]> {
    if make_index(t.image, t.text, index).answer == ACCEPTED {
        Some(index)
    } else {
        None
    }
}

// The index of a value takes twice its image's length at most; the rest of the buffer need not be cleared.
fn value(page: &mut impl Write, t: Tree, index: &mut [u8]) -> io::Result<()> {
    let room = index.len().min(t.image.len().saturating_mul(2));
    let made = indexed(t, &mut index[..room]);
    tree(page, t.text, t.image, made, ITEM)
}

fn pairs(page: &mut impl Write, t: Tree, index: &mut [u8]) -> io::Result<()> {
    let made = indexed(t, index);
    document::file(page, t.text, t.image, made)
}

fn file(page: &mut impl Write, input: &[u8], image: &mut [u8], index: &mut [u8]) -> io::Result<()> {
    document::begin(page, b"lso")?;
    let r = lso::read::parse_incomplete(input, image);
    if r.answer != ACCEPTED {
        return refused(page, input, of_file(), r);
    }
    pairs(page, Tree::of(input, image, r.made), index)?;
    if r.used < input.len() {
        unread(page, input, image, r.used)?;
    }
    Ok(())
}

// Where the value ends that begins at a cursor of a packet's image: at the next entry.
fn value_end(image: &[u8], start: Cursor) -> Cursor {
    let mut c = start;
    for _ in 0..image.len() {
        match record_at(image, c) {
            None | Some((Record::Header(..) | Record::Message(..), _)) => break,
            Some((_, next)) => c = next,
        }
    }
    c
}

fn head(page: &mut impl Write, text: &[u8], r: Record) -> io::Result<()> {
    match r {
        Record::Header(p, n, flag) => document::header(page, part(text, p, n), flag),
        Record::Message(p, n, q, m) => document::message(page, part(text, p, n), part(text, q, m)),
        _ => Ok(()),
    }
}

// The entry whose record stands at a cursor of a packet's image; returns where the next one does.
fn entry(
    page: &mut impl Write,
    t: Tree,
    index: &mut [u8],
    c: Cursor,
    first: bool,
) -> io::Result<Cursor> {
    let Some((r, d)) = record_at(t.image, c) else {
        return Ok(c);
    };
    let end = value_end(t.image, d);
    let image = part(t.image, d.at, end.at.saturating_sub(d.at));
    document::item(page, first)?;
    head(page, t.text, r)?;
    value(page, Tree { image, ..t }, index)?;
    word(page, b"}")?;
    Ok(end)
}

// A list of so many entries from a cursor on; returns the cursor behind them.
fn entries(
    page: &mut impl Write,
    t: Tree,
    index: &mut [u8],
    name: &[u8],
    count: u16,
    start: Cursor,
) -> io::Result<Cursor> {
    document::list(page, name)?;
    let mut c = start;
    for i in 0..count {
        c = entry(page, t, index, c, i == 0)?;
    }
    document::list_end(page, 0 < count)?;
    Ok(c)
}

fn lists(page: &mut impl Write, t: Tree, index: &mut [u8]) -> io::Result<()> {
    if let Some((Record::Packet(headers, messages), c)) = record_at(t.image, Cursor { at: 0 }) {
        let d = entries(page, t, index, b"headers", headers, c)?;
        entries(page, t, index, b"messages", messages, d)?;
    }
    Ok(())
}

fn packet(
    page: &mut impl Write,
    input: &[u8],
    image: &mut [u8],
    index: &mut [u8],
) -> io::Result<()> {
    document::begin(page, b"packet")?;
    let r = packet::read::parse_incomplete(input, image);
    if r.answer != ACCEPTED {
        return refused(page, input, of_packet(false), r);
    }
    lists(page, Tree::of(input, image, r.made), index)?;
    if r.used < input.len() {
        refused(page, input, of_packet(false), not_right(r.used))?;
    }
    Ok(())
}

// One value, and where the next one begins, where there is one and this is not refused.
fn one_of_values(
    page: &mut impl Write,
    input: &[u8],
    image: &mut [u8],
    index: &mut [u8],
    c: Cursor,
) -> io::Result<Option<Cursor>> {
    match parse_value(image, input, 0, c, 0) {
        Err(r) => {
            document::list_end(page, 0 < c.at)?;
            refused(page, input, of_value(c.at), failed(r))?;
            Ok(None)
        }
        Ok((next, made)) => {
            document::item(page, c.at == 0)?;
            value(page, Tree::of(input, image, made), index)?;
            if next.at < input.len() {
                return Ok(Some(next));
            }
            document::list_end(page, true)?;
            Ok(None)
        }
    }
}

// There is one value at least, and a value has a byte at least.
fn values(
    page: &mut impl Write,
    input: &[u8],
    image: &mut [u8],
    index: &mut [u8],
) -> io::Result<()> {
    document::begin(page, b"values")?;
    document::list(page, b"values")?;
    let mut next = one_of_values(page, input, image, index, Cursor { at: 0 })?;
    for _ in 0..input.len() {
        match next {
            Some(c) => next = one_of_values(page, input, image, index, c)?,
            None => break,
        }
    }
    Ok(())
}

// An input that is refused by its first bytes.
fn unknown(page: &mut impl Write, input: &[u8]) -> io::Result<()> {
    let (answer, why) = why_unknown(input);
    document::begin(page, b"unknown")?;
    document::refused(page, u8::from(answer))?;
    document::place(page, b"place", 0)?;
    document::reason(page, why.as_bytes())
}

// The index of each value is made in a buffer; where a value has more keys than there is room for, each of its objects is told as a list of its pairs.
pub fn as_json(
    page: &mut impl Write,
    kind: Option<Kind>,
    input: &[u8],
    image: &mut [u8],
    index: &mut [u8],
) -> io::Result<()> {
    match kind {
        Some(Kind::File) => file(page, input, image, index)?,
        Some(Kind::Packet) => packet(page, input, image, index)?,
        Some(Kind::Values) => values(page, input, image, index)?,
        None => unknown(page, input)?,
    }
    document::end(page)
}
