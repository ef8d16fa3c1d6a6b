// The document: one object, whose members are told one behind another. `begin` and `end` are round them.
use crate::tree::body;
use figures::page::{quoted, word};
use image::record::Record;
use image::taking::record_at;
use std::io;
use std::io::Write;
use wire::cursor::Cursor;
use wire::text::part;

// The first member says what the input was read as.
pub fn begin(page: &mut impl Write, form: &[u8]) -> io::Result<()> {
    word(page, b"{\n  \"form\": ")?;
    quoted(page, form)
}

pub fn end(page: &mut impl Write) -> io::Result<()> {
    word(page, b"\n}\n")
}

fn file_head(page: &mut impl Write, stored: u32, name: &[u8]) -> io::Result<()> {
    word(page, b",\n  \"name\": ")?;
    quoted(page, name)?;
    write!(page, ",\n  \"storedLength\": {stored},\n  \"body\": ")
}

// A file, whose image this is, with its index, as in `tree`.
pub fn file(
    page: &mut impl Write,
    text: &[u8],
    image: &[u8],
    index: Option<&[u8]>,
) -> io::Result<()> {
    if let Some((Record::Lso(stored, p, n), c)) = record_at(image, Cursor { at: 0 }) {
        file_head(page, stored, part(text, p, n))?;
        body(page, text, image, index, c.at)?;
    }
    Ok(())
}

// A list of the document, up to its first item.
pub fn list(page: &mut impl Write, name: &[u8]) -> io::Result<()> {
    word(page, b",\n  ")?;
    quoted(page, name)?;
    word(page, b": [")
}

// The end of a list, in which there are items or none.
pub fn list_end(page: &mut impl Write, items: bool) -> io::Result<()> {
    if items {
        word(page, b"\n  ")?;
    }
    word(page, b"]")
}

// The line of an item, the first or another. A value that is one, or ends one, is of depth 2.
pub fn item(page: &mut impl Write, first: bool) -> io::Result<()> {
    if !first {
        word(page, b",")?;
    }
    word(page, b"\n    ")
}

// A header and a message, up to the value; `}` is behind it.
pub fn header(page: &mut impl Write, name: &[u8], flag: bool) -> io::Result<()> {
    word(page, b"{\"name\": ")?;
    quoted(page, name)?;
    write!(page, ", \"mustUnderstand\": {flag}, \"value\": ")
}

pub fn message(page: &mut impl Write, target: &[u8], response: &[u8]) -> io::Result<()> {
    word(page, b"{\"target\": ")?;
    quoted(page, target)?;
    word(page, b", \"response\": ")?;
    quoted(page, response)?;
    word(page, b", \"value\": ")
}

// A refusal of all of the input, or of what stands behind the members before it: the reading's answer, then places, and last the reason.
pub fn refused(page: &mut impl Write, answer: u8) -> io::Result<()> {
    write!(page, ",\n  \"refused\": {{\"answer\": {answer}")
}

pub fn place(page: &mut impl Write, name: &[u8], at: usize) -> io::Result<()> {
    word(page, b", ")?;
    quoted(page, name)?;
    write!(page, ": {at}")
}

pub fn reason(page: &mut impl Write, why: &[u8]) -> io::Result<()> {
    word(page, b", \"reason\": ")?;
    quoted(page, why)?;
    word(page, b"}")
}
