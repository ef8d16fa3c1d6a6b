// Values one behind the other, as RTMP commands and the script tags of FLV have them.
use crate::tree::Tree;
use crate::wrong::failed;
use amf0::read::parse_value;
use faults::fault::refused;
use faults::field::of_value;
use std::io;
use std::io::Write;
use wire::cursor::Cursor;

// The value at a place, below a line with its number, from 0, and its place; and where the next one begins. Behind one that is refused nothing is read.
fn one_of(
    page: &mut impl Write,
    input: &[u8],
    image: &mut [u8],
    number: usize,
    c: Cursor,
) -> io::Result<Option<Cursor>> {
    let at = c.at;
    writeln!(page, "value {number} @{at}")?;
    match parse_value(image, input, 0, c, 0) {
        Err(r) => {
            refused(page, input, input, of_value(at), failed(r), 2)?;
            Ok(None)
        }
        Ok((next, made)) => {
            Tree::of(input, image, made).show(page, 1)?;
            Ok(Some(next))
        }
    }
}

// A value has one byte at least.
fn row(page: &mut impl Write, input: &[u8], image: &mut [u8]) -> io::Result<()> {
    let mut next = Some(Cursor { at: 0 });
    for number in 0..input.len() {
        match next {
            Some(c) if c.at < input.len() => next = one_of(page, input, image, number, c)?,
            _ => break,
        }
    }
    Ok(())
}

// A lone value is shown by itself, and of more each below a line of its own.
pub fn values(page: &mut impl Write, input: &[u8], image: &mut [u8]) -> io::Result<()> {
    match parse_value(image, input, 0, Cursor { at: 0 }, 0) {
        Err(r) => refused(page, input, input, of_value(0), failed(r), 0),
        Ok((c, _)) if c.at < input.len() => row(page, input, image),
        Ok((_, made)) => Tree::of(input, image, made).show(page, 0),
    }
}
