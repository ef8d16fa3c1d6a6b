// What is printed goes onto a page, which is written out where it is full, and at the end; any other writer does, too.
ghost use Rattle.std.specs.Prelude.{◌≤◌};

use crate::escape::{escape_of, point, width};
use std::io;
use std::io::Write;
use wire::text::part;

const SIZE: usize = 4096;

// The bytes that are still to be written out, and where they go then.
#[derive(Drop)]
pub struct Page<W> {
    bytes: [u8; SIZE],
    used: usize,
    to: W,
    ghost within: { used ≤ 4096 },
}

impl<W> Page<W> {
    pub fn onto(to: W) -> Page<W> {
        Page {
            bytes: [0; SIZE],
            used: 0,
            to: to,
        }
    }
}

impl<W: Write> Write for Page<W> {
    fn write(&mut self, buf: &[u8]) -> io::Result<usize> {
        if self.used == SIZE {
            self.to.write_all(&self.bytes)?;
            self.used = 0;
        }
        let left = SIZE - self.used;
        let n = buf.len().min(left);
        self.bytes[self.used..self.used + n].copy_from_slice(&buf[..n]);
        self.used += n;
        Ok(n)
    }

    fn flush(&mut self) -> io::Result<()> {
        self.to.write_all(&self.bytes[..self.used])?;
        self.used = 0;
        self.to.flush()
    }
}

// Writes out what is still on the page.
pub fn end(page: &mut impl Write) -> io::Result<()> {
    page.flush()
}

pub fn word(page: &mut impl Write, text: &[u8]) -> io::Result<()> {
    page.write_all(text)
}

pub fn decimal(page: &mut impl Write, n: u64) -> io::Result<()> {
    write!(page, "{n}")
}

// So many of a thing: `1 byte`, `12 bytes`.
pub fn amount(page: &mut impl Write, n: u64, thing: &[u8]) -> io::Result<()> {
    decimal(page, n)?;
    word(page, thing)?;
    if n != 1 {
        word(page, b"s")?;
    }
    Ok(())
}

pub fn spaces(page: &mut impl Write, n: usize) -> io::Result<()> {
    for _ in 0..n {
        word(page, b" ")?;
    }
    Ok(())
}

// A character, by its bytes.
fn character(page: &mut impl Write, c: &[u8]) -> io::Result<()> {
    match escape_of(point(c)) {
        None => word(page, c),
        Some(e) => write!(page, "{e}"),
    }
}

// A text by itself, for the middle of a quoted one. No text that was read ends in the middle of a character.
pub fn characters(page: &mut impl Write, text: &[u8]) -> io::Result<()> {
    let mut rest = text;
    while let Some(first) = rest.first() {
        let Some((c, behind)) = rest.split_at_checked(width(*first)) else {
            return Ok(());
        };
        character(page, c)?;
        rest = behind;
    }
    Ok(())
}

// A text between quotes, as JSON has it.
pub fn quoted(page: &mut impl Write, text: &[u8]) -> io::Result<()> {
    word(page, b"\"")?;
    characters(page, text)?;
    word(page, b"\"")
}

// A text of the input between quotes, and its place.
pub fn placed(page: &mut impl Write, input: &[u8], place: usize, length: usize) -> io::Result<()> {
    quoted(page, part(input, place, length))?;
    write!(page, " @{place}")
}
