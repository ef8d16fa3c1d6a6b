// The bytes round a place, in hex: two lines of sixteen, and a mark under the byte.
use figures::page::spaces;
use std::io::Write;
use std::{fmt, io};

// Bytes a line, and where on it the second half begins.
const LINE: usize = 16;

const HALF: usize = 8;
// How far in a line its first byte stands: behind two spaces, its place, in the six digits of 1,048,576, and two spaces.
const FIRST: usize = 10;

// A line: its place, the bytes there, and the letters that they are.
#[derive(Clone, Copy)]
struct Line<'a> {
    place: usize,
    row: &'a [u8],
}

fn letter(b: u8) -> char {
    match b {
        0x20..=0x7E => b as char,
        _ => '.',
    }
}

impl fmt::Display for Line<'_> {
    fn fmt<W: fmt::Write>(&self, f: &mut fmt::Formatter<W>) -> fmt::Result {
        write!(f, "  {:06X}", self.place)?;
        if self.row.is_empty() {
            return Ok(());
        }
        f.write_str(" ")?;
        for b in self.row {
            write!(f, " {b:02X}")?;
        }
        for _ in self.row.len()..LINE {
            f.write_str("   ")?;
        }
        f.write_str("  ")?;
        for b in self.row {
            f.write_char(letter(*b))?;
        }
        Ok(())
    }
}

fn line_at(page: &mut impl Write, input: &[u8], place: usize, indent: usize) -> io::Result<()> {
    let behind = input.get(place..).unwrap_or(&[]);
    let row = &behind[..behind.len().min(LINE)];
    spaces(page, indent)?;
    writeln!(page, "{}", Line { place, row })
}

// Under the byte of a line.
fn mark(page: &mut impl Write, column: usize, indent: usize) -> io::Result<()> {
    spaces(page, indent)?;
    spaces(page, FIRST + 3 * (column % LINE))?;
    writeln!(page, "^^")
}

// The second line is the one behind where the place is in the second half of its own, or on the first line; but not where there is none.
pub(crate) fn around(
    page: &mut impl Write,
    input: &[u8],
    place: usize,
    indent: usize,
) -> io::Result<()> {
    let column = place % LINE;
    let line = place - column;
    let ahead = (line < LINE || HALF <= column) && LINE < input.len().saturating_sub(line);
    if !ahead && LINE <= line {
        line_at(page, input, line - LINE, indent)?;
    }
    line_at(page, input, line, indent)?;
    mark(page, column, indent)?;
    if ahead {
        line_at(page, input, line + LINE, indent)?;
    }
    Ok(())
}
