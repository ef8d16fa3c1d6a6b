// What a line is made of.
ghost use Rattle.std.specs.Prelude.{◌≤◌, ◌≡◌, length, IfOk, OnErr};

use std::io;
use std::io::Write;

pub fn word(lines: &mut impl Write, text: &[u8]) -> io::Result<()> {
    lines.write_all(text)
}

fn digit(n: u8) -> u8 {
    if n < 10 { 48 + n } else { 87 + n % 16 }
}

// Puts a byte's two digits behind the text, which is printed first where it is full.
fn push(lines: &mut impl Write, text: &mut [u8], used: usize, b: u8) -> io::Result<usize>
    requires { (used ≤ 8192) × (length text.old ≡ 8192) }
    ensures used { IfOk result (λ n. n ≤ 8192) }
    ensures left { OnErr result (text.new ≡ text.old) }
{
    if used < 8191 {
        text[used] = digit(b / 16);
        text[used + 1] = digit(b % 16);
        return Ok(used + 2);
    }
    word(lines, text)?;
    text[0] = digit(b / 16);
    text[1] = digit(b % 16);
    Ok(2)
}

// A row of bytes in hex.
pub fn row(lines: &mut impl Write, bytes: &[u8]) -> io::Result<()> {
    if bytes.is_empty() {
        return word(lines, b"-");
    }
    let mut text = [0u8; 8192];
    let mut used: usize = 0;
    for b in bytes {
        used = push(lines, &mut text, used, *b)?;
    }
    word(lines, &text[..used])
}
