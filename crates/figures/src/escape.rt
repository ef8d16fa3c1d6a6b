// The characters of a text, and how each goes out: as it stands, or escaped as in JSON.
ghost use Rattle.std.specs.Prelude.{◌≡◌, ◌+◌, ◌-◌, ◌*◌, ◌/◌, ◌%◌, ◌≤◌, ◌<◌};
ghost use Rattle.figures.specs.Escape.{hidden, within, escape_of, point_of};

use std::fmt;

// The first and the last of each range of characters that people don't see, or can't tell from something else; specs/Escape.antt says which.
const HIDDEN: [[u32; 2]; 35] = [
    [0x00, 0x1F],
    [0x7F, 0xA0],
    [0xAD, 0xAD],
    [0x034F, 0x034F],
    [0x0600, 0x0605],
    [0x061C, 0x061C],
    [0x06DD, 0x06DD],
    [0x070F, 0x070F],
    [0x0890, 0x0891],
    [0x08E2, 0x08E2],
    [0x115F, 0x1160],
    [0x1680, 0x1680],
    [0x17B4, 0x17B5],
    [0x180B, 0x180F],
    [0x2000, 0x200F],
    [0x2028, 0x202F],
    [0x205F, 0x206F],
    [0x2800, 0x2800],
    [0x3000, 0x3000],
    [0x3164, 0x3164],
    [0xD800, 0xF8FF],
    [0xFDD0, 0xFDEF],
    [0xFE00, 0xFE0F],
    [0xFEFF, 0xFEFF],
    [0xFFA0, 0xFFA0],
    [0xFFF0, 0xFFFB],
    [0xFFFE, 0xFFFF],
    [0x1_10BD, 0x1_10BD],
    [0x1_10CD, 0x1_10CD],
    [0x1_3430, 0x1_343F],
    [0x1_BCA0, 0x1_BCA3],
    [0x1_D173, 0x1_D17A],
    [0x1_FFFE, 0x1_FFFF],
    [0x2_FFFE, 0x2_FFFF],
    [0x3_FFFE, 0x10_FFFF],
];

#[tactic(auto, unfolding(crate::specs::Escape::within))]
fn is_hidden(p: u32) -> bool
    ensures { result ≡ within hidden p }
{
    for [low, high] in HIDDEN {
        if p < low {
            return false;
        }
        if p <= high {
            return true;
        }
    }
    false
}

// How a character goes out that doesn't as it stands.
#[derive(Clone, Copy, PartialEq, Eq, Debug)]
pub(crate) enum Escape {
    // A letter behind the backslash.
    Letter(char),
    // The character's number.
    Number(u32),
}

// The escape of a character, as in JSON, or None where it goes out as it stands.
#[tactic(auto, unfolding(crate::specs::Escape::escape_of))]
pub(crate) fn escape_of(p: u32) -> Option<Escape>
    ensures { result ≡ escape_of p }
{
    match p {
        0x09 => Some(Escape::Letter('t')),
        0x0A => Some(Escape::Letter('n')),
        0x0D => Some(Escape::Letter('r')),
        0x22 => Some(Escape::Letter('"')),
        0x5C => Some(Escape::Letter('\\')),
        _ if is_hidden(p) => Some(Escape::Number(p)),
        _ => None,
    }
}

// How many bytes a character has, as its first byte says.
pub fn width(first: u8) -> usize
    ensures { (0 < result) × (result ≤ 4) }
{
    match first {
        0..=0x7F => 1,
        0x80..=0xDF => 2,
        0xE0..=0xEF => 3,
        _ => 4,
    }
}

// The number of a character of two, three or four bytes.
fn of_two(a: u8, b: u8) -> u32
    ensures { result ≡ a % 32 * 64 + b % 64 }
{
    u32::from(a % 32) * 64 + u32::from(b % 64)
}

fn of_three(a: u8, b: u8, c: u8) -> u32
    ensures { result ≡ (a % 16 * 64 + b % 64) * 64 + c % 64 }
{
    (u32::from(a % 16) * 64 + u32::from(b % 64)) * 64 + u32::from(c % 64)
}

fn of_four(a: u8, b: u8, c: u8, d: u8) -> u32
    ensures { result ≡ ((a % 8 * 64 + b % 64) * 64 + c % 64) * 64 + d % 64 }
{
    ((u32::from(a % 8) * 64 + u32::from(b % 64)) * 64 + u32::from(c % 64)) * 64 + u32::from(d % 64)
}

// The number of a character, from its bytes.
#[tactic(auto, unfolding(crate::specs::Escape::point_of))]
pub(crate) fn point(c: &[u8]) -> u32
    ensures { result ≡ point_of c.now }
{
    match c {
        [] => 0,
        [a, b] => of_two(*a, *b),
        [a, b, c] => of_three(*a, *b, *c),
        [a, b, c, d] => of_four(*a, *b, *c, *d),
        [a, ..] => u32::from(*a),
    }
}

// The two halves, in UTF-16, of a character above U+FFFF.
pub(crate) fn high_half(p: u32) -> u32
    requires { 0x10000 ≤ p }
    ensures { result ≡ 0xD800 + (p - 0x10000) / 0x400 % 0x400 }
{
    0xD800 + (p - 0x1_0000) / 0x400 % 0x400
}

pub(crate) fn low_half(p: u32) -> u32
    ensures { result ≡ 0xDC00 + p % 0x400 }
{
    0xDC00 + p % 0x400
}

impl fmt::Display for Escape {
    fn fmt<W: fmt::Write>(&self, f: &mut fmt::Formatter<W>) -> fmt::Result {
        match *self {
            Escape::Letter(letter) => write!(f, "\\{letter}"),
            Escape::Number(p) if p < 0x1_0000 => write!(f, "\\u{p:04x}"),
            Escape::Number(p) => write!(f, "\\u{:04x}\\u{:04x}", high_half(p), low_half(p)),
        }
    }
}
