// Values that hold no other. What JSON has no word for is an object, whose members have names that begin with `$`.
ghost use Rattle.std.specs.Prelude.{◌≡◌};
ghost use Rattle.to_json.specs.Words.{is_special, is_nan, is_word};

use figures::date::{Zone, is_of_calendar, iso};
use figures::double::{Bits, number};
use figures::page::{characters, quoted, word};
use image::record::Record;
use std::io;
use std::io::Write;
use wire::text::part;

const NEGATIVE_ZERO: u64 = 0x8000_0000_0000_0000;
// The numbers from one exponent to the next.
const FRACTIONS: u64 = 0x10_0000_0000_0000;
// The exponents, and the one of what is not finite.
const EXPONENTS: u64 = 2048;

const NOT_FINITE: u64 = 2047;

// Whether a number is not finite, or -0, which many readers of JSON take for 0.
#[tactic(auto, unfolding(crate::specs::Words::is_special))]
fn is_special(bits: u64) -> bool
    ensures { result ≡ is_special bits }
{
    bits == NEGATIVE_ZERO || bits / FRACTIONS % EXPONENTS == NOT_FINITE
}

#[tactic(auto, unfolding(crate::specs::Words::is_nan))]
fn is_nan(bits: u64) -> bool
    ensures { result ≡ is_nan bits }
{
    bits % FRACTIONS != 0 && bits / FRACTIONS % EXPONENTS == NOT_FINITE
}

// There are many NaNs: so the bits say which.
fn special(page: &mut impl Write, bits: u64) -> io::Result<()> {
    write!(page, "{{\"$number\": \"{}\"", Bits(bits))?;
    if is_nan(bits) {
        write!(page, ", \"$bits\": \"{bits:016x}\"")?;
    }
    word(page, b"}")
}

fn double(page: &mut impl Write, bits: u64) -> io::Result<()> {
    if is_special(bits) {
        special(page, bits)
    } else {
        number(page, bits)
    }
}

fn date(page: &mut impl Write, bits: u64, zone: Option<u16>) -> io::Result<()> {
    word(page, b"{\"$date\": ")?;
    double(page, bits)?;
    if let Some(zone) = zone {
        write!(page, ", \"$zone\": {}", Zone(zone))?;
    }
    if is_of_calendar(bits) {
        word(page, b", \"$iso\": \"")?;
        iso(page, bits)?;
        word(page, b"\"")?;
    }
    word(page, b"}")
}

// Whether a key begins with `$`, as the words of docs/JSON.md do.
#[tactic(auto, unfolding(crate::specs::Words::is_word))]
fn is_word(key: &[u8]) -> bool
    ensures { result ≡ is_word key.now }
{
    key.first() == Some(&b'$')
}

// A key as the name of a member: one that begins with `$` gets another in front.
pub(crate) fn name(page: &mut impl Write, key: &[u8]) -> io::Result<()> {
    if is_word(key) {
        word(page, b"\"$")?;
        characters(page, key)?;
        word(page, b"\"")
    } else {
        quoted(page, key)
    }
}

pub(crate) fn leaf(page: &mut impl Write, text: &[u8], r: Record) -> io::Result<()> {
    match r {
        Record::Number(bits) => double(page, bits),
        Record::Boolean(b) => write!(page, "{b}"),
        Record::Text(p, n) => quoted(page, part(text, p, n)),
        Record::Undefined => word(page, b"{\"$undefined\": true}"),
        Record::Reference(n) => write!(page, "{{\"$reference\": {n}}}"),
        Record::Date(bits, present, zone) => date(page, bits, present.then_some(zone)),
        Record::Unsupported => word(page, b"{\"$unsupported\": true}"),
        Record::Xml(p, n) => {
            word(page, b"{\"$xml\": ")?;
            quoted(page, part(text, p, n))?;
            word(page, b"}")
        }
        _ => word(page, b"null"),
    }
}
