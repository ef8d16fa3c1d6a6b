// A refusal as lines: its place, why and where, its answer, and the bytes there.
use crate::due::due;
use crate::field::{Field, Spot};
use crate::hex::around;
use crate::refusal::{Reason, refusal};
use crate::way::Way;
use figures::page::{amount, spaces, word};
use image::reading::Reading;
use std::io::Write;
use std::{fmt, io};
use wire::answer::Answer;
use wire::text::part;

// A place, as people count and as hex editors do.
#[derive(Clone, Copy)]
struct Place(usize);

impl fmt::Display for Place {
    fn fmt<W: fmt::Write>(&self, f: &mut fmt::Formatter<W>) -> fmt::Result {
        let place = self.0;
        write!(f, "byte {place} (0x{place:X})")
    }
}

// The beginning of a refusal's line.
fn at_byte(page: &mut impl Write, place: usize, indent: usize) -> io::Result<()> {
    spaces(page, indent)?;
    write!(page, "refused at {}: ", Place(place))
}

// The end of it.
fn with_answer(page: &mut impl Write, answer: u8) -> io::Result<()> {
    writeln!(page, " (answer {answer})")
}

// Why and where, or the answer's general words where the walk has come to no field there.
fn why(page: &mut impl Write, way: Option<Way<'_>>, r: Reading) -> io::Result<()> {
    let answer = Answer::try_from(r.answer).ok();
    match way {
        Some(way) if way.spot.at == r.used => {
            way.cause(page, answer)?;
            way.place(page)
        }
        _ => write!(page, "{}", Reason(answer)),
    }
}

// The whole reading of a file is refused where its first element that can't be read begins, whatever is wrong in it.
pub fn not_read(page: &mut impl Write, place: usize, length: usize) -> io::Result<()> {
    write!(
        page,
        "the first element not read begins at {}; left over: ",
        Place(place)
    )?;
    amount(page, length as u64, b" byte")?;
    writeln!(page)
}

// A text is refused at its first byte: this says which one is wrong, where that is another.
fn broken_text(page: &mut impl Write, way: Way<'_>, indent: usize) -> io::Result<()> {
    let Spot {
        at,
        field,
        size,
        ..
    } = way.spot;
    let text = part(way.input, at, size);
    if let (Field::Text(_), Err(e)) = (field, str::from_utf8(text)) {
        let sound = e.valid_up_to();
        if 0 < sound {
            spaces(page, indent)?;
            writeln!(page, "the text breaks at {}", Place(at + sound))?;
        }
    }
    Ok(())
}

// A refused reading of an input, which began at a spot and had a part of it: why and where, and the bytes there. Too long an input is refused at no place.
// Each caller has these six from elsewhere: a struct would be filled at a call only to be taken apart here.
pub fn refused(
    page: &mut impl Write,
    input: &[u8],
    read: &[u8],
    from: Spot,
    r: Reading,
    indent: usize,
) -> io::Result<()> {
    if Answer::try_from(r.answer) == Ok(Answer::OverLimit) {
        return refusal(page, r.answer);
    }
    let way = due(read, from, r.used);
    at_byte(page, r.used, indent)?;
    why(page, way, r)?;
    with_answer(page, r.answer)?;
    around(page, input, r.used, indent)?;
    match way {
        Some(way) => broken_text(page, way, indent),
        None => Ok(()),
    }
}

// An input that is refused by its first bytes, whatever is behind them.
pub fn refused_front(
    page: &mut impl Write,
    input: &[u8],
    why: &[u8],
    answer: u8,
) -> io::Result<()> {
    at_byte(page, 0, 0)?;
    word(page, why)?;
    with_answer(page, answer)?;
    around(page, input, 0, 0)
}

// Why and where alone, for a program that has lines of its own. It is far shorter than a page: six texts at most are told, and 40 bytes of each.
pub fn words(page: &mut impl Write, read: &[u8], from: Spot, r: Reading) -> io::Result<()> {
    let answer = Answer::try_from(r.answer).ok();
    if answer == Some(Answer::OverLimit) {
        write!(page, "{}", Reason(answer))
    } else {
        why(page, due(read, from, r.used), r)
    }
}
