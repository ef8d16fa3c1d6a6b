// Where a field stands, in words: `in the value of "cents" of "A-01"`.
use crate::field::{Field, FileField, Level, Levels, Named, PacketField, Part, Spot};
use figures::page::quoted;
use std::io;
use std::io::Write;
use wire::cursor::Span;
use wire::text::part;

// A longer text is cut: so many bytes of it are shown.
const LONGEST: usize = 40;
// Of a longer way the innermost levels are told, and the outermost.
const INNERMOST: usize = 4;

// A field of an input, and the way to it.
#[derive(Clone, Copy)]
pub(crate) struct Way<'a> {
    pub(crate) input: &'a [u8],
    pub(crate) levels: Levels,
    pub(crate) spot: Spot,
}

// What a field is in.
#[derive(Clone, Copy, Debug, PartialEq, Eq)]
enum Within {
    // What the words say: there is one alone, or it is nothing to tell.
    One(&'static str),
    // A part of what the innermost level leads to.
    Part(&'static str),
    Key,
    Value,
}

impl Named {
    fn within(self) -> Within {
        match self {
            Named::FileName => Within::One(", in the file's name"),
            Named::Key => Within::Key,
            Named::Content => Within::Value,
            Named::ClassName => Within::Part(", in the class name"),
            Named::HeaderName => Within::Part(", in the name"),
            Named::Target => Within::Part(", in the target"),
            Named::Response => Within::Part(", in the response"),
        }
    }
}

impl Field {
    fn within(self) -> Within {
        match self {
            Field::OfFile(FileField::Beginning) => Within::One(""),
            Field::OfFile(FileField::Closing) => Within::Part(", behind the value"),
            Field::OfFile(_) => Within::One(", in the file's header"),
            Field::OfPacket(PacketField::Flag) => Within::Part(", in the flag"),
            Field::OfPacket(PacketField::Declared) => Within::Part(", in the length"),
            Field::OfPacket(_) => Within::One(""),
            Field::OfValue(_) => Within::Value,
            Field::Length(text) | Field::Text(text) => text.within(),
            Field::Rest => Within::One(""),
        }
    }
}

fn goes_on(b: u8) -> bool {
    matches!(b, 0x80..=0xBF)
}

// No character is cut: one has at most three bytes behind its first.
fn shortened(page: &mut impl Write, text: &[u8]) -> io::Result<()> {
    if text.len() <= LONGEST {
        return quoted(page, text);
    }
    let end = text[..=LONGEST].iter().rposition(|b| !goes_on(*b));
    quoted(page, part(text, 0, end.unwrap_or(0)))?;
    write!(page, "..")
}

impl Way<'_> {
    fn text(&self, page: &mut impl Write, text: Span) -> io::Result<()> {
        shortened(page, part(self.input, text.place, text.length))
    }

    // The key of a level, or the number of a value in a strict array.
    fn level(&self, page: &mut impl Write, depth: usize) -> io::Result<()> {
        match self.levels.at(depth) {
            Level::Key(Some(key)) => self.text(page, key),
            Level::Key(None) => quoted(page, b""),
            Level::Value(item) => write!(page, "item {}", item.number),
        }
    }

    // The name of a header or the target of a message, once it is read.
    fn name(&self, page: &mut impl Write, before: &str) -> io::Result<()> {
        if let Level::Key(Some(name)) = self.levels.at(0) {
            write!(page, "{before}")?;
            self.text(page, name)?;
        }
        Ok(())
    }

    // What stands on level 0: a key of a file, a header or a message.
    fn outermost(&self, page: &mut impl Write) -> io::Result<()> {
        match self.spot.part {
            Part::File => self.level(page, 0),
            Part::Header(item) => {
                write!(page, "header {}", item.number)?;
                self.name(page, " ")
            }
            Part::Message(item) => {
                write!(page, "message {}", item.number)?;
                self.name(page, " to ")
            }
            Part::Packet | Part::Entry | Part::Value => Ok(()),
        }
    }

    // The levels up from one: ` of "cents" of "A-01"`.
    fn of_levels(&self, page: &mut impl Write, from: usize) -> io::Result<()> {
        for depth in (1..=from).rev().take(INNERMOST) {
            write!(page, " of ")?;
            self.level(page, depth)?;
        }
        if INNERMOST < from {
            write!(page, " of ..")?;
        }
        if !self.spot.part.is_alone() {
            write!(page, " of ")?;
            self.outermost(page)?;
        }
        Ok(())
    }

    fn in_part(&self, page: &mut impl Write, what: &str) -> io::Result<()> {
        write!(page, "{what}")?;
        self.of_levels(page, self.spot.depth)
    }

    // The value that the innermost level leads to; of one by itself there is nothing to tell.
    fn in_value(&self, page: &mut impl Write) -> io::Result<()> {
        if 0 < self.spot.depth || !self.spot.part.is_alone() {
            self.in_part(page, ", in the value")?;
        }
        Ok(())
    }

    // A key is told by the one before it in its container, and by the levels round that.
    fn in_key(&self, page: &mut impl Write) -> io::Result<()> {
        match self.levels.at(self.spot.depth) {
            Level::Key(None) => write!(page, ", in the first key")?,
            _ => {
                write!(page, ", in the key behind ")?;
                self.level(page, self.spot.depth)?;
            }
        }
        match self.spot.depth.checked_sub(1) {
            Some(outer) => self.of_levels(page, outer),
            None => Ok(()),
        }
    }

    // Where the field is.
    pub(crate) fn place(&self, page: &mut impl Write) -> io::Result<()> {
        match self.spot.field.within() {
            Within::One(words) => write!(page, "{words}"),
            Within::Part(words) => self.in_part(page, words),
            Within::Key => self.in_key(page),
            Within::Value => self.in_value(page),
        }
    }
}
