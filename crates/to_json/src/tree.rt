// A value's image as JSON, each pair and each item on a line of its own, indented by the containers that it stands in.
use crate::leaf::{leaf, name};
use crate::shape::{Form, Level, Printer, Stage};
use figures::page::{quoted, word};
use image::record::Record;
use image::taking::record_at;
use std::io;
use std::io::Write;
use wire::cursor::Cursor;
use wire::text::part;

impl<W: Write> Printer<'_, W> {
    // Before a value that stands in an object: behind its key nothing, else the list of values without a key, or a line of that.
    fn before_pair(&mut self) -> io::Result<()> {
        match self.walk.stage() {
            Stage::Filled => Ok(()),
            Stage::Keyless => self.item(true, Stage::Keyless),
            Stage::Empty | Stage::Words => {
                self.list_word(b"\"$keyless\"")?;
                self.item(false, Stage::Keyless)
            }
        }
    }

    fn before_value(&mut self) -> io::Result<()> {
        match self.walk.form() {
            Form::Top => Ok(()),
            Form::List => {
                let comma = self.walk.stage() == Stage::Filled;
                self.item(comma, Stage::Filled)
            }
            Form::Object | Form::Pairs => self.before_pair(),
        }
    }

    // A key, and what its value stands behind.
    fn listed_key(&mut self, key: &[u8]) -> io::Result<()> {
        let filled = self.walk.stage() == Stage::Filled;
        if !filled {
            self.list_word(b"\"$pairs\"")?;
        }
        self.item(filled, Stage::Filled)?;
        word(self.page, b"[")?;
        quoted(self.page, key)?;
        word(self.page, b", ")
    }

    fn member(&mut self, key: &[u8]) -> io::Result<()> {
        let comma = self.walk.stage() != Stage::Empty;
        self.item(comma, Stage::Filled)?;
        name(self.page, key)?;
        word(self.page, b": ")
    }

    fn key(&mut self, key: &[u8]) -> io::Result<()> {
        self.keyless_ended()?;
        if self.walk.form() == Form::Pairs {
            self.listed_key(key)
        } else {
            self.member(key)
        }
    }

    // Into the object whose record stands at a place.
    fn enter(&mut self, place: usize, stage: Stage) {
        let form = if self.is_listed(place) {
            Form::Pairs
        } else {
            Form::Object
        };
        self.walk.open(Level {
            form,
            stage,
            left: 0,
        });
    }

    fn list(&mut self, count: u32) -> io::Result<()> {
        word(self.page, b"[")?;
        if count == 0 {
            word(self.page, b"]")?;
            return self.ended();
        }
        self.walk.open(Level {
            form: Form::List,
            stage: Stage::Empty,
            left: count,
        });
        Ok(())
    }

    // A value, whose record stands at a place.
    fn value(&mut self, place: usize, r: Record) -> io::Result<()> {
        match r {
            Record::Object => {
                word(self.page, b"{")?;
                self.enter(place, Stage::Empty);
                Ok(())
            }
            Record::EcmaArray(n) => {
                write!(self.page, "{{\"$ecmaArray\": {n}")?;
                self.enter(place, Stage::Words);
                Ok(())
            }
            Record::TypedObject(p, n) => {
                word(self.page, b"{\"$class\": ")?;
                quoted(self.page, part(self.text, p, n))?;
                self.enter(place, Stage::Words);
                Ok(())
            }
            Record::StrictArray(n) => self.list(n),
            _ => {
                leaf(self.page, self.text, r)?;
                self.ended()
            }
        }
    }

    // One record: a key, the end of an object, or a value.
    fn record(&mut self, place: usize, r: Record) -> io::Result<()> {
        match r {
            Record::Key(p, n) => self.key(part(self.text, p, n)),
            Record::ObjectEnd => self.closed(),
            _ => {
                self.before_value()?;
                self.value(place, r)
            }
        }
    }

    // The records of the image from a place on. A record has one byte at least.
    fn records(&mut self, place: usize) -> io::Result<()> {
        let mut at = place;
        for _ in 0..self.image.len() {
            let Some((r, next)) = record_at(self.image, Cursor { at }) else {
                break;
            };
            self.record(at, r)?;
            at = next.at;
        }
        Ok(())
    }
}

// One value, whose image this is, with its index; where there is none, each of its objects is told as a list of its pairs. Its last line is
// indented by a depth.
pub fn tree(
    page: &mut impl Write,
    text: &[u8],
    image: &[u8],
    index: Option<&[u8]>,
    depth: usize,
) -> io::Result<()> {
    Printer::onto(page, text, image, index, depth).records(0)
}

// The pairs of a file behind its record, as those of an object.
pub(crate) fn body(
    page: &mut impl Write,
    text: &[u8],
    image: &[u8],
    index: Option<&[u8]>,
    place: usize,
) -> io::Result<()> {
    let mut printer = Printer::onto(page, text, image, index, 1);
    word(printer.page, b"{")?;
    printer.enter(0, Stage::Empty);
    printer.records(place)?;
    printer.closed()
}
