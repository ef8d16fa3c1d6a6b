// A tree image as lines: a value a line, indented by the containers that it stands in.
use figures::date::date;
use figures::double::number;
use figures::page::{amount, placed, quoted, spaces, word};
use image::record::Record;
use image::taking::record_at;
use std::io;
use std::io::Write;
use wire::cursor::Cursor;
use wire::text::part;

// More levels than lines have: 32 of values, and those that they stand in.
const LEVELS: usize = 40;

const OUTSIDE: Level = Level { count: 0, left: 0 };

// A container: of a strict array how many values it has and how many of them are still to come, and 0 of any other.
#[derive(Clone, Copy)]
struct Level {
    count: u32,
    left: u32,
}

// An image, and the text that its texts stand in.
#[derive(Clone, Copy)]
pub struct Tree<'a> {
    pub text: &'a [u8],
    pub image: &'a [u8],
}

// The containers that a walk is in, and how many they are.
#[derive(Clone, Copy)]
struct Walk {
    depth: usize,
    levels: [Level; LEVELS],
}

// Prints a tree onto a page. It is keyed where the line has begun with the key of the next value.
#[derive(Drop)]
struct Printer<'a, W> {
    page: &'a mut W,
    tree: Tree<'a>,
    walk: Walk,
    keyed: bool,
}

impl Level {
    // The number of the next value in a strict array, from 0.
    fn number(self) -> Option<u32> {
        if self.left == 0 {
            None
        } else {
            Some(self.count.saturating_sub(self.left))
        }
    }
}

impl Walk {
    fn at(depth: usize) -> Walk {
        Walk {
            depth,
            levels: [OUTSIDE; LEVELS],
        }
    }

    fn level(&self) -> Level {
        self.levels.get(self.depth).copied().unwrap_or(OUTSIDE)
    }

    // Goes into a container: a strict array of so many values, or 0 for any other.
    fn open(&mut self, count: u32) {
        if self.depth < LEVELS - 1 {
            self.depth += 1;
            self.levels[self.depth] = Level { count, left: count };
        }
    }

    // One of the values that are to come has come.
    fn count_down(&mut self) {
        if let Some(level) = self.levels.get_mut(self.depth) {
            level.left = level.left.saturating_sub(1);
        }
    }

    // A value has ended: the strict arrays of which it is the last end with it.
    fn end(&mut self) {
        for _ in 0..self.depth {
            if self.level().left != 1 {
                break;
            }
            self.depth = self.depth.saturating_sub(1);
        }
        self.count_down();
    }

    // The end marker of a container.
    fn close(&mut self) {
        self.depth = self.depth.saturating_sub(1);
        self.end();
    }

    // Goes behind a value's record.
    fn pass(&mut self, r: Record) {
        match r {
            Record::Object | Record::EcmaArray(_) | Record::TypedObject(_, _) => self.open(0),
            Record::StrictArray(n) if 0 < n => self.open(n),
            _ => self.end(),
        }
    }
}

impl<'a, W> Printer<'a, W> {
    fn onto(page: &'a mut W, tree: Tree<'a>, depth: usize) -> Printer<'a, W> {
        Printer {
            page,
            tree,
            walk: Walk::at(depth),
            keyed: false,
        }
    }
}

impl<W: Write> Printer<'_, W> {
    fn indented(&mut self) -> io::Result<()> {
        if self.walk.depth < LEVELS {
            spaces(self.page, 2 * self.walk.depth)?;
        }
        Ok(())
    }

    // The beginning of a value's line: nothing behind its key, and in a strict array its number there.
    fn begun(&mut self) -> io::Result<()> {
        if self.keyed {
            return Ok(());
        }
        self.indented()?;
        match self.walk.level().number() {
            None => Ok(()),
            Some(n) => write!(self.page, "{n}: "),
        }
    }

    // A word, and a text of the input behind it.
    fn named(&mut self, kind: &[u8], place: usize, length: usize) -> io::Result<()> {
        word(self.page, kind)?;
        placed(self.page, self.tree.text, place, length)
    }

    // The words of a value.
    fn described(&mut self, r: Record) -> io::Result<()> {
        match r {
            Record::Number(bits) => {
                word(self.page, b"number ")?;
                number(self.page, bits)
            }
            Record::Boolean(b) => write!(self.page, "boolean {b}"),
            Record::Text(p, n) => self.named(b"string ", p, n),
            Record::Object => word(self.page, b"object"),
            Record::Null => word(self.page, b"null"),
            Record::Undefined => word(self.page, b"undefined"),
            Record::Reference(n) => write!(self.page, "reference {n}"),
            Record::EcmaArray(n) => write!(self.page, "ECMA array, length {n}"),
            Record::StrictArray(n) => write!(self.page, "strict array of {n}"),
            Record::Date(bits, _, zone) => {
                word(self.page, b"date ")?;
                date(self.page, bits, zone)
            }
            Record::Unsupported => word(self.page, b"unsupported"),
            Record::Xml(p, n) => self.named(b"XML ", p, n),
            Record::TypedObject(p, n) => self.named(b"typed object ", p, n),
            _ => word(self.page, b"no value"),
        }
    }

    fn value(&mut self, r: Record) -> io::Result<()> {
        self.begun()?;
        self.described(r)?;
        self.walk.pass(r);
        self.keyed = false;
        word(self.page, b"\n")
    }

    fn key(&mut self, text: &[u8]) -> io::Result<()> {
        self.indented()?;
        quoted(self.page, text)?;
        self.keyed = true;
        word(self.page, b": ")
    }

    // One record: the key that begins a line, the end of a container, or a line.
    fn record(&mut self, r: Record) -> io::Result<()> {
        match r {
            Record::Key(p, n) => self.key(part(self.tree.text, p, n)),
            Record::ObjectEnd => {
                self.walk.close();
                Ok(())
            }
            Record::Packet(..) | Record::Header(..) | Record::Message(..) | Record::Lso(..) => {
                head(self.page, self.tree.text, r)
            }
            _ => self.value(r),
        }
    }

    // The records of an image from a place on; where one value is asked for, they end with it. A record has one byte at least.
    fn records(&mut self, place: usize, one: bool) -> io::Result<()> {
        let depth = self.walk.depth;
        let mut c = Cursor { at: place };
        for _ in 0..self.tree.image.len() {
            let Some((r, next)) = record_at(self.tree.image, c) else {
                break;
            };
            self.record(r)?;
            if one && self.walk.depth == depth {
                break;
            }
            c = next;
        }
        Ok(())
    }
}

// The line of what values stand in: a file, a packet, or an entry of one.
pub fn head(page: &mut impl Write, input: &[u8], r: Record) -> io::Result<()> {
    match r {
        Record::Packet(headers, messages) => {
            writeln!(page, "AMF packet, headers {headers}, messages {messages}")
        }
        Record::Header(p, n, flag) => {
            word(page, b"  header ")?;
            placed(page, input, p, n)?;
            writeln!(page, ", must understand: {flag}")
        }
        Record::Message(p, n, q, m) => {
            word(page, b"  message to ")?;
            placed(page, input, p, n)?;
            word(page, b", response ")?;
            placed(page, input, q, m)?;
            word(page, b"\n")
        }
        Record::Lso(stored, p, n) => {
            word(page, b"LSO file ")?;
            placed(page, input, p, n)?;
            word(page, b", stored length ")?;
            amount(page, u64::from(stored), b" byte")?;
            word(page, b"\n")
        }
        _ => Ok(()),
    }
}

impl<'a> Tree<'a> {
    // Of a buffer in which so much of an image is made.
    pub fn of(text: &'a [u8], buffer: &'a [u8], made: usize) -> Tree<'a> {
        Tree {
            text,
            image: part(buffer, 0, made),
        }
    }

    // The lines of all records, whose values begin so deep.
    pub fn show(self, page: &mut impl Write, depth: usize) -> io::Result<()> {
        Printer::onto(page, self, depth).records(0, false)
    }

    // The value whose record stands at a place, by itself: a leaf ends with its record, and a container where the walk comes out of it.
    pub fn show_value(self, page: &mut impl Write, place: usize) -> io::Result<()> {
        Printer::onto(page, self, 0).records(place, true)
    }
}
