// The fields of files, packets and values, and the way to one.
use std::fmt;
use wire::cursor::Span;
use wire::limit::LEVELS;

// What a text is.
#[derive(Clone, Copy, Debug, PartialEq, Eq)]
pub enum Named {
    FileName,
    Key,
    // A string or XML.
    Content,
    ClassName,
    HeaderName,
    Target,
    Response,
}

#[derive(Clone, Copy, Debug, PartialEq, Eq)]
pub enum FileField {
    Beginning,
    StoredLength,
    Signature,
    // A byte of padding, and how many more there are.
    Padding(u8),
    Version,
    // The zero behind an element's value.
    Closing,
}

#[derive(Clone, Copy, Debug, PartialEq, Eq)]
pub enum PacketField {
    Zero,
    Version,
    Headers,
    Messages,
    Flag,
    // The length that an entry declares.
    Declared,
}

#[derive(Clone, Copy, Debug, PartialEq, Eq)]
pub enum ValueField {
    Marker,
    Number,
    Boolean,
    Index,
    EcmaLength,
    Count,
    Time,
    Zone,
}

#[derive(Clone, Copy, Debug, PartialEq, Eq)]
pub enum Field {
    OfFile(FileField),
    OfPacket(PacketField),
    OfValue(ValueField),
    // The length of a text, and the text.
    Length(Named),
    Text(Named),
    // What is left where the input must end.
    Rest,
}

// One of so many headers, messages or values: its number, from 0, and that of the last.
#[derive(Clone, Copy, Debug, PartialEq, Eq)]
pub struct Item {
    pub number: usize,
    pub last: usize,
}

// What a walk is in.
#[derive(Clone, Copy, Debug, PartialEq, Eq)]
pub enum Part {
    File,
    Packet,
    Header(Item),
    Message(Item),
    // The value of an entry, by itself.
    Entry,
    Value,
}

// A field of so many bytes at a place, in so many containers. A cut steps over values whose length is known.
#[derive(Clone, Copy, Debug, PartialEq, Eq)]
pub struct Spot {
    pub at: usize,
    pub field: Field,
    pub size: usize,
    pub depth: usize,
    pub part: Part,
    pub cut: bool,
}

// What the way goes through on a level: the key that was read last, if one was, or a value of a strict array.
#[derive(Clone, Copy, Debug, PartialEq, Eq)]
pub(crate) enum Level {
    Key(Option<Span>),
    Value(Item),
}

// The way to a field. Level 0 has the key of a file's element, or the name of a header or the target of a message.
#[derive(Clone, Copy)]
pub(crate) struct Levels([Level; LEVELS + 1]);

// What a field is called.
impl fmt::Display for FileField {
    fn fmt<W: fmt::Write>(&self, f: &mut fmt::Formatter<W>) -> fmt::Result {
        f.write_str(match self {
            FileField::Beginning => "00 BF",
            FileField::StoredLength => "the stored length",
            FileField::Signature => "the signature",
            FileField::Padding(_) => "padding",
            FileField::Version => "the version",
            FileField::Closing => "a zero",
        })
    }
}

impl fmt::Display for PacketField {
    fn fmt<W: fmt::Write>(&self, f: &mut fmt::Formatter<W>) -> fmt::Result {
        f.write_str(match self {
            PacketField::Zero => "a zero",
            PacketField::Version => "the version",
            PacketField::Headers => "the count of headers",
            PacketField::Messages => "the count of messages",
            PacketField::Flag => "a header's flag",
            PacketField::Declared => "an entry's length",
        })
    }
}

impl fmt::Display for ValueField {
    fn fmt<W: fmt::Write>(&self, f: &mut fmt::Formatter<W>) -> fmt::Result {
        f.write_str(match self {
            ValueField::Marker => "a value's marker",
            ValueField::Number => "a number",
            ValueField::Boolean => "a boolean",
            ValueField::Index => "a reference's index",
            ValueField::EcmaLength => "an ECMA array's length",
            ValueField::Count => "an array's count",
            ValueField::Time => "a date",
            ValueField::Zone => "a date's zone",
        })
    }
}

impl fmt::Display for Field {
    fn fmt<W: fmt::Write>(&self, f: &mut fmt::Formatter<W>) -> fmt::Result {
        match self {
            Field::OfFile(field) => write!(f, "{field}"),
            Field::OfPacket(field) => write!(f, "{field}"),
            Field::OfValue(field) => write!(f, "{field}"),
            Field::Length(_) => f.write_str("a text's length"),
            Field::Text(_) | Field::Rest => f.write_str("a text"),
        }
    }
}

// What ends too early: of an entry it is said before that it is damaged.
impl fmt::Display for Part {
    fn fmt<W: fmt::Write>(&self, f: &mut fmt::Formatter<W>) -> fmt::Result {
        f.write_str(match self {
            Part::File => "the file",
            Part::Packet | Part::Header(_) | Part::Message(_) => "the packet",
            Part::Entry => "it",
            Part::Value => "the input",
        })
    }
}

impl Item {
    pub(crate) fn first_of(count: usize) -> Option<Item> {
        let last = count.checked_sub(1)?;
        Some(Item { number: 0, last })
    }

    pub(crate) fn next(self) -> Option<Item> {
        if self.number < self.last {
            Some(Item {
                number: self.number + 1,
                ..self
            })
        } else {
            None
        }
    }
}

impl Part {
    // A lone value, and that of an entry, stands in nothing.
    pub(crate) fn is_alone(self) -> bool {
        matches!(self, Part::Entry | Part::Value)
    }
}

impl Levels {
    pub(crate) fn new() -> Levels {
        Levels([Level::Key(None); LEVELS + 1])
    }

    pub(crate) fn at(&self, depth: usize) -> Level {
        self.0.get(depth).copied().unwrap_or(Level::Key(None))
    }

    pub(crate) fn set(&mut self, depth: usize, level: Level) {
        if let Some(there) = self.0.get_mut(depth) {
            *there = level;
        }
    }
}

// A field at the front of what is read.
fn front(field: Field, size: usize, part: Part) -> Spot {
    Spot {
        at: 0,
        field,
        size,
        depth: 0,
        part,
        cut: false,
    }
}

pub fn of_file() -> Spot {
    front(Field::OfFile(FileField::Beginning), 2, Part::File)
}

pub fn of_packet(cut: bool) -> Spot {
    Spot {
        cut,
        ..front(Field::OfPacket(PacketField::Zero), 1, Part::Packet)
    }
}

pub fn of_entry(at: usize) -> Spot {
    Spot {
        at,
        ..front(Field::OfValue(ValueField::Marker), 1, Part::Entry)
    }
}

pub fn of_value(at: usize) -> Spot {
    Spot {
        at,
        ..front(Field::OfValue(ValueField::Marker), 1, Part::Value)
    }
}

impl Spot {
    pub(crate) fn then(self, at: usize, field: Field, size: usize) -> Spot {
        Spot {
            at,
            field,
            size,
            ..self
        }
    }

    pub(crate) fn file(self, at: usize, field: FileField, size: usize) -> Spot {
        self.then(at, Field::OfFile(field), size)
    }

    pub(crate) fn packet(self, at: usize, field: PacketField, size: usize) -> Spot {
        self.then(at, Field::OfPacket(field), size)
    }

    pub(crate) fn own(self, at: usize, field: ValueField, size: usize) -> Spot {
        self.then(at, Field::OfValue(field), size)
    }

    pub(crate) fn key(self, at: usize) -> Spot {
        self.then(at, Field::Length(Named::Key), 2)
    }

    pub(crate) fn value(self, at: usize) -> Spot {
        self.own(at, ValueField::Marker, 1)
    }

    // The end of the field, where all of it is in an input of so many bytes.
    pub(crate) fn end_within(self, length: usize) -> Option<usize> {
        let end = self.at.checked_add(self.size)?;
        (end <= length).then_some(end)
    }

    // Whether a walk goes on to come to a place. A field without bytes is not what was refused there.
    pub(crate) fn is_before(self, place: usize) -> bool {
        self.at < place || self.at == place && self.size == 0
    }
}
