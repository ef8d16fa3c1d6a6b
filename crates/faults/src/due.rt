// What is due at a place: a walk over an input, field by field, up to the field that a reading was refused at. All that stands before that field was read, so
// the walk looks at lengths, counts and markers alone.
use crate::field::{
    Field, FileField, Item, Level, Levels, Named, PacketField, Part, Spot, ValueField,
};
use crate::way::Way;
use amf0::type_marker::{TypeMarker, type_marker};
use wire::cursor::{Cursor, Span};
use wire::limit::{BYTES, LEVELS};

// A field that has no bytes is a text, behind its length: so no walk has more turns.
const TURNS: usize = 2 * BYTES;
// The marker that ends a container, where it stands behind a key.
const OBJECT_END: u8 = 0x09;

// The numbers that stand at the spot.
impl Way<'_> {
    pub(crate) fn byte(&self) -> Option<u8> {
        self.input.get(self.spot.at).copied()
    }

    fn short(&self) -> Option<usize> {
        let (n, _) = Cursor { at: self.spot.at }.be_u16(self.input).ok()?;
        Some(n as usize)
    }

    fn long(&self) -> Option<usize> {
        let (n, _) = Cursor { at: self.spot.at }.be_u32(self.input).ok()?;
        Some(n as usize)
    }

    fn length(&self) -> Option<usize> {
        if self.spot.size == 2 {
            self.short()
        } else {
            self.long()
        }
    }
}

// What is due behind the field at the spot, which is there up to an end; None where a walk goes no further.
impl Way<'_> {
    fn rest(&self, end: usize) -> Option<Spot> {
        let left = self.input.len().checked_sub(end)?;
        Some(self.spot.then(end, Field::Rest, left))
    }

    // An entry, whose name or target is not read yet.
    fn entry(&mut self, end: usize, part: Part, name: Named) -> Spot {
        self.levels.set(0, Level::Key(None));
        Spot {
            part,
            ..self.spot.then(end, Field::Length(name), 2)
        }
    }

    // The next header, or what stands behind the last.
    fn header(&mut self, end: usize, next: Option<Item>) -> Spot {
        match next {
            Some(item) => self.entry(end, Part::Header(item), Named::HeaderName),
            None => Spot {
                part: Part::Packet,
                ..self.spot.packet(end, PacketField::Messages, 2)
            },
        }
    }

    fn message(&mut self, end: usize, next: Option<Item>) -> Option<Spot> {
        match next {
            Some(item) => Some(self.entry(end, Part::Message(item), Named::Target)),
            None => self.rest(end),
        }
    }

    // Behind a value that stands in no container.
    fn behind_value(&mut self, end: usize) -> Option<Spot> {
        match self.spot.part {
            Part::File => Some(self.spot.file(end, FileField::Closing, 1)),
            Part::Packet => None,
            Part::Header(item) => Some(self.header(end, item.next())),
            Part::Message(item) => self.message(end, item.next()),
            Part::Entry | Part::Value => self.rest(end),
        }
    }

    // Behind a value: the next of the array, or the next key of the object, or what holds them all. The strict arrays of which a value is the last end with it.
    fn ended(&mut self, end: usize) -> Option<Spot> {
        for depth in (1..=self.spot.depth).rev() {
            self.spot.depth = depth;
            match self.levels.at(depth) {
                Level::Key(_) => return Some(self.spot.key(end)),
                Level::Value(item) => {
                    if let Some(next) = item.next() {
                        self.levels.set(depth, Level::Value(next));
                        return Some(self.spot.value(end));
                    }
                }
            }
        }
        self.spot.depth = 0;
        self.behind_value(end)
    }

    // Into a container, of which nothing is read yet. One that is too deep for a reading is no level of its own.
    fn opened(&mut self, level: Level) -> Spot {
        if self.spot.depth < LEVELS {
            let depth = self.spot.depth + 1;
            self.levels.set(depth, level);
            Spot { depth, ..self.spot }
        } else {
            self.spot
        }
    }

    fn pairs(&mut self, end: usize) -> Option<Spot> {
        Some(self.opened(Level::Key(None)).key(end))
    }

    fn values(&mut self, end: usize) -> Option<Spot> {
        match Item::first_of(self.long()?) {
            Some(first) => Some(self.opened(Level::Value(first)).value(end)),
            None => self.ended(end),
        }
    }

    // The first field of a value behind its marker.
    fn fields(&mut self, end: usize, k: TypeMarker) -> Option<Spot> {
        let s = self.spot;
        match k {
            TypeMarker::Number => Some(s.own(end, ValueField::Number, 8)),
            TypeMarker::Boolean => Some(s.own(end, ValueField::Boolean, 1)),
            TypeMarker::String => Some(s.then(end, Field::Length(Named::Content), 2)),
            TypeMarker::Object => self.pairs(end),
            TypeMarker::Reference => Some(s.own(end, ValueField::Index, 2)),
            TypeMarker::EcmaArray => Some(s.own(end, ValueField::EcmaLength, 4)),
            TypeMarker::StrictArray => Some(s.own(end, ValueField::Count, 4)),
            TypeMarker::Date => Some(s.own(end, ValueField::Time, 8)),
            TypeMarker::LongString | TypeMarker::Xml => {
                Some(s.then(end, Field::Length(Named::Content), 4))
            }
            TypeMarker::TypedObject => Some(s.then(end, Field::Length(Named::ClassName), 2)),
            TypeMarker::Null | TypeMarker::Undefined | TypeMarker::Unsupported | TypeMarker::Amf3 =>
                self.ended(end),
        }
    }

    // The marker of an end, behind a key of a container, ends that; in a strict array and in a file's body it ends nothing.
    fn marked(&mut self, end: usize) -> Option<Spot> {
        let marker = self.byte()?;
        let depth = self.spot.depth;
        if marker == OBJECT_END && 0 < depth && matches!(self.levels.at(depth), Level::Key(_)) {
            self.spot.depth = depth - 1;
            return self.ended(end);
        }
        self.fields(end, type_marker(marker)?)
    }

    // The text at the spot leads to what stands behind it.
    fn lead(&mut self) {
        let text = Span {
            place: self.spot.at,
            length: self.spot.size,
        };
        self.levels.set(self.spot.depth, Level::Key(Some(text)));
    }

    fn behind_text(&mut self, end: usize, t: Named) -> Option<Spot> {
        let s = self.spot;
        match t {
            Named::FileName => Some(s.file(end, FileField::Padding(2), 1)),
            Named::Key => {
                self.lead();
                Some(s.value(end))
            }
            Named::Content => self.ended(end),
            Named::ClassName => self.pairs(end),
            Named::HeaderName => {
                self.lead();
                Some(s.packet(end, PacketField::Flag, 1))
            }
            Named::Target => {
                self.lead();
                Some(s.then(end, Field::Length(Named::Response), 2))
            }
            Named::Response => Some(s.packet(end, PacketField::Declared, 4)),
        }
    }

    // A cut goes on behind the value that a length declares, and into one whose length is not known.
    fn behind_length(&mut self, end: usize) -> Option<Spot> {
        let behind = end.checked_add(self.long()?)?;
        if self.spot.cut && behind <= self.input.len() {
            self.behind_value(behind)
        } else {
            Some(self.spot.value(end))
        }
    }

    fn next_of_file(&self, end: usize, field: FileField) -> Spot {
        let s = self.spot;
        match field {
            FileField::Beginning => s.file(end, FileField::StoredLength, 4),
            FileField::StoredLength => s.file(end, FileField::Signature, 10),
            FileField::Signature => s.then(end, Field::Length(Named::FileName), 2),
            FileField::Padding(0) => s.file(end, FileField::Version, 1),
            FileField::Padding(more) => s.file(end, FileField::Padding(more - 1), 1),
            FileField::Version | FileField::Closing => s.key(end),
        }
    }

    fn next_of_packet(&mut self, end: usize, field: PacketField) -> Option<Spot> {
        let s = self.spot;
        match field {
            PacketField::Zero => Some(s.packet(end, PacketField::Version, 1)),
            PacketField::Version => Some(s.packet(end, PacketField::Headers, 2)),
            PacketField::Headers => {
                let first = Item::first_of(self.short()?);
                Some(self.header(end, first))
            }
            PacketField::Messages => {
                let first = Item::first_of(self.short()?);
                self.message(end, first)
            }
            PacketField::Flag => Some(s.packet(end, PacketField::Declared, 4)),
            PacketField::Declared => self.behind_length(end),
        }
    }

    fn next_of_value(&mut self, end: usize, field: ValueField) -> Option<Spot> {
        match field {
            ValueField::Marker => self.marked(end),
            ValueField::EcmaLength => self.pairs(end),
            ValueField::Count => self.values(end),
            ValueField::Time => Some(self.spot.own(end, ValueField::Zone, 2)),
            ValueField::Number | ValueField::Boolean | ValueField::Index | ValueField::Zone => {
                self.ended(end)
            }
        }
    }

    fn step(&mut self) -> Option<Spot> {
        let end = self.spot.end_within(self.input.len())?;
        match self.spot.field {
            Field::OfFile(f) => Some(self.next_of_file(end, f)),
            Field::OfPacket(f) => self.next_of_packet(end, f),
            Field::OfValue(f) => self.next_of_value(end, f),
            Field::Length(t) => Some(self.spot.then(end, Field::Text(t), self.length()?)),
            Field::Text(t) => self.behind_text(end, t),
            Field::Rest => None,
        }
    }
}

// The way to the field at a place, or to another where no field begins there; None where the walk ends before.
pub(crate) fn due<'a>(input: &'a [u8], from: Spot, place: usize) -> Option<Way<'a>> {
    let mut way = Way {
        input,
        levels: Levels::new(),
        spot: from,
    };
    for _ in 0..TURNS {
        if !way.spot.is_before(place) {
            break;
        }
        way.spot = way.step()?;
    }
    Some(way)
}
