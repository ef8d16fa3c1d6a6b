// Why a reading was refused, in words: what was due at the place, and what stands there.
use crate::field::{Field, FileField, PacketField, Spot, ValueField};
use crate::refusal::Reason;
use crate::way::Way;
use figures::page::amount;
use std::io;
use std::io::Write;
use wire::answer::Answer;
use wire::cursor::Cursor;
use wire::text::inside;

impl Way<'_> {
    // A field of which not all bytes are there.
    fn ends_early(&self, page: &mut impl Write) -> io::Result<()> {
        let Spot {
            at,
            field,
            size,
            part,
            ..
        } = self.spot;
        match self.input.len().saturating_sub(at) {
            0 => write!(page, "{part} ends where {field} is due"),
            1 => write!(
                page,
                "{part} ends in the middle of {field} ({size} bytes are due, 1 is there)"
            ),
            there => write!(
                page,
                "{part} ends in the middle of {field} ({size} bytes are due, {there} are there)"
            ),
        }
    }

    // A count or a length, for which too few bytes stand behind it.
    fn too_large(&self, page: &mut impl Write, thing: &[u8]) -> io::Result<()> {
        if let Ok((n, c)) = (Cursor { at: self.spot.at }).be_u32(self.input) {
            amount(page, n as u64, thing)?;
            write!(page, ", with only ")?;
            amount(page, self.input.len().saturating_sub(c.at) as u64, b" byte")?;
            write!(page, " left")?;
        }
        Ok(())
    }

    fn marker(&self, page: &mut impl Write) -> io::Result<()> {
        match self.byte() {
            Some(0x04) => write!(page, "04 (movie clip) is no value's marker"),
            Some(0x09) => write!(page, "09 (object end) is no value's marker"),
            Some(0x0E) => write!(page, "0E (record set) is no value's marker"),
            _ => write!(page, "a value's marker is due"),
        }
    }

    fn version(&self, page: &mut impl Write) -> io::Result<()> {
        let version = self.byte().unwrap_or(0);
        let name = if version == 3 { " (AMF3)" } else { "" };
        write!(page, "the version is {version}{name}, and 0 (AMF0) is due")
    }

    // A field that is there and can't be what is due.
    fn wrong(&self, page: &mut impl Write) -> io::Result<()> {
        match self.spot.field {
            Field::OfFile(FileField::Beginning) => write!(
                page,
                "00 BF is due at a file's beginning"
            ),
            Field::OfFile(FileField::Signature) => write!(
                page,
                "the signature TCSO 00 04 00 00 00 00 is due"
            ),
            Field::OfFile(FileField::Padding(_)) => write!(page, "a zero is due (padding)"),
            Field::OfFile(FileField::Version) | Field::OfPacket(PacketField::Version) =>
                self.version(page),
            Field::OfFile(_) => write!(page, "a zero is due"),
            Field::OfPacket(PacketField::Declared) => {
                write!(page, "an entry declares ")?;
                self.too_large(page, b" byte")
            }
            Field::OfPacket(_) => write!(page, "a zero is due at a packet's beginning"),
            Field::OfValue(ValueField::Count) => {
                write!(page, "an array counts ")?;
                self.too_large(page, b" value")
            }
            Field::OfValue(_) => self.marker(page),
            Field::Length(_) | Field::Text(_) => write!(page, "text is not UTF-8"),
            Field::Rest => write!(page, "bytes left over: {}", self.spot.size),
        }
    }

    pub(crate) fn cause(&self, page: &mut impl Write, answer: Option<Answer>) -> io::Result<()> {
        match answer {
            Some(Answer::TooDeep | Answer::OtherVersion | Answer::NoRoom) => {
                return write!(page, "{}", Reason(answer));
            }
            Some(Answer::Damaged) => write!(page, "the entry is damaged: ")?,
            _ => {}
        }
        if inside(self.input, self.spot.at, self.spot.size) {
            self.wrong(page)
        } else {
            self.ends_early(page)
        }
    }
}
