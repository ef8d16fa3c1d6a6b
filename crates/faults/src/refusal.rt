// The rule "Answers" (docs/DEMANDS.md), in words.
use std::io::Write;
use std::{fmt, io};
use wire::answer::Answer;

// What an answer says, whatever was read.
#[derive(Clone, Copy)]
pub(crate) struct Reason(pub(crate) Option<Answer>);

impl fmt::Display for Reason {
    fn fmt<W: fmt::Write>(&self, f: &mut fmt::Formatter<W>) -> fmt::Result {
        f.write_str(match self.0 {
            Some(Answer::OverLimit) => "there are more than 1,048,576 bytes",
            Some(Answer::NotWhole) =>
                "a field is not whole, or a count or a length exceeds the bytes that are left",
            Some(Answer::NotRight) =>
                "a fixed byte is wrong, a text is not UTF-8, a value's marker is 04, 09 or 0E, or bytes are left over",
            Some(Answer::NoRoom) => "the tree does not fit its buffer",
            Some(Answer::TooDeep) => "a value stands at depth 33",
            Some(Answer::NoTree) => "it is not a tree",
            Some(Answer::OtherVersion) => "the packet has version 3 (AMF3)",
            Some(Answer::NoEntry) => "there is no such entry",
            Some(Answer::Damaged) => "the entry is damaged",
            None => "for no known reason",
        })
    }
}

// A refusal that has no place.
pub fn refusal(page: &mut impl Write, answer: u8) -> io::Result<()> {
    let reason = Reason(Answer::try_from(answer).ok());
    writeln!(page, "refused, answer {answer}: {reason}")
}
