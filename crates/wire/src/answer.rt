// The rule "Answers" (docs/DEMANDS.md): a call that is not refused answers 0, and each reason for which one is refused has a number of its own.
ghost use Rattle.std.specs.Prelude.{◌≡◌};
ghost use Rattle.wire.specs.Answer.{number_of, answer_of, Answers, verdict, denied};

use std::marker::Model;

pub const ACCEPTED: u8 = 0;

#[derive(Clone, Copy, Debug, PartialEq, Eq)]
pub enum Answer {
    OverLimit,
    NotWhole,
    NotRight,
    NoRoom,
    TooDeep,
    NoTree,
    OtherVersion,
    NoEntry,
    Damaged,
}

impl From<Answer> for u8 {
    ghost from_gives = { λ a n. n ≡ number_of a };

    fn from(answer: Answer) -> u8 {
        match answer {
            Answer::OverLimit => 1,
            Answer::NotWhole => 2,
            Answer::NotRight => 3,
            Answer::NoRoom => 4,
            Answer::TooDeep => 5,
            Answer::NoTree => 6,
            Answer::OtherVersion => 7,
            Answer::NoEntry => 8,
            Answer::Damaged => 9,
        }
    }
}

// A number that is no refusal's.
#[derive(Clone, Copy, Debug, PartialEq, Eq)]
pub struct UnknownAnswer(pub u8);

impl TryFrom<u8> for Answer {
    type Error = UnknownAnswer;

    ghost try_from_gives = { Answers };

    fn try_from(number: u8) -> Result<Answer, UnknownAnswer> {
        match number {
            1 => Ok(Answer::OverLimit),
            2 => Ok(Answer::NotWhole),
            3 => Ok(Answer::NotRight),
            4 => Ok(Answer::NoRoom),
            5 => Ok(Answer::TooDeep),
            6 => Ok(Answer::NoTree),
            7 => Ok(Answer::OtherVersion),
            8 => Ok(Answer::NoEntry),
            9 => Ok(Answer::Damaged),
            _ => Err(UnknownAnswer(number)),
        }
    }
}

// Why something is refused, and the place of that. The contracts see the answer's number.
#[derive(Clone, Copy, Debug, PartialEq, Eq)]
pub struct Refusal {
    answer: Answer,
    place: usize,
}

impl Model for Refusal {
    ghost use Rattle.wire.specs.Answer.{Verdict};

    ghost Value = { Verdict };

    ghost use Rattle.wire.specs.Refusal.{seen, hidden, hidden_seen};

    ghost view = { seen };

    ghost inverse = { hidden };

    ghost inverse_ok = { λ a h. hidden_seen a };
}

impl Answer {
    pub fn at(self, place: usize) -> Refusal
        ensures { result ≡ verdict (number_of self) place }
    {
        Refusal {
            answer: self,
            place,
        }
    }

    pub fn refuse<T>(self, place: usize) -> Result<T, Refusal>
        ensures { result ≡ denied (number_of self) place }
    {
        Err(self.at(place))
    }
}

impl Refusal {
    pub fn answer(self) -> Answer
        ensures value { result ≡ answer_of self.answer }
        ensures number { number_of result ≡ self.answer }
    {
        self.answer
    }

    pub fn place(self) -> usize
        ensures { result ≡ self.place }
    {
        self.place
    }
}
