// Where a walk through an image is, and the brackets, commas and lines that this asks for.
use figures::page::{spaces, word};
use std::io;
use std::io::Write;

// More levels than a document has: 32 of values, and those that they stand in.
const LEVELS: usize = 40;

const OUTSIDE: Level = Level {
    form: Form::Top,
    stage: Stage::Empty,
    left: 0,
};

// What a level is.
#[derive(Clone, Copy, PartialEq, Eq, Debug)]
pub(crate) enum Form {
    // Nothing of JSON's.
    Top,
    Object,
    // An object whose pairs are a list.
    Pairs,
    List,
}

// How far a level is.
#[derive(Clone, Copy, PartialEq, Eq, Debug)]
pub(crate) enum Stage {
    // Nothing stands in it yet.
    Empty,
    Words,
    // Values without a key, behind the words.
    Keyless,
    // A pair, or an item of a list.
    Filled,
}

// Of a list there is also how many items are still to come.
#[derive(Clone, Copy, PartialEq, Eq, Debug)]
pub(crate) struct Level {
    pub(crate) form: Form,
    pub(crate) stage: Stage,
    pub(crate) left: u32,
}

// The levels of a walk, and how many of them it is deep.
#[derive(Clone, Copy, PartialEq, Eq, Debug)]
pub(crate) struct Walk {
    depth: usize,
    levels: [Level; LEVELS],
}

// Prints an image, with the text of its texts, onto a page. The index has the marks of the containers that the walk has not passed. Where there is none, all
// objects are told as lists of their pairs.
#[derive(Drop)]
pub(crate) struct Printer<'a, W> {
    pub(crate) page: &'a mut W,
    pub(crate) text: &'a [u8],
    pub(crate) image: &'a [u8],
    pub(crate) index: Option<&'a [u8]>,
    pub(crate) walk: Walk,
}

impl Walk {
    fn at(depth: usize) -> Walk {
        Walk {
            depth,
            levels: [OUTSIDE; LEVELS],
        }
    }

    fn level(&self) -> Level {
        self.levels.get(self.depth).copied().unwrap_or(OUTSIDE)
    }

    pub(crate) fn form(&self) -> Form {
        self.level().form
    }

    pub(crate) fn stage(&self) -> Stage {
        self.level().stage
    }

    fn set_stage(&mut self, stage: Stage) {
        if let Some(level) = self.levels.get_mut(self.depth) {
            level.stage = stage;
        }
    }

    // One of the items that are to come has come.
    fn count_down(&mut self) {
        if let Some(level) = self.levels.get_mut(self.depth) {
            level.left = level.left.saturating_sub(1);
        }
    }

    pub(crate) fn open(&mut self, level: Level) {
        if self.depth < LEVELS - 1 {
            self.depth += 1;
            self.levels[self.depth] = level;
        }
    }

    fn leave(&mut self) {
        self.depth = self.depth.saturating_sub(1);
    }
}

impl<'a, W> Printer<'a, W> {
    pub(crate) fn onto(
        page: &'a mut W,
        text: &'a [u8],
        image: &'a [u8],
        index: Option<&'a [u8]>,
        depth: usize,
    ) -> Printer<'a, W> {
        Printer {
            page,
            text,
            image,
            index,
            walk: Walk::at(depth),
        }
    }
}

impl<W: Write> Printer<'_, W> {
    fn line(&mut self, depth: usize) -> io::Result<()> {
        word(self.page, b"\n")?;
        if depth < LEVELS {
            spaces(self.page, 2 * depth)?;
        }
        Ok(())
    }

    // The line on which the level's closing bracket stands.
    fn closing_line(&mut self) -> io::Result<()> {
        match self.walk.depth.checked_sub(1) {
            Some(outer) => self.line(outer),
            None => Ok(()),
        }
    }

    // A new line of the level, behind a comma where it is not the first.
    pub(crate) fn item(&mut self, comma: bool, stage: Stage) -> io::Result<()> {
        if comma {
            word(self.page, b",")?;
        }
        self.line(self.walk.depth)?;
        self.walk.set_stage(stage);
        Ok(())
    }

    // A word's list, behind the words before it.
    pub(crate) fn list_word(&mut self, name: &[u8]) -> io::Result<()> {
        if self.walk.stage() == Stage::Words {
            word(self.page, b", ")?;
        }
        word(self.page, name)?;
        word(self.page, b": [")
    }

    // Lists end with the value that is the last of theirs, and as values of the levels round them. No level is deeper than the turns.
    fn lists_ended(&mut self) -> io::Result<()> {
        for _ in 0..LEVELS {
            if self.walk.depth == 0 || self.walk.level().left != 1 {
                break;
            }
            self.closing_line()?;
            word(self.page, b"]")?;
            self.walk.leave();
        }
        self.walk.count_down();
        Ok(())
    }

    // A value has ended, and with it the pair that it stands in, where pairs are lists.
    pub(crate) fn ended(&mut self) -> io::Result<()> {
        self.lists_ended()?;
        if self.walk.form() == Form::Pairs && self.walk.stage() == Stage::Filled {
            word(self.page, b"]")?;
        }
        Ok(())
    }

    // The list of the values without a key ends before the first key, or with its container.
    pub(crate) fn keyless_ended(&mut self) -> io::Result<()> {
        if self.walk.stage() == Stage::Keyless {
            self.closing_line()?;
            word(self.page, b"]")?;
            self.walk.set_stage(Stage::Words);
        }
        Ok(())
    }

    // An object ends; that it has ended as a value is not said yet.
    fn object_closed(&mut self) -> io::Result<()> {
        self.keyless_ended()?;
        if self.walk.stage() == Stage::Filled {
            self.closing_line()?;
            if self.walk.form() == Form::Pairs {
                word(self.page, b"]")?;
            }
        }
        word(self.page, b"}")?;
        self.walk.leave();
        Ok(())
    }

    pub(crate) fn closed(&mut self) -> io::Result<()> {
        self.object_closed()?;
        self.ended()
    }
}
