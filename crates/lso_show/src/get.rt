// The value to which keys lead in a file or a lone value, by an index that is made for this one way.
use crate::tree::Tree;
use faults::refusal::refusal;
use figures::page::word;
use index::find::step;
use index::make::make_index;
use std::io;
use std::io::Write;
use std::rt::Env;
use wire::answer::{ACCEPTED, Answer};

// The first key's number among the arguments: `lso_show get FILE KEY..`.
const FIRST: usize = 3;
// How long a key may be that is looked for: no text is longer.
const KEY: usize = 65_536;

// A step by the key that an argument is. An argument that doesn't fit the buffer is longer than any key.
fn by_argument(env: &impl Env, t: Tree, index: &[u8], place: usize, i: usize) -> Option<usize> {
    let mut key = [0u8; KEY];
    let n = env.arg(i, &mut key).ok()?;
    step(t.image, t.text, index, place, &key[..n])
}

// The way down from the first record by the arguments up to a number.
fn way(env: &impl Env, t: Tree, index: &[u8], end: usize) -> Option<usize> {
    let mut place = 0;
    for i in FIRST..end {
        place = by_argument(env, t, index, place, i)?;
    }
    Some(place)
}

fn no_index(page: &mut impl Write, answer: u8) -> io::Result<()> {
    if answer == u8::from(Answer::NoRoom) {
        word(
            page,
            b"refused, answer 4: the index does not fit its buffer\n",
        )
    } else {
        refusal(page, answer)
    }
}

// The arguments up to a number are the keys. The index is made in a buffer.
pub fn get(
    page: &mut impl Write,
    env: &impl Env,
    t: Tree,
    index: &mut [u8],
    end: usize,
) -> io::Result<()> {
    let made = make_index(t.image, t.text, index);
    if made.answer != ACCEPTED {
        return no_index(page, made.answer);
    }
    match way(env, t, index, end) {
        Some(place) => t.show_value(page, place),
        None => word(page, b"not found\n"),
    }
}
