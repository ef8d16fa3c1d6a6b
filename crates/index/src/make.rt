// Making the index of a value or a file.
ghost use Rattle.std.specs.Prelude.{◌≡◌, [], ◌≤◌, length};
ghost use Rattle.wire.specs.Answer.{number_of};
ghost use Rattle.wire.specs.Limit.{«image» as most_image};
ghost use Rattle.image.specs.Out.{pour, poured};
ghost use Rattle.image.specs.Whole.{padded};
ghost use Rattle.index.specs.Index.{root_of, keys_of, index_of, indexing, Holds};

use crate::mark::SIZE;
use crate::sort::sort;
use crate::walk::{Begun, Rest, Role, follow, named, role_of};
use image::reading::{Step, clear};
use image::taking::record_at;
use wire::answer::{ACCEPTED, Answer};
use wire::cursor::Cursor;
use wire::limit;

// The answer, and how many keys there are. C has these numbers.
#[derive(Clone, Copy, Debug, PartialEq, Eq)]
pub struct Indexing {
    pub answer: u8,
    pub count: usize,
}

// A file's elements follow its record; else one value is due, from the image's start on.
#[tactic(auto, unfolding(crate::specs::Index::root_of))]
fn root(image: &[u8], text: &[u8]) -> Begun
    ensures { result ≡ root_of image.now text.now }
{
    if let Some((r, d)) = record_at(image, Cursor { at: 0 }) {
        if let Role::File(p, n) = role_of(r) {
            return named(text, p, n).then_some((d, Rest::Body));
        }
    }
    Some((Cursor { at: 0 }, Rest::Values(1)))
}

// The marks of all keys, in the order of reading, where they have room.
#[tactic(auto, unfolding(crate::specs::Index::keys_of))]
fn gather(image: &[u8], text: &[u8], index: &mut [u8]) -> Step
    requires { length image.now ≤ most_image }
    ensures { poured result index.new ≡ pour (keys_of image.now text.now) 0 index.old }
{
    let Some((c, due)) = root(image, text) else {
        return Answer::NoTree.refuse(0);
    };
    let (e, n) = follow(image, text, index, c, 0, limit::LEVELS, 0, due)?;
    if image.len() <= e.at {
        Ok((e, n))
    } else {
        Answer::NoTree.refuse(e.at)
    }
}

fn refused(index: &mut [u8], a: Answer) -> Indexing
    ensures value { result ≡ record { answer = number_of a; count = 0 } }
    ensures index_after { index.new ≡ padded [] (length index.old) }
{
    clear(index, 0);
    Indexing {
        answer: u8::from(a),
        count: 0,
    }
}

// Makes the index of an image, whose texts stand in `text`: a mark for each key, in order; past them the index is zero.
pub fn make_index(image: &[u8], text: &[u8], index: &mut [u8]) -> Indexing
    ensures value { result ≡ indexing (index_of image.now text.now (length index.old)) }
    ensures holds { Holds image.now text.now (index_of image.now text.now (length index.old)).keys index.new }
{
    if limit::BYTES < text.len() {
        return refused(index, Answer::OverLimit);
    }
    if limit::IMAGE < image.len() {
        return refused(index, Answer::OverLimit);
    }
    match gather(image, text, index) {
        Err(r) => refused(index, r.answer()),
        Ok((_, n)) => {
            if index.len() < n {
                return refused(index, Answer::NoRoom);
            }
            let count = n / SIZE;
            sort(image, text, index, count);
            clear(index, SIZE * count);
            Indexing {
                answer: ACCEPTED,
                count,
            }
        }
    }
}
