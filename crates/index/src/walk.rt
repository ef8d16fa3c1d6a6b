// Going over an image: its keys, in the order of reading.
ghost use Rattle.std.specs.Prelude.{◌≡◌, ℕ, suc, ◌+◌, ◌-◌, ◌*◌, ◌≤◌, ◌<◌, length};
ghost use Rattle.wire.specs.Bytes.{laid};
ghost use Rattle.wire.specs.Limit.{«image» as most_image};
ghost use Rattle.image.specs.Out.{Out, named_at, pour, poured};
ghost use Rattle.index.specs.Mark.{mark_bytes};
ghost use Rattle.index.specs.Keys.{role_of, own_of, pair_at, turn_of, value, rest as rest_of};
ghost use Rattle.index.specs.Code.{on_of, count_of, Ready, Onward};

use crate::mark::{Mark, SIZE, put_mark};
use amf0::write::value_at;
use image::reading::Step;
use image::record::Record;
use image::taking::record_at;
use wire::answer::Answer;
use wire::cursor::Cursor;
use wire::limit;
use wire::text::{inside, part};
use wire::utf8::is_utf8;

// What follows a record: nothing, pairs up to the end, values without a key before such pairs, pairs up to the image's end, or so many values.
#[derive(Clone, Copy, Debug, PartialEq, Eq)]
pub enum Rest {
    Nothing,
    Pairs,
    Dense,
    Body,
    Values(u32),
}

// What a record is here, with the text that it names.
#[derive(Clone, Copy, Debug, PartialEq, Eq)]
pub enum Role {
    Value(usize, usize, Rest),
    Key(usize, usize),
    File(usize, usize),
    End,
    Other,
}

pub(crate) fn role_of(r: Record) -> Role
    ensures { result ≡ role_of r }
{
    match r {
        Record::Number(_)
        | Record::Boolean(_)
        | Record::Null
        | Record::Undefined
        | Record::Reference(_)
        | Record::Date(_, _, _)
        | Record::Unsupported => Role::Value(0, 0, Rest::Nothing),
        Record::Text(p, n) | Record::Xml(p, n) => Role::Value(p, n, Rest::Nothing),
        Record::Object => Role::Value(0, 0, Rest::Pairs),
        Record::EcmaArray(_) => Role::Value(0, 0, Rest::Dense),
        Record::StrictArray(n) => Role::Value(0, 0, Rest::Values(n)),
        Record::TypedObject(p, n) => Role::Value(p, n, Rest::Pairs),
        Record::ObjectEnd => Role::End,
        Record::Key(p, n) => Role::Key(p, n),
        Record::Packet(_, _) | Record::Header(_, _, _) | Record::Message(_, _, _, _) => Role::Other,
        Record::Lso(_, p, n) => Role::File(p, n),
    }
}

// Whether a text stands in the lent one and is UTF-8.
pub(crate) fn named(text: &[u8], p: usize, n: usize) -> bool
    ensures { result ≡ named_at text.now p n }
{
    if inside(text, p, n) {
        return is_utf8(part(text, p, n));
    }
    false
}

// The cursor behind a value's record, and what follows; or none stands there.
pub type Begun = Option<(Cursor, Rest)>;

#[tactic(auto, unfolding(crate::specs::Keys::own_of))]
fn own(image: &[u8], text: &[u8], c: Cursor) -> Begun
    ensures { result ≡ own_of image.now text.now c.at }
{
    let (r, d) = record_at(image, c)?;
    match role_of(r) {
        Role::Value(p, n, f) if named(text, p, n) => Some((d, f)),
        _ => None,
    }
}

// What comes next: nothing any more; a value without a key; a key, whose value is at the cursor. Behind a value, this is due then.
#[derive(Clone, Copy, Debug, PartialEq, Eq)]
pub enum Coming {
    Done(Cursor),
    Value(Cursor, Rest),
    Key(Cursor, Rest),
}

// A key's record, with what is due behind its value; or the end's, where it may stand.
#[tactic(auto, unfolding(crate::specs::Keys::pair_at))]
fn pair(image: &[u8], text: &[u8], c: Cursor, due: Rest, ends: bool) -> Option<Coming>
    ensures { result ≡ pair_at image.now text.now due ends c.at }
{
    let (r, d) = record_at(image, c)?;
    match role_of(r) {
        Role::Key(p, n) if named(text, p, n) => Some(Coming::Key(d, due)),
        Role::End if ends => Some(Coming::Done(d)),
        _ => None,
    }
}

#[tactic(auto, unfolding(crate::specs::Keys::turn_of))]
fn turn(image: &[u8], text: &[u8], c: Cursor, due: Rest) -> Option<Coming>
    ensures { result ≡ turn_of image.now text.now due c.at }
{
    match due {
        Rest::Nothing | Rest::Values(0) => Some(Coming::Done(c)),
        Rest::Values(n) => Some(Coming::Value(c, Rest::Values(n - 1))),
        Rest::Dense if value_at(image, c) => Some(Coming::Value(c, Rest::Dense)),
        Rest::Dense | Rest::Pairs => pair(image, text, c, Rest::Pairs, true),
        Rest::Body if image.len() <= c.at => Some(Coming::Done(c)),
        Rest::Body => pair(image, text, c, Rest::Body, false),
    }
}

// A mark behind so many bytes, where it has room.
fn emit(index: &mut [u8], count: usize, m: Mark)
    requires { count < 0x1000_0000_0000 }
    ensures { index.new ≡ laid (mark_bytes m) count index.old }
{
    if count + SIZE <= index.len() {
        put_mark(index, count, m);
    }
}

// The next value, with its key's mark put behind so many bytes.
#[derive(Clone, Copy, Debug, PartialEq, Eq)]
pub enum Ahead {
    Done(Cursor),
    Value(Cursor, usize, Rest),
}

fn go_on(
    image: &[u8],
    text: &[u8],
    index: &mut [u8],
    c: Cursor,
    count: usize,
    left: usize,
    place: usize,
    due: Rest,
) -> Option<Ahead>
    requires { (length image.now ≤ most_image) × (c.at ≤ length image.now) × (place ≤ length image.now) × (count ≤ 13 * c.at) × (left ≤ 32) }
    ensures by_index { (inner : ℕ → Out) → (f : ℕ) → 0 < f → pour (rest_of inner image.now text.now place (33 - left) f due c.at) count index.old ≡ pour (on_of result c.at inner (rest_of inner image.now text.now place (33 - left) (f - 1))) (count_of result count) index.new }
    ensures ready { Ready result c.at (length image.now) count }
{
    match turn(image, text, c, due)? {
        Coming::Done(e) => Some(Ahead::Done(e)),
        Coming::Value(e, f) => Some(Ahead::Value(e, count, f)),
        Coming::Key(e, f) => {
            let key = c.at;
            let at = e.at;
            emit(
                index,
                count,
                Mark {
                    depth: (limit::LEVELS + 1 - left) as u8,
                    container: place as u32,
                    key: key as u32,
                    value: at as u32,
                },
            );
            Some(Ahead::Value(e, count + SIZE, f))
        }
    }
}

// What follows the record at a place, up to where it ends; the marks go behind so many bytes.
pub(crate) fn follow(
    image: &[u8],
    text: &[u8],
    index: &mut [u8],
    start: Cursor,
    done: usize,
    left: usize,
    place: usize,
    rest: Rest,
) -> Step
    requires { (length image.now ≤ most_image) × (start.at ≤ length image.now) × (place ≤ length image.now) × (done ≤ 13 * start.at) × (left ≤ 32) }
    ensures index_after { poured result index.new ≡ pour (rest_of (value left image.now text.now) image.now text.now place (33 - left) (suc (length image.now)) rest start.at) done index.old }
    ensures onward { Onward result start.at (length image.now) done }
{
    let mut c = start;
    let mut count = done;
    let mut due = rest;
    loop {
        let Some(ahead) = go_on(image, text, index, c, count, left, place, due) else {
            return Answer::NoTree.refuse(c.at);
        };
        match ahead {
            Ahead::Done(e) => {
                return Ok((e, count));
            }
            Ahead::Value(e, n, f) => {
                let at = e.at;
                if left == 0 {
                    if value_at(image, e) {
                        return Answer::TooDeep.refuse(at);
                    }
                    return Answer::NoTree.refuse(at);
                }
                let Some((d, g)) = own(image, text, e) else {
                    return Answer::NoTree.refuse(at);
                };
                let (b, m) = follow(image, text, index, d, n, left - 1, at, g)?;
                c = b;
                count = m;
                due = f;
            }
        }
    }
}
