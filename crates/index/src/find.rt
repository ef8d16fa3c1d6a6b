// Looking up a key of a container, and a path of keys.
ghost use Rattle.std.specs.Prelude.{◌≡◌, ◌+◌, ◌*◌, ◌/◌, ◌≤◌, ◌<◌, length};
ghost use Rattle.index.specs.Mark.{rows};
ghost use Rattle.index.specs.Keys.{role_at};
ghost use Rattle.index.specs.Find.{past_of, leads_of, upper_of, is_value, has_pairs, opens_at, starts_at, last_of, step_of, down_of, find_of};

use crate::mark::{Mark, SIZE, mark_at};
use crate::order::key_text;
use crate::walk::{Rest, Role, role_of};
use image::taking::record_at;
use wire::cursor::Cursor;
use wire::text::{inside, part};

// What stands at a cursor.
#[tactic(auto, unfolding(crate::specs::Keys::role_at))]
fn role_at(image: &[u8], c: Cursor) -> Role
    ensures { result ≡ role_at image.now c.at }
{
    match record_at(image, c) {
        Some((r, _)) => role_of(r),
        None => Role::Other,
    }
}

// Whether a whole and right record of a value stands at a cursor.
#[tactic(auto, unfolding(crate::specs::Find::is_value))]
fn is_value(image: &[u8], c: Cursor) -> bool
    ensures { result ≡ is_value image.now c.at }
{
    matches!(role_at(image, c), Role::Value(_, _, _))
}

fn has_pairs(due: Rest) -> bool
    ensures { result ≡ has_pairs due }
{
    matches!(due, Rest::Pairs | Rest::Dense)
}

// Whether a path steps into the record at a place: an object, an array with pairs, or a file, where it is the first record.
#[tactic(auto, unfolding(crate::specs::Find::opens_at))]
fn opens(image: &[u8], place: usize) -> bool
    ensures { result ≡ opens_at image.now place }
{
    match role_at(image, Cursor { at: place }) {
        Role::Value(_, _, due) => has_pairs(due),
        Role::File(_, _) => place == 0,
        _ => false,
    }
}

// Whether a path can start at the first record: it is a value's or a file's.
#[tactic(auto, unfolding(crate::specs::Find::starts_at))]
fn starts(image: &[u8]) -> bool
    ensures { result ≡ starts_at image.now }
{
    matches!(
        role_at(image, Cursor { at: 0 }),
        Role::Value(_, _, _) | Role::File(_, _)
    )
}

// Whether a mark comes after all those that a container has of a key. One of depth 0 marks nothing: so the zeros behind an index come after all.
#[tactic(auto, unfolding(crate::specs::Find::past_of), using(crate::proofs::Ordering::cmp_order))]
fn past(image: &[u8], text: &[u8], container: usize, key: &[u8], m: Mark) -> bool
    ensures { result ≡ past_of image.now text.now container key.now m }
{
    if m.depth == 0 {
        return true;
    }
    let of = m.container as usize;
    if container != of {
        return container < of;
    }
    key.cmp(key_text(image, text, m.key)).is_lt()
}

// Whether a mark is of a container and a key, and a value stands behind that key.
#[tactic(auto, unfolding(crate::specs::Find::leads_of), using(crate::proofs::Ordering::eq_order))]
fn leads(image: &[u8], text: &[u8], container: usize, key: &[u8], m: Mark) -> bool
    ensures { result ≡ leads_of image.now text.now container key.now m }
{
    if container != m.container as usize {
        return false;
    }
    let Some((r, c)) = record_at(image, Cursor { at: m.key as usize }) else {
        return false;
    };
    match role_of(r) {
        Role::Key(p, n) => {
            c.at == m.value as usize
                && inside(text, p, n)
                && key == part(text, p, n)
                && is_value(image, c)
        }
        _ => false,
    }
}

// The number of the first mark that is past, by halves. The contract fixes it for marks in any order (`upper_of`), of which the
// library's `partition_point` promises nothing.
fn upper(image: &[u8], text: &[u8], index: &[u8], n: usize, container: usize, key: &[u8]) -> usize
    requires { 13 * n ≤ length index.now }
    ensures { (result ≡ upper_of (past_of image.now text.now container key.now) (rows n index.now) n 0 n) × (result ≤ n) }
{
    let mut low: usize = 0;
    let mut high = n;
    while low < high {
        let mid = (low + high) / 2;
        if past(image, text, container, key, mark_at(index, SIZE * mid)) {
            high = mid;
        } else {
            low = mid + 1;
        }
    }
    low
}

// The value of the last pair of a key that a container has.
fn last(image: &[u8], text: &[u8], index: &[u8], container: usize, key: &[u8]) -> Option<usize>
    ensures { result ≡ last_of image.now text.now (rows (length index.now / 13) index.now) container key.now }
{
    let n = upper(image, text, index, index.len() / SIZE, container, key);
    if n == 0 {
        return None;
    }
    let m = mark_at(index, SIZE * (n - 1));
    leads(image, text, container, key, m).then_some(m.value as usize)
}

// From the record of a container to the value of the last pair of a key in it.
#[tactic(auto, unfolding(crate::specs::Find::step_of))]
pub fn step(image: &[u8], text: &[u8], index: &[u8], container: usize, key: &[u8]) -> Option<usize>
    ensures { result ≡ step_of image.now text.now (rows (length index.now / 13) index.now) container key.now }
{
    if opens(image, container) {
        last(image, text, index, container, key)
    } else {
        None
    }
}

fn down(image: &[u8], text: &[u8], index: &[u8], path: &[u8]) -> Option<usize>
    ensures { result ≡ down_of image.now text.now (rows (length index.now / 13) index.now) path.now (length path.now) 0 0 }
{
    let mut place: usize = 0;
    let mut i: usize = 0;
    while i < path.len() {
        let (n, d) = (Cursor { at: i }).be_u16(path).ok()?;
        let from = d.at;
        let size = n as usize;
        if !inside(path, from, size) {
            return None;
        }
        place = step(image, text, index, place, part(path, from, size))?;
        i = from + size;
    }
    Some(place)
}

// The place of the value to which a path leads from the first record. The path is its keys in a row, each as a short text.
#[tactic(auto, unfolding(crate::specs::Find::find_of))]
pub fn find(image: &[u8], text: &[u8], index: &[u8], path: &[u8]) -> Option<usize>
    ensures { result ≡ find_of image.now text.now (rows (length index.now / 13) index.now) path.now }
{
    if starts(image) {
        down(image, text, index, path)
    } else {
        None
    }
}
