// Sorting the marks in place: no memory but the index, no recursion. A heap puts them in order, by exchanges alone, and then a pass puts back each mark that comes
// before the one that it stands behind. That is none, but it is the pass that is proved to sort: of the heap only that it keeps the marks, so its order is a matter
// of time alone. The ways up and down the heap are a `while` each, since they double or halve a number, which no range does.
ghost use Rattle.std.specs.Prelude.{◌≡◌, ℕ, ◌+◌, ◌*◌, ◌≤◌, ◌<◌, length, drop};
ghost use Rattle.index.specs.Mark.{mark_at, rows};
ghost use Rattle.index.specs.Order.{before};
ghost use Rattle.index.specs.Sort.{Rising, Sorted};
ghost use Rattle.index.specs.Code.{Mixed, Passed};

use crate::mark::{SIZE, mark_at, put_mark};
use crate::order::{key_text, sooner};

// Exchanges the marks of two numbers.
fn exchange(index: &mut [u8], i: usize, j: usize)
    requires { (i < j) × (13 * j + 13 ≤ length index.old) }
    ensures { (n : ℕ) → j < n → 13 * n ≤ length index.old → Mixed n index.old index.new }
{
    let a = mark_at(index, SIZE * i);
    let b = mark_at(index, SIZE * j);
    put_mark(index, SIZE * j, a);
    put_mark(index, SIZE * i, b);
}

// Whether the mark of number i comes before that of number j.
fn comes(image: &[u8], text: &[u8], index: &[u8], i: usize, j: usize) -> bool
    requires { (13 * i + 13 ≤ length index.now) × (13 * j + 13 ≤ length index.now) }
    ensures { result ≡ before image.now text.now (mark_at index.now (13 * i)) (mark_at index.now (13 * j)) }
{
    let a = mark_at(index, SIZE * i);
    let b = mark_at(index, SIZE * j);
    sooner(image, text, a, key_text(image, text, a.key), b)
}

// The leaf of the heap of the first n marks to which the later child leads each time, from number i on.
fn leaf(image: &[u8], text: &[u8], index: &[u8], n: usize, i: usize) -> usize
    requires { (13 * n ≤ length index.now) × (i < n) }
    ensures { result < n }
{
    let mut at = i;
    while at < n / 2 {
        let mut child = 2 * at + 1;
        if child + 1 < n && comes(image, text, index, child, child + 1) {
            child += 1;
        }
        at = child;
    }
    at
}

// From a leaf up towards number i: the place where the mark of number i belongs.
fn belongs(image: &[u8], text: &[u8], index: &[u8], n: usize, i: usize, from: usize) -> usize
    requires { (13 * n ≤ length index.now) × (i < n) × (from < n) }
    ensures { result < n }
{
    let mut at = from;
    while i < at && !comes(image, text, index, i, at) {
        at = (at - 1) / 2;
    }
    at
}

// The mark of number i goes down to where it belongs in the heap of the first n, and those on the way go up.
#[tactic(auto, using(crate::proofs::Sorting::mixed_same, crate::proofs::Sorting::mixed_then))]
fn settle(image: &[u8], text: &[u8], index: &mut [u8], n: usize, i: usize)
    requires { (13 * n ≤ length index.old) × (i < n) }
    ensures { (m : ℕ) → n ≤ m → 13 * m ≤ length index.old → Mixed m index.old index.new }
{
    let mut at = belongs(image, text, index, n, i, leaf(image, text, index, n, i));
    while i < at {
        exchange(index, i, at);
        at = (at - 1) / 2;
    }
}

// The heap of all, from which the last is taken each time.
#[tactic(auto, using(crate::proofs::Sorting::mixed_same, crate::proofs::Sorting::mixed_then))]
fn heap(image: &[u8], text: &[u8], index: &mut [u8], n: usize)
    requires { 13 * n ≤ length index.old }
    ensures { Mixed n index.old index.new }
{
    for k in (0..n / 2).rev() {
        settle(image, text, index, n, k);
    }
    for m in (1..n).rev() {
        exchange(index, 0, m);
        settle(image, text, index, m, 0);
    }
}

// The mark of number i goes back past those that it comes before.
fn sink(image: &[u8], text: &[u8], index: &mut [u8], n: usize, i: usize)
    requires { (13 * n ≤ length index.old) × (i < n) × Rising (before image.now text.now) i (rows n index.old) }
    ensures { Passed (before image.now text.now) n (i + 1) index.old index.new }
{
    let held = mark_at(index, SIZE * i);
    let key = key_text(image, text, held.key);
    let mut j = i;
    while 0 < j {
        let m = mark_at(index, SIZE * (j - 1));
        if !sooner(image, text, held, key, m) {
            break;
        }
        put_mark(index, SIZE * j, m);
        j -= 1;
    }
    put_mark(index, SIZE * j, held);
}

// Every mark in turn.
#[tactic(auto, using(crate::proofs::Sorting::mixed_same, crate::proofs::Sorting::mixed_then))]
fn pass(image: &[u8], text: &[u8], index: &mut [u8], n: usize)
    requires { 13 * n ≤ length index.old }
    ensures { Passed (before image.now text.now) n n index.old index.new }
{
    for i in 0..n {
        sink(image, text, index, n, i);
    }
}

pub(crate) fn sort(image: &[u8], text: &[u8], index: &mut [u8], n: usize)
    requires { 13 * n ≤ length index.old }
    ensures sorted { Sorted (before image.now text.now) (rows n index.old) (rows n index.new) }
    ensures index_unchanged { drop (13 * n) index.new ≡ drop (13 * n) index.old }
{
    heap(image, text, index, n);
    pass(image, text, index, n);
}
