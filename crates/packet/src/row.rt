// The entries of a packet as a row of numbers, eight an entry: a C program cannot lend a list of entries.
ghost use Rattle.std.specs.Prelude.{◌≡◌, ◌++◌, ◌+◌, ◌-◌, ◌/◌, ◌≤◌, length, take, drop, replicate};
ghost use Rattle.packet.specs.Entry.{list_of};
ghost use Rattle.packet.specs.Row.{entry_numbers, row_of};

use crate::entry::{Cutting, counted};
use crate::head::Entry;
use crate::walk::begin;

// The numbers of an entry: for the layers above.
impl From<Entry> for [usize; 8] {
    ghost from_gives = { λ e n. n ≡ entry_numbers e };

    fn from(e: Entry) -> [usize; 8] {
        [
            e.kind as usize,
            e.flag as usize,
            e.place1,
            e.length1,
            e.place2,
            e.length2,
            e.place,
            e.length,
        ]
    }
}

// An entry's numbers, from a place on.
fn put(row: &mut [usize], at: usize, e: Entry)
    requires { at + 8 ≤ length row.old }
    ensures { row.new ≡ take at row.old ++ entry_numbers e ++ drop (at + 8) row.old }
{
    row[at..at + 8].copy_from_slice(&<[usize; 8]>::from(e));
}

// Zeros from a place on.
fn clear(row: &mut [usize], from: usize)
    ensures { row.new ≡ take from row.old ++ replicate (length row.old - from) 0 }
{
    if from < row.len() {
        row[from..].fill(0);
    }
}

// The cut of a packet, as `entry::cut` makes it in a list of as many entries as the row has room for. What the last of them leaves free is zeros too.
pub fn cut(packet: &[u8], row: &mut [usize]) -> Cutting
    ensures value { result ≡ (list_of packet.now (length row.old / 8)).cutting }
    ensures row_after { row.new ≡ row_of (list_of packet.now (length row.old / 8)).entries (length row.old) }
{
    let room = row.len() / 8;
    let mut w = begin(packet);
    let mut n = 0;
    // By number: over chunks of eight the invariant would have to say besides how the chunks lie in the row. And the store is all that differs from
    // `entry::cut`: as a closure it would bring an invariant of its own, and be longer than this loop.
    while n < room {
        let Some(e) = w.next(packet) else {
            break;
        };
        put(row, 8 * n, e);
        n += 1;
    }
    let r = counted(packet, w, n);
    clear(row, 8 * r.count);
    r
}
