// A walk over the entries of a packet, by the lengths that they declare. It looks into a value only where its length is not known.
ghost use Rattle.std.specs.Prelude.{◌≡◌, true, suc, ◌-◌, ◌≤◌, ◌<◌, length};
ghost use Rattle.packet.specs.Entry.{◌thence◌, walk, measured_at, entry_at, end_at, messages_from, strict, cut_of};
ghost use Rattle.packet.specs.Code.{behind, goes_on, rest_of, left_of, past, first_of, end_of};

use crate::head::{Entry, HEADER, Head, MESSAGE, UNKNOWN, front, head_at};
use amf0::read::measure;
use wire::answer::{Answer, Refusal};
use wire::cursor::Cursor;

// How far a walk has come: to an entry of a kind at a cursor, with so many more of that kind behind it; to the packet's end; or it is refused. A Result of
// Options would say no more of a state that is stepped on, and `rest_of` would take it apart twice.
#[derive(Clone, Copy, Debug, PartialEq, Eq)]
pub enum Walk {
    At(u8, u16, Cursor),
    End(usize),
    Stop(Refusal),
}

// An entry whose value begins at a cursor and has a length that is not known: the value is read where it stands.
fn measured(s: &[u8], e: Entry, c: Cursor) -> Head
    ensures { result ≡ measured_at s.now e c.at }
{
    let at = c.at;
    let d = measure(s, 0, c)?;
    Ok((
        Entry {
            length: d.at - at,
            ..e
        },
        d,
    ))
}

// The entry at a cursor, and the cursor behind its value: for the layers above.
#[tactic(auto, unfolding(crate::specs::Entry::entry_at), using(crate::proofs::Laws::head_within))]
pub fn entry_at(s: &[u8], kind: u8, c: Cursor) -> Head
    ensures { result ≡ entry_at kind s.now c.at }
{
    let (e, d) = head_at(s, kind, c)?;
    let n = e.length;
    let at = d.at;
    if n == UNKNOWN {
        return measured(s, e, d);
    }
    if n <= s.len() - at {
        Ok((e, Cursor { at: at + n }))
    } else {
        // The length field, four bytes before the value.
        Answer::NotWhole.refuse(at - 4)
    }
}

// Behind the last message the packet must end.
fn end(s: &[u8], c: Cursor) -> Walk
    ensures result_value { rest_of s.now result ≡ end_at s.now c.at }
    ensures result_bound { left_of s.now result ≤ suc (length s.now - c.at) }
{
    if c.at < s.len() {
        return Walk::Stop(Answer::NotRight.at(c.at));
    }
    Walk::End(c.at)
}

// Behind the last header stands the count of messages.
#[tactic(auto, using(crate::proofs::Laws::walk_none, amf0::proofs::Parts::ends16))]
fn messages(s: &[u8], c: Cursor) -> Walk
    ensures result_value { rest_of s.now result ≡ messages_from s.now c.at }
    ensures result_bound { left_of s.now result ≤ suc (length s.now - c.at) }
{
    match c.be_u16(s) {
        Err(r) => Walk::Stop(r),
        Ok((m, d)) => {
            if 0 < m {
                return Walk::At(MESSAGE, m - 1, d);
            }
            end(s, d)
        }
    }
}

// A walk with n entries of a kind left to it.
#[tactic(auto, using(crate::proofs::Laws::walk_none))]
fn onward(s: &[u8], kind: u8, n: u16, c: Cursor) -> Walk
    ensures result_value { rest_of s.now result ≡ walk kind s.now n c.at thence behind kind s.now }
    ensures result_bound { left_of s.now result ≤ suc (length s.now - c.at) }
{
    if 0 < n {
        return Walk::At(kind, n - 1, c);
    }
    if kind == HEADER {
        return messages(s, c);
    }
    end(s, c)
}

// A walk at the first entry.
#[tactic(auto, unfolding(crate::specs::Entry::cut_of))]
pub(crate) fn begin(packet: &[u8]) -> Walk
    ensures { strict (rest_of packet.now result) ≡ cut_of packet.now }
{
    match front(packet) {
        Err(r) => Walk::Stop(r),
        Ok((h, d)) => onward(packet, HEADER, h, d),
    }
}

impl Walk {
    // The entry that a walk has come to, which it passes. Where there is none, it stays or is stopped.
    pub(crate) fn next(&mut self, s: &[u8]) -> Option<Entry>
        ensures result_value { result ≡ first_of (rest_of s.now self.old).entries }
        ensures walk_value { rest_of s.now self.new ≡ past 1 (rest_of s.now self.old) }
        ensures walk_bound { goes_on self.old ≡ true → left_of s.now self.new < left_of s.now self.old }
    {
        match *self {
            Walk::At(kind, more, c) => match entry_at(s, kind, c) {
                Err(r) => {
                    *self = Walk::Stop(r);
                    None
                }
                Ok((e, d)) => {
                    *self = onward(s, kind, more, d);
                    Some(e)
                }
            },
            Walk::End(_) | Walk::Stop(_) => None,
        }
    }
}

// Walks past the first n entries, or as many as there are.
pub(crate) fn skip(s: &[u8], w: &mut Walk, n: usize)
    ensures { rest_of s.now w.new ≡ past n (rest_of s.now w.old) }
{
    for _ in 0..n {
        if w.next(s).is_none() {
            return;
        }
    }
}

// Walks to the end, and tells its place.
pub(crate) fn run_out(s: &[u8], start: Walk) -> Result<usize, Refusal>
    ensures { result ≡ end_of (rest_of s.now start).ending }
{
    let mut w = start;
    loop {
        match w {
            Walk::End(z) => return Ok(z),
            Walk::Stop(r) => return Err(r),
            Walk::At(_, _, _) => {
                w.next(s);
            }
        }
    }
}
