// Reading by entry: the cut by the entries' lengths, as a list or by the number of an entry, and the value of an entry.
ghost use Rattle.std.specs.Prelude.{◌≡◌, ◌++◌, ◌+◌, ◌-◌, ◌≤◌, length, take, replicate};
ghost use Rattle.wire.specs.Limit.{bytes};
ghost use Rattle.image.specs.Whole.{padded};
ghost use Rattle.packet.specs.Entry.{strict, cut_of, no_entry, list_of, filled, read_span, read_entry, found_in};
ghost use Rattle.packet.specs.Code.{rest_of, refused_cut, counted_in, judged_of};

use crate::head::Entry;
use crate::walk::{Walk, begin, run_out, skip};
use amf0::read::parse_value;
use image::reading::{Reading, Step, finish};
use wire::answer::{ACCEPTED, Answer, Refusal};
use wire::cursor::Cursor;
use wire::limit;
use wire::text::inside;

// What a cut returns: the answer, the bytes of the packet, or on a refusal the place, and the number of its entries. C has these numbers.
#[derive(Clone, Copy, Debug, PartialEq, Eq)]
pub struct Cutting {
    pub answer: u8,
    pub used: usize,
    pub count: usize,
}

// An entry that was looked for; or its number is past the entries, or the cut's refusal.
pub type Found = Result<Entry, Refusal>;

// Entry `number` of a packet that its lengths cut exactly.
pub fn nth(packet: &[u8], number: usize) -> Found
    ensures { result ≡ found_in (cut_of packet.now) number }
{
    let mut w = begin(packet);
    skip(packet, &mut w, number);
    let e = w.next(packet);
    run_out(packet, w)?;
    e.ok_or(Answer::NoEntry.at(0))
}

fn uncut(r: Refusal) -> Cutting
    ensures { result ≡ refused_cut r.answer r.place }
{
    Cutting {
        answer: u8::from(r.answer()),
        used: r.place(),
        count: 0,
    }
}

// The end of a cut, of which n entries are in the list: if there are more, the list is too short, but the cut's own refusal comes first.
pub(crate) fn counted(packet: &[u8], w: Walk, n: usize) -> Cutting
    ensures { result ≡ counted_in (rest_of packet.now w) n }
{
    let mut w = w;
    let left = w.next(packet).is_some();
    match run_out(packet, w) {
        Err(r) => uncut(r),
        Ok(_) if left => uncut(Answer::NoRoom.at(0)),
        Ok(z) => Cutting {
            answer: ACCEPTED,
            used: z,
            count: n,
        },
    }
}

// Zero entries from a place on. One such function over any type, for image and row too, would ask of it that a `clone` never fails: `fill` does.
pub(crate) fn clear(list: &mut [Entry], from: usize)
    ensures { list.new ≡ take from list.old ++ replicate (length list.old - from) no_entry }
{
    if from < list.len() {
        list[from..].fill(Entry::default());
    }
}

// The entries of a packet that its lengths cut exactly, headers first, and zero entries behind them; on a refusal zero entries alone.
pub fn cut(packet: &[u8], list: &mut [Entry]) -> Cutting
    ensures value { result ≡ (list_of packet.now (length list.old)).cutting }
    ensures list_after { list.new ≡ filled (list_of packet.now (length list.old)).entries (length list.old) }
{
    let mut w = begin(packet);
    let mut n = 0;
    for place in list.iter_mut() {
        let Some(e) = w.next(packet) else {
            break;
        };
        *place = e;
        n += 1;
    }
    let r = counted(packet, w, n);
    clear(list, r.count);
    r
}

// What the value reader's step in an entry's span means: 2, 3 and unused bytes are damage, 4 and 5 stand.
fn judged(x: Step, base: usize, length: usize) -> Step
    requires { base + length ≤ bytes }
    ensures { result ≡ judged_of x base length }
{
    match x {
        Err(r) => match r.answer() {
            Answer::NotWhole | Answer::NotRight => Answer::Damaged.refuse(r.place()),
            _ => Err(r),
        },
        Ok((c, made)) => {
            if c.at < length {
                Answer::Damaged.refuse(base + c.at)
            } else {
                Ok((c, made))
            }
        }
    }
}

// Reads the value that stands in a part of a packet, as that part alone; its places count from the packet's start. Where the part is the value of an entry of
// a cut, this reads that entry and does not cut again.
#[tactic(auto, unfolding(crate::specs::Entry::read_span))]
pub fn parse_span(packet: &[u8], place: usize, size: usize, image: &mut [u8]) -> Reading
    ensures value { result ≡ (read_span packet.now place size (length image.old)).reading }
    ensures image_after { image.new ≡ padded (read_span packet.now place size (length image.old)).bytes (length image.old) }
{
    if limit::BYTES < packet.len() {
        return finish(image, Answer::OverLimit.refuse(0));
    }
    if inside(packet, place, size) {
        let to = place + size;
        let part = &packet[place..to];
        let x = parse_value(image, part, place, Cursor { at: 0 }, 0);
        finish(image, judged(x, place, part.len()))
    } else {
        finish(image, Answer::NoEntry.refuse(0))
    }
}

// Reads the value of entry `number` of a packet.
pub fn parse_entry(packet: &[u8], number: usize, image: &mut [u8]) -> Reading
    ensures value { result ≡ (read_entry packet.now number (length image.old)).reading }
    ensures image_after { image.new ≡ padded (read_entry packet.now number (length image.old)).bytes (length image.old) }
{
    match nth(packet, number) {
        Err(r) => finish(image, Err(r)),
        Ok(e) => parse_span(packet, e.place, e.length, image),
    }
}
