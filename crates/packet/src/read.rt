// Reading a whole packet. The lengths that it declares are not looked at.
ghost use Rattle.std.specs.Prelude.{◌≡◌, ◌≤◌, length};
ghost use Rattle.wire.specs.Limit.{bytes};
ghost use Rattle.image.specs.Due.{run, ran, Within};
ghost use Rattle.image.specs.Whole.{padded};
ghost use Rattle.packet.specs.Reading.{record_of, entries_at, incomplete_of, whole_of};
ghost use Rattle.packet.specs.Code.{run_messages, Packed};

use crate::head::{Entry, HEADER, MESSAGE, front, head_at};
use amf0::read::parse_value;
use image::reading::{Reading, Step, finish, put};
use image::record::Record;
use wire::answer::Answer;
use wire::cursor::Cursor;
use wire::number::write_number;

// The record of an entry.
fn record_of(e: Entry) -> Record
    ensures { result ≡ record_of e }
{
    if e.kind == HEADER {
        Record::Header(e.place1, e.length1, e.flag == 1)
    } else {
        Record::Message(e.place1, e.length1, e.place2, e.length2)
    }
}

// n entries of a kind, each with its value.
fn parse_entries(image: &mut [u8], s: &[u8], kind: u8, start: Cursor, done: usize, n: u16) -> Step
    requires { (length s.now ≤ bytes) × (start.at ≤ length s.now) × (done ≤ length image.old) }
    ensures image_after { ran result image.new ≡ run (entries_at kind s.now n start.at) done image.old }
    ensures within { Within result start.at (length s.now) (length image.old) }
{
    let mut c = start;
    let mut made = done;
    for _ in 0..n {
        let (e, d) = head_at(s, kind, c)?;
        let (v, laid) = put(image, made, record_of(e), c.at, d)?;
        let (f, total) = parse_value(image, s, 0, v, laid)?;
        c = f;
        made = total;
    }
    Ok((c, made))
}

// The messages, behind the headers: their count goes into the packet's record, which stands first.
fn parse_messages(image: &mut [u8], s: &[u8], c: Cursor, made: usize) -> Step
    requires { (length s.now ≤ bytes) × (c.at ≤ length s.now) × (made ≤ length image.old) × (5 ≤ made) }
    ensures image_after { ran result image.new ≡ run_messages s.now c.at made image.old }
    ensures within { Within result c.at (length s.now) (length image.old) }
{
    let (m, d) = c.be_u16(s)?;
    write_number(image, 3, 2, m as u64);
    parse_entries(image, s, MESSAGE, d, made, m)
}

fn parse_packet(image: &mut [u8], s: &[u8]) -> Step
    ensures packed { Packed result image.new s.now image.old }
    ensures within { Within result 0 (length s.now) (length image.old) }
{
    let (h, d) = front(s)?;
    let (e, made) = put(image, 0, Record::Packet(h, 0), 0, d)?;
    let (f, total) = parse_entries(image, s, HEADER, e, made, h)?;
    parse_messages(image, s, f, total)
}

// Reads a packet at the front of an input.
pub fn parse_incomplete(input: &[u8], image: &mut [u8]) -> Reading
    ensures value { result ≡ (incomplete_of input.now (length image.old)).reading }
    ensures image_after { image.new ≡ padded (incomplete_of input.now (length image.old)).bytes (length image.old) }
{
    let step = parse_packet(image, input);
    finish(image, step)
}

// Reads a packet that is the whole input.
pub fn parse(input: &[u8], image: &mut [u8]) -> Reading
    ensures value { result ≡ (whole_of input.now (length image.old)).reading }
    ensures image_after { image.new ≡ padded (whole_of input.now (length image.old)).bytes (length image.old) }
{
    match parse_packet(image, input) {
        Err(r) => finish(image, Err(r)),
        Ok((c, made)) => {
            if c.at < input.len() {
                return finish(image, Answer::NotRight.refuse(c.at));
            }
            finish(image, Step::Ok((c, made)))
        }
    }
}
