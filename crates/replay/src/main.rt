// Replays cases: reads frames from standard input until it ends, makes the call that each asks for, and prints a line for it.
//
// A frame is one byte of operation; two numbers, a and b; and two rows of bytes, each behind its length. Numbers and lengths have four bytes, the highest
// first. A line is decimal numbers and rows of bytes in lower-case hex, an empty row as `-`, with a space between them. A frame that the buffers can't
// hold prints `over`.
//
//     01  parse_single_element(first row, an image of a bytes)     answer used made image
//     02  write_value(image, text, an output of a bytes)           answer count output
//     03  lso parse(first row, an image of a bytes)                answer used made image
//     04  lso parse_incomplete, likewise
//     05  lso write_to_bytes(image, text, an output of a bytes)    answer count output
//     06  packet parse(first row, an image of a bytes)             answer used made image
//     07  packet parse_incomplete, likewise
//     08  packet write_to_bytes(image, text, an output of a bytes), with exact lengths where b is 1
//     09  cut(first row, a list of a entries, at most 4,096)        answer used count, and each entry of the list: its kind, flag, and place and
//                                                                  length of its first text, its second text and its value, with points between
//     0A  parse_entry(first row, number b, an image of a bytes)    answer used made image
//     0B  inside and part(first row, place a, length b)            0 or 1, the part
//     0C  make_index(image, text, an index of a bytes)             answer count index
//     0D  find(image, text, index, path), where the second row     1 place, or 0 0
//         is the index of a bytes, the path of b, and the text
//     0F  parse_span(first row, place b, a length that the second  answer used made image
//         row has in four bytes, an image of a bytes)
//     10  nth(first row, number b)                                 answer place, and the entry as in 09; zeros for the one that isn't there
//     20  put_numbers(the first row as the image, a bytes of       answer made image
//         which are made, five numbers that the second row has in
//         eight bytes each)
//
// Where a reading or a cut is refused, `used` is the place of the refusal. A second row of 0D, 0F or 20 that is too short prints `over` too.
#![tactic(auto)]

mod output;

ghost use Rattle.std.specs.Prelude.{◌<◌, ◌≤◌, IfOk};

use amf0::read::parse_single_element;
use amf0::write::write_value;
use image::building::{Laying, put_numbers};
use image::reading::Reading;
use image::writing::Writing;
use index::find::find;
use index::make::{Indexing, make_index};
use output::{row, word};
use packet::entry::{cut, nth, parse_entry, parse_span};
use packet::head::Entry;
use std::io;
use std::io::{ErrorKind, Read, Write};
use wire::answer::Refusal;
use wire::bytes::write_bytes;
use wire::cursor::Cursor;
use wire::limit::{BYTES, IMAGE};
use wire::text::part;

// What stands in every byte of a lent image before a reading, and of a lent index.
const UNREAD: u8 = 0xA5;
// And in every byte of a lent output before a writing.
const UNWRITTEN: u8 = 0x5A;

// A row that was read: its length, or that the buffer can't hold it. No Option: `read_row` gives one of rows, and None there is the input's end.
#[derive(Clone, Copy, Debug, PartialEq, Eq)]
enum Row {
    Held(usize),
    Over,
}

// Reads until the buffer is full, and says whether it is: an input that ends before has no more to read.
fn is_read(input: &mut impl Read, buffer: &mut [u8]) -> io::Result<bool> {
    match input.read_exact(buffer) {
        Ok(()) => Ok(true),
        Err(e) => {
            if e.kind() == ErrorKind::UnexpectedEof {
                Ok(false)
            } else {
                Err(e)
            }
        }
    }
}

// None where the input ends before; so with a row.
fn read_number(input: &mut impl Read) -> io::Result<Option<usize>> {
    let mut four = [0u8; 4];
    if is_read(input, &mut four)? {
        Ok(Some(u32::from_be_bytes(four) as usize))
    } else {
        Ok(None)
    }
}

// Reads some of the `left` bytes and drops them: how many are left then.
fn skip_some(input: &mut impl Read, left: usize) -> io::Result<usize>
    requires { 0 < left }
    ensures { IfOk result (λ n. n < left) }
{
    let mut chunk = [0u8; 65536];
    if left < 65536 {
        is_read(input, &mut chunk[..left])?;
        return Ok(0);
    }
    is_read(input, &mut chunk)?;
    Ok(left - 65536)
}

fn skip(input: &mut impl Read, n: usize) -> io::Result<()> {
    let mut left = n;
    while 0 < left {
        left = skip_some(input, left)?;
    }
    Ok(())
}

fn read_row(input: &mut impl Read, buffer: &mut [u8]) -> io::Result<Option<Row>> {
    let Some(n) = read_number(input)? else {
        return Ok(None);
    };
    if buffer.len() < n {
        skip(input, n)?;
        return Ok(Some(Row::Over));
    }
    if is_read(input, &mut buffer[..n])? {
        Ok(Some(Row::Held(n)))
    } else {
        Ok(None)
    }
}

// What a reading returned, and the image that it left.
fn tell_reading(lines: &mut impl Write, r: Reading, image: &[u8]) -> io::Result<()> {
    write!(lines, "{} {} {} ", r.answer, r.used, r.made)?;
    row(lines, image)?;
    word(lines, b"\n")
}

// What a writing returned, and the output that it left.
fn tell_writing(lines: &mut impl Write, w: Writing, out: &[u8]) -> io::Result<()> {
    write!(lines, "{} {} ", w.answer, w.count)?;
    row(lines, out)?;
    word(lines, b"\n")
}

// Makes a call that reads an input, on an image that is full of UNREAD.
fn read<F: FnOnce(&[u8], &mut [u8]) -> Reading>(
    lines: &mut impl Write,
    call: F,
    input: &[u8],
    image: &mut [u8],
) -> io::Result<()>
    requires { F.IsAlwaysCallable call }
{
    image.fill(UNREAD);
    let r = call(input, image);
    tell_reading(lines, r, image)
}

// Makes a call that writes an image, on an output that is full of UNWRITTEN.
fn write<F: FnOnce(&[u8], &[u8], &mut [u8]) -> Writing>(
    lines: &mut impl Write,
    call: F,
    image: &[u8],
    text: &[u8],
    out: &mut [u8],
) -> io::Result<()>
    requires { F.IsAlwaysCallable call }
{
    out.fill(UNWRITTEN);
    let w = call(image, text, out);
    tell_writing(lines, w, out)
}

// The value at a place of a packet; `length` has its length in four bytes.
fn read_span(
    lines: &mut impl Write,
    input: &[u8],
    place: usize,
    length: &[u8],
    image: &mut [u8],
) -> io::Result<()> {
    match (Cursor { at: 0 }).be_u32(length) {
        Ok((n, _)) => read(
            lines,
            |s, i| parse_span(s, place, n as usize, i),
            input,
            image,
        ),
        Err(_) => word(lines, b"over\n"),
    }
}

// An entry that no packet has.
fn unread_entry() -> Entry {
    Entry {
        kind: UNREAD,
        flag: UNREAD,
        place1: 0xA5A5A5A5,
        length1: 0xA5A5A5A5,
        place2: 0xA5A5A5A5,
        length2: 0xA5A5A5A5,
        place: 0xA5A5A5A5,
        length: 0xA5A5A5A5,
    }
}

fn tell_entry(lines: &mut impl Write, e: Entry) -> io::Result<()> {
    write!(lines, " {}.{}", e.kind, e.flag)?;
    write!(
        lines,
        ".{}.{}.{}.{}",
        e.place1, e.length1, e.place2, e.length2
    )?;
    write!(lines, ".{}.{}", e.place, e.length)
}

// The cut of a packet into a list, and all that the list holds then.
fn cut_into(lines: &mut impl Write, input: &[u8], list: &mut [Entry]) -> io::Result<()> {
    let r = cut(input, list);
    write!(lines, "{} {} {}", r.answer, r.used, r.count)?;
    for e in list.iter() {
        tell_entry(lines, *e)?;
    }
    word(lines, b"\n")
}

// A list of n entries.
fn cut_packet(lines: &mut impl Write, input: &[u8], n: usize) -> io::Result<()>
    requires { n ≤ 4096 }
{
    let z = unread_entry();
    let mut list = [z; 4096];
    cut_into(lines, input, &mut list[..n])
}

fn tell_found(lines: &mut impl Write, found: Result<Entry, Refusal>) -> io::Result<()> {
    match found {
        Ok(e) => {
            word(lines, b"0 0")?;
            tell_entry(lines, e)?;
        }
        Err(r) => write!(
            lines,
            "{} {} 0.0.0.0.0.0.0.0",
            u8::from(r.answer()),
            r.place()
        )?,
    }
    word(lines, b"\n")
}

fn name_text(lines: &mut impl Write, input: &[u8], place: usize, length: usize) -> io::Result<()> {
    if wire::text::inside(input, place, length) {
        word(lines, b"1 ")?;
    } else {
        word(lines, b"0 ")?;
    }
    row(lines, wire::text::part(input, place, length))?;
    word(lines, b"\n")
}

// What an indexing returned, and the index that it left.
fn tell_indexing(lines: &mut impl Write, r: Indexing, index: &[u8]) -> io::Result<()> {
    write!(lines, "{} {} ", r.answer, r.count)?;
    row(lines, index)?;
    word(lines, b"\n")
}

fn index_keys(
    lines: &mut impl Write,
    image: &[u8],
    text: &[u8],
    index: &mut [u8],
) -> io::Result<()> {
    index.fill(UNREAD);
    tell_indexing(lines, make_index(image, text, index), index)
}

fn tell_way(lines: &mut impl Write, way: Option<usize>) -> io::Result<()> {
    match way {
        Some(place) => writeln!(lines, "1 {place}"),
        None => word(lines, b"0 0\n"),
    }
}

// The way that an index of a bytes finds for a path of b bytes. They stand in `rows` behind one another, and the text behind them.
fn find_path(
    lines: &mut impl Write,
    image: &[u8],
    rows: &[u8],
    a: usize,
    b: usize,
) -> io::Result<()> {
    if rows.len() < a {
        return word(lines, b"over\n");
    }
    let rest = part(rows, a, rows.len() - a);
    if rest.len() < b {
        return word(lines, b"over\n");
    }
    let text = part(rest, b, rest.len() - b);
    tell_way(lines, find(image, text, part(rows, 0, a), part(rest, 0, b)))
}

// What laying a record returned, and the image that it left.
fn tell_laying(lines: &mut impl Write, l: Laying, image: &[u8]) -> io::Result<()> {
    write!(lines, "{} {} ", l.answer, l.made)?;
    row(lines, image)?;
    word(lines, b"\n")
}

// The number in eight bytes at a place; 0 where it is not whole.
fn wide_at(row: &[u8], at: usize) -> u64 {
    match (Cursor { at }).be_u64(row) {
        Ok((n, _)) => n,
        Err(_) => 0,
    }
}

// Lays a record by its numbers, in eight bytes each, into a copy of an image of which so many bytes are made.
fn put_copy(
    lines: &mut impl Write,
    before: &[u8],
    made: usize,
    numbers: &[u8],
    image: &mut [u8],
) -> io::Result<()> {
    write_bytes(image, 0, before);
    let fields = [
        wide_at(numbers, 0),
        wide_at(numbers, 8),
        wide_at(numbers, 16),
        wide_at(numbers, 24),
        wide_at(numbers, 32),
    ];
    let laid = put_numbers(image, made, &fields);
    tell_laying(lines, laid, image)
}

fn put_record(
    lines: &mut impl Write,
    before: &[u8],
    made: usize,
    numbers: &[u8],
    room: &mut [u8],
) -> io::Result<()> {
    let n = before.len();
    if numbers.len() < 40 {
        word(lines, b"over\n")
    } else if n <= room.len() {
        put_copy(lines, before, made, numbers, &mut room[..n])
    } else {
        word(lines, b"over\n")
    }
}

// Makes a call on a buffer of the asked length. The rows and the buffer come from three buffers of
// `frames`: a struct of them would be filled in `answer` only to be taken apart here.
fn call(
    lines: &mut impl Write,
    operation: u8,
    b: usize,
    first: &[u8],
    second: &[u8],
    buffer: &mut [u8],
) -> io::Result<()> {
    match operation {
        0x01 => read(lines, parse_single_element, first, buffer),
        0x02 => write(lines, write_value, first, second, buffer),
        0x03 => read(lines, lso::read::parse, first, buffer),
        0x04 => read(lines, lso::read::parse_incomplete, first, buffer),
        0x05 => write(lines, lso::write::write_to_bytes, first, second, buffer),
        0x06 => read(lines, packet::read::parse, first, buffer),
        0x07 => read(lines, packet::read::parse_incomplete, first, buffer),
        0x08 => write(
            lines,
            |image, text, out| packet::write::write_to_bytes(image, text, b == 1, out),
            first,
            second,
            buffer,
        ),
        0x0A => read(lines, |s, i| parse_entry(s, b, i), first, buffer),
        0x0C => index_keys(lines, first, second, buffer),
        0x0F => read_span(lines, first, b, second, buffer),
        0x10 => tell_found(lines, nth(first, b)),
        _ => word(lines, b"no such operation\n"),
    }
}

// Makes the call of a frame whose rows are held.
fn answer(
    lines: &mut impl Write,
    operation: u8,
    a: usize,
    b: usize,
    first: &[u8],
    second: &[u8],
    room: &mut [u8],
) -> io::Result<()> {
    if operation == 0x0B {
        name_text(lines, first, a, b)
    } else if operation == 0x0D {
        find_path(lines, first, second, a, b)
    } else if operation == 0x20 {
        put_record(lines, first, a, second, room)
    } else if operation == 0x09 {
        if a <= 4096 {
            cut_packet(lines, first, a)
        } else {
            word(lines, b"over\n")
        }
    } else if a <= room.len() {
        call(lines, operation, b, first, second, &mut room[..a])
    } else {
        word(lines, b"over\n")
    }
}

// Replays one frame, and says whether there was one.
fn frame(
    input: &mut impl Read,
    lines: &mut impl Write,
    first: &mut [u8],
    second: &mut [u8],
    room: &mut [u8],
) -> io::Result<bool> {
    let mut one = [0u8; 1];
    if !is_read(input, &mut one)? {
        return Ok(false);
    }
    let operation = one[0];
    let Some(a) = read_number(input)? else {
        return Ok(false);
    };
    let Some(b) = read_number(input)? else {
        return Ok(false);
    };
    let left = read_row(input, first)?;
    let right = read_row(input, second)?;
    match (left, right) {
        (None, _) => return Ok(false),
        (Some(Row::Over), _) => word(lines, b"over\n")?,
        (_, None) => return Ok(false),
        (_, Some(Row::Over)) => word(lines, b"over\n")?,
        (Some(Row::Held(n)), Some(Row::Held(m))) => answer(
            lines,
            operation,
            a,
            b,
            part(first, 0, n),
            part(second, 0, m),
            room,
        )?,
    }
    Ok(true)
}

// A proved loop has to end, and nothing says that an input does: the turns are more than any run has.
fn frames(
    input: &mut impl Read,
    lines: &mut impl Write,
    first: &mut [u8],
    second: &mut [u8],
    room: &mut [u8],
) -> io::Result<()> {
    for _ in 0..u64::MAX {
        if !frame(input, lines, first, second, room)? {
            break;
        }
    }
    lines.flush()
}

// The frames in buffers of any lengths: so the proof makes no list of theirs.
fn replay<const N: usize, const M: usize>(
    input: &mut impl Read,
    lines: &mut impl Write,
    first: &mut [u8; N],
    second: &mut [u8; M],
    room: &mut [u8; N],
) -> io::Result<()> {
    frames(input, lines, first, second, room)
}

fn main(rt: HostRuntime) -> io::Result<()> {
    let mut input = rt.stdin();
    let mut lines = rt.stdout();
    let mut first = [0u8; IMAGE + 1];
    let mut second = [0u8; BYTES + 1];
    let mut room = [0u8; IMAGE + 1];
    replay(&mut input, &mut lines, &mut first, &mut second, &mut room)
}
