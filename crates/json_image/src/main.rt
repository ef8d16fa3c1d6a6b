// Prints the value that an image holds as JSON: reads the image's length in four bytes, the image, and the text that its texts stand in. So what no reading
// makes is tried, too: values without a key, and dates without a zone.
#![tactic(auto)]

use figures::input::read_all;
use figures::page::{Page, end, word};
use index::make::make_index;
use std::io;
use std::io::Write;
use to_json::tree::tree;
use wire::answer::{ACCEPTED, Answer};
use wire::cursor::Cursor;
use wire::text::part;

// How many bytes are read at most.
const ROOM: usize = 65_536;

fn value(page: &mut impl Write, image: &[u8], text: &[u8], index: &mut [u8]) -> io::Result<()> {
    let made = make_index(image, text, index);
    if made.answer == ACCEPTED {
        tree(page, text, image, Some(index), 0)?;
    } else if made.answer == u8::from(Answer::NoRoom) {
        tree(page, text, image, None, 0)?;
    } else {
        word(page, b"no tree")?;
    }
    word(page, b"\n")?;
    end(page)
}

// The text is what stands behind the image.
fn behind(row: &[u8], place: usize, length: usize) -> &[u8] {
    row.get(place..)
        .and_then(|rest| rest.get(length..))
        .unwrap_or_default()
}

fn show(page: &mut impl Write, row: &[u8], index: &mut [u8]) -> io::Result<()> {
    if let Ok((n, c)) = (Cursor { at: 0 }).be_u32(row) {
        let length = n as usize;
        value(
            page,
            part(row, c.at, length),
            behind(row, c.at, length),
            index,
        )?;
    }
    Ok(())
}

// The index has room for 64 keys: past those, objects are told as lists of their pairs.
fn main(rt: HostRuntime) -> io::Result<()> {
    let mut page = Page::onto(rt.stdout());
    let mut row = [0u8; ROOM];
    let mut index = [0u8; 832];
    let n = read_all(&mut rt.stdin(), &mut row)?;
    show(&mut page, part(&row, 0, n), &mut index)
}
