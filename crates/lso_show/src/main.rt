// Shows an LSO file, an AMF packet or AMF0 values as lines that people can read: `lso_show FILE`, where `-` is standard input. A first word says what the input
// is: `lso`, `packet`, `entries` (a packet by entry) or `value` (values one behind the other); where there is none it is guessed. `lso_show get FILE KEY..`
// shows the one value of an LSO file, or of a lone value, to which the keys lead, and `lso_show json FILE` any of these as a JSON document.
#![tactic(auto)]

mod arguments;
mod as_json;
mod entries;
mod form;
mod get;
mod tree;
mod values;
mod wrong;

use amf0::read::parse_single_element;
use arguments::{Asked, WORD, word_at};
use as_json::as_json;
use entries::entries;
use faults::fault::{not_read, refused, refused_front};
use faults::field::{of_file, of_packet, of_value};
use figures::input::read_all;
use figures::page::{Page, end};
use form::{Form, Kind, guess, is_whole, why_unknown};
use get::get;
use image::reading::Reading;
use index::mark::SIZE;
use std::io::Write;
use std::rt::{Env, Runtime};
use std::{fs, io, str};
use tree::Tree;
use values::values;
use wire::answer::ACCEPTED;
use wire::limit::BYTES;
use wire::text::part;
use wrong::{in_element, not_right};

// One byte more than an input may have, so that a longer file is known for one.
const ASKED: usize = BYTES + 1;
// How many keys the index has room for: twice the image's length would be more than a stack of 8 MiB has beside the other buffers. A file has more keys only
// where an object has a key twice; else its pairs, with the ends of their objects, have four bytes each at least. There is one such buffer and no second: two
// would be too much, too.
const KEYS: usize = BYTES / 4;

fn usage(rt: &impl Print) -> io::Result<()> {
    println!(rt;
        "usage: lso_show [lso | packet | entries | value] FILE, lso_show get FILE [KEY..], or lso_show json [lso | packet | value] FILE"
    )
}

// A file's end that can't be read: what is wrong there, and where the reading ends before it.
fn unread(page: &mut impl Write, input: &[u8], image: &mut [u8], place: usize) -> io::Result<()> {
    let r = in_element(input, image, place);
    refused(page, input, input, of_file(), r, 0)?;
    if place <= input.len() {
        not_read(page, place, input.len() - place)?;
    }
    Ok(())
}

// A file is read as far as it can be: what can't be read stands behind the bytes used. The tree is shown, or the one value of it that is asked for.
fn file(
    page: &mut impl Write,
    env: &impl Env,
    form: Form,
    input: &[u8],
    image: &mut [u8],
    index: &mut [u8],
) -> io::Result<()> {
    let r = lso::read::parse_incomplete(input, image);
    if r.answer != ACCEPTED {
        return refused(page, input, input, of_file(), r, 0);
    }
    let t = Tree::of(input, image, r.made);
    match form {
        Form::Keys(end) => get(page, env, t, index, end)?,
        _ => t.show(page, 1)?,
    }
    if r.used < input.len() {
        unread(page, input, image, r.used)?;
    }
    Ok(())
}

// Bytes behind what was read: a whole reading refuses them.
fn packet(page: &mut impl Write, input: &[u8], image: &mut [u8]) -> io::Result<()> {
    let r = packet::read::parse_incomplete(input, image);
    if r.answer != ACCEPTED {
        return refused(page, input, input, of_packet(false), r, 0);
    }
    Tree::of(input, image, r.made).show(page, 2)?;
    if r.used < input.len() {
        refused(page, input, input, of_packet(false), not_right(r.used), 0)?;
    }
    Ok(())
}

// Keys lead into a lone value alone.
fn lone(input: &[u8], image: &mut [u8]) -> Reading {
    let r = parse_single_element(input, image);
    if r.answer == ACCEPTED && r.used < input.len() {
        not_right(r.used)
    } else {
        r
    }
}

fn in_value(
    page: &mut impl Write,
    env: &impl Env,
    input: &[u8],
    image: &mut [u8],
    index: &mut [u8],
    end: usize,
) -> io::Result<()> {
    let r = lone(input, image);
    if r.answer == ACCEPTED {
        get(page, env, Tree::of(input, image, r.made), index, end)
    } else {
        refused(page, input, input, of_value(0), r, 0)
    }
}

fn unknown(page: &mut impl Write, input: &[u8]) -> io::Result<()> {
    let (answer, why) = why_unknown(input);
    refused_front(page, input, why.as_bytes(), u8::from(answer))
}

// The keys lead into a file where the input is taken for a packet. The input and the two buffers are passed one by one, here and in as_json: of a struct that
// lends both buffers the borrow checker has no rule for reading one while the other is written.
fn show(
    page: &mut impl Write,
    env: &impl Env,
    a: Asked,
    input: &[u8],
    image: &mut [u8],
    index: &mut [u8],
) -> io::Result<()> {
    match (a.form, a.kind) {
        (Form::Json, _) => as_json(page, a.kind, input, image, index),
        (_, None) => unknown(page, input),
        (Form::Entries, _) => entries(page, input, image),
        (Form::Keys(end), Some(Kind::Values)) => in_value(page, env, input, image, index, end),
        (Form::Lines, Some(Kind::Values)) => values(page, input, image),
        (Form::Lines, Some(Kind::Packet)) => packet(page, input, image),
        (Form::Keys(_), _) | (_, Some(Kind::File)) => file(page, env, a.form, input, image, index),
    }
}

// What a guess took an input for, on standard error. The lines are shown all the same where nobody can be told.
fn told(rt: &impl Eprint, kind: Option<Kind>) {
    let what = match kind {
        Some(Kind::File) => "an LSO file",
        Some(Kind::Packet) => "an AMF packet",
        Some(Kind::Values) => "AMF0 values",
        None => "nothing that it knows",
    };
    let _ = eprintln!(rt;
        "lso_show: taken for {what}; a first word says otherwise: lso, packet, entries or value"
    );
}

// It is told of values, whose lines don't say it, and of what can't be read to its end.
fn is_told(kind: Option<Kind>, input: &[u8], image: &mut [u8]) -> bool {
    match kind {
        None => !input.is_empty(),
        Some(Kind::Values) => true,
        Some(kind) => !is_whole(kind, input, image),
    }
}

fn guessed(rt: &impl Eprint, form: Form, input: &[u8], image: &mut [u8]) -> Option<Kind> {
    let kind = guess(input, image);
    if form == Form::Lines && is_told(kind, input, image) {
        told(rt, kind);
    }
    kind
}

fn settled(rt: &impl Eprint, a: Asked, input: &[u8], image: &mut [u8]) -> Asked {
    match a.kind {
        Some(_) => a,
        None => Asked {
            kind: guessed(rt, a.form, input, image),
            ..a
        },
    }
}

// A page that is written out at the end. The index is of any length: so the proof makes no list of its bytes.
fn show_page<const N: usize>(
    rt: &impl Runtime,
    a: Asked,
    input: &[u8],
    image: &mut [u8],
    index: &mut [u8; N],
) -> io::Result<()> {
    let mut page = Page::onto(io::writer(rt));
    show(&mut page, rt, a, input, image, index)?;
    end(&mut page)
}

// Never in its caller's frame: where nothing is shown there is no index, and the stack has its room for the words.
#[inline(never)]
fn show_settled(rt: &impl Runtime, a: Asked, input: &[u8], image: &mut [u8]) -> io::Result<()> {
    let mut index = [0u8; SIZE * KEYS];
    show_page(rt, a, input, image, &mut index)
}

// Says on standard error why something can't be read. Behind an error's words std puts its number.
fn fail(rt: &impl Eprint, what: &str, error: io::Error) {
    let mut said = io::Cursor::new([0u8; 256]);
    let _ = write!(said, "{error}");
    if let Ok(text) = str::from_utf8(part(said.get_ref(), 0, said.position() as usize)) {
        let words = match text.split_once(" (") {
            Some((words, _)) => words,
            None => text,
        };
        let _ = eprintln!(rt; "{what}: {words}");
    }
}

fn read_file(rt: &impl Runtime, path: &str, buffer: &mut [u8]) -> io::Result<usize> {
    let mut file = fs::open(rt, path)?;
    read_all(&mut file, buffer)
}

// A file of the name `-` is `./-`.
fn read_path(rt: &impl Runtime, path: &str, buffer: &mut [u8]) -> Option<usize> {
    let (name, n) = if path == "-" {
        ("standard input", read_all(&mut rt.reader(), buffer))
    } else {
        (path, read_file(rt, path, buffer))
    };
    match n {
        Ok(n) => Some(n),
        Err(e) => {
            fail(rt, name, e);
            None
        }
    }
}

// Reads the file that an argument names: how many bytes it has. None where it can't be read, and why is said.
fn read_argument(rt: &impl Runtime, i: usize, buffer: &mut [u8]) -> Option<usize> {
    let mut word = [0u8; WORD];
    match word_at(rt, i, &mut word) {
        Ok(path) => read_path(rt, path, buffer),
        Err(e) => {
            fail(rt, "FILE", e);
            None
        }
    }
}

// The input's buffer has one byte more than a reader takes, which then says that there are too many. The buffers are of any length, as above.
fn show_argument<const N: usize, const M: usize>(
    rt: &impl Runtime,
    a: Asked,
    buffer: &mut [u8; N],
    image: &mut [u8; M],
) -> io::Result<()> {
    match read_argument(rt, a.file, buffer) {
        None => Ok(()),
        Some(n) => {
            let input = part(buffer, 0, n);
            let s = settled(rt, a, input, image);
            show_settled(rt, s, input, image)
        }
    }
}

fn main(rt: HostRuntime) -> io::Result<()> {
    let mut buffer = [0u8; ASKED];
    let mut image = [0u8; 3 * BYTES];
    match arguments::parse(&rt) {
        Some(a) => show_argument(&rt, a, &mut buffer, &mut image),
        None => usage(&rt),
    }
}
