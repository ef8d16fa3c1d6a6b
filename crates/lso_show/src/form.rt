// What an input is to be read as, and how it is shown: words say so, or what it is is guessed.
use amf0::read::parse_value;
use wire::answer::{ACCEPTED, Answer};
use wire::cursor::Cursor;

// The last marker that AMF0 has. The readers take any above it for a value that is unsupported; no input is guessed to be values by such.
const LAST_MARKER: u8 = 0x11;

// What an input is.
#[derive(Clone, Copy, PartialEq, Eq)]
pub enum Kind {
    File,
    Packet,
    // Values one behind the other.
    Values,
}

// How it is shown.
#[derive(Clone, Copy, PartialEq, Eq)]
pub enum Form {
    Lines,
    // A packet by its entries.
    Entries,
    // One value of a file or of a lone value: the arguments from the third on, up to a number, are the keys that lead to it.
    Keys(usize),
    // A JSON document.
    Json,
}

// The kind that a word says.
pub fn kind_of(word: &str) -> Option<Kind> {
    match word {
        "lso" => Some(Kind::File),
        "packet" => Some(Kind::Packet),
        "value" => Some(Kind::Values),
        _ => None,
    }
}

// A value begins with its marker.
fn by_front(input: &[u8]) -> Option<Kind> {
    match input {
        [0x00, 0xBF, ..] => Some(Kind::File),
        // AMF0, or AMF3.
        [0x00, 0x00 | 0x03, ..] => Some(Kind::Packet),
        [0..=LAST_MARKER, ..] => Some(Kind::Values),
        _ => None,
    }
}

// Whether an input is values to its end, each with a marker that AMF0 has. A value has one byte at least.
fn are_values(input: &[u8], image: &mut [u8]) -> bool {
    let mut c = Cursor { at: 0 };
    for _ in 0..input.len() {
        let Some(marker) = input.get(c.at) else {
            return true;
        };
        if LAST_MARKER < *marker {
            return false;
        }
        let Ok((next, _)) = parse_value(image, input, 0, c, 0) else {
            return false;
        };
        c = next;
    }
    true
}

// Whether the whole of an input can be read as a kind.
pub fn is_whole(kind: Kind, input: &[u8], image: &mut [u8]) -> bool {
    match kind {
        Kind::File => lso::read::parse(input, image).answer == ACCEPTED,
        Kind::Packet => packet::read::parse(input, image).answer == ACCEPTED,
        Kind::Values => are_values(input, image),
    }
}

// The bytes that begin a file or a packet can begin a number, too: where the first can't be read to the end and values can, it is values.
pub fn guess(input: &[u8], image: &mut [u8]) -> Option<Kind> {
    let kind = by_front(input)?;
    if is_whole(kind, input, image) || !are_values(input, image) {
        Some(kind)
    } else {
        Some(Kind::Values)
    }
}

// Why an input is of no kind.
pub fn why_unknown(input: &[u8]) -> (Answer, &'static str) {
    if input.is_empty() {
        (Answer::NotWhole, "the input is empty")
    } else {
        (
            Answer::NotRight,
            "no LSO file, AMF packet or AMF0 value begins so",
        )
    }
}
