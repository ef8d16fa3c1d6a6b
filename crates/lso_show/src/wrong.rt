// What is wrong where a reading ends.
use amf0::read::parse_value;
use image::reading::Reading;
use wire::answer::{Answer, Refusal};
use wire::cursor::Cursor;

// A refusal as the reading that it ends.
pub fn failed(r: Refusal) -> Reading {
    Reading {
        answer: u8::from(r.answer()),
        used: r.place(),
        made: 0,
    }
}

pub fn not_right(place: usize) -> Reading {
    failed(Answer::NotRight.at(place))
}

// The field that is wrong in an element of a file which can't be read.
pub fn in_element(input: &[u8], image: &mut [u8], at: usize) -> Reading {
    match (Cursor { at }).parse_string(input) {
        Err(r) => not_right(r.place()),
        Ok((_, c)) => match parse_value(image, input, 0, c, 0) {
            Err(r) => not_right(r.place()),
            // The zero behind the value.
            Ok((d, _)) => not_right(d.at),
        },
    }
}
