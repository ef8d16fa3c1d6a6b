// What the arguments ask for.
use crate::form::{Form, Kind, kind_of};
use std::env::FillError;
use std::io::ErrorKind;
use std::rt::Env;
use std::{io, str};

// How long an argument may be that names a file or says what it is.
pub const WORD: usize = 4096;
// What Linux says of a name that is too long.
const NAME_TOO_LONG: i32 = 36;

// How a file is to be shown, what it is to be read as, where it is not to be guessed, and the number of the argument that names it.
#[derive(Clone, Copy)]
pub struct Asked {
    pub form: Form,
    pub kind: Option<Kind>,
    pub file: usize,
}

// An argument as text; an error where it is longer than the buffer, or no text.
pub fn word_at<'a>(env: &impl Env, i: usize, buffer: &'a mut [u8]) -> io::Result<&'a str> {
    match env.arg(i, buffer) {
        Ok(n) => match str::from_utf8(&buffer[..n]) {
            Ok(word) => Ok(word),
            Err(_) => Err(io::Error::from(ErrorKind::InvalidFilename)),
        },
        Err(_) => Err(io::Error::from_raw_os_error(NAME_TOO_LONG)),
    }
}

// How many arguments there are, with the program's name.
fn arg_count(env: &impl Env) -> usize {
    let mut none = [0u8; 0];
    for i in 0..usize::MAX {
        if let Err(FillError::NotPresent) = env.arg(i, &mut none) {
            return i;
        }
    }
    usize::MAX
}

fn guessed(form: Form, file: usize) -> Asked {
    Asked {
        form,
        kind: None,
        file,
    }
}

// The kind that the second word says.
fn second_kind(env: &impl Env) -> Option<Kind> {
    let mut buffer = [0u8; WORD];
    kind_of(word_at(env, 2, &mut buffer).ok()?)
}

// Of so many arguments.
fn json(env: &impl Env, count: usize) -> Option<Asked> {
    match count {
        3 => Some(guessed(Form::Json, 2)),
        4 => Some(Asked {
            form: Form::Json,
            kind: Some(second_kind(env)?),
            file: 3,
        }),
        _ => None,
    }
}

// A word and a file.
fn as_said(word: &str) -> Option<Asked> {
    let (form, kind) = match word {
        "entries" => (Form::Entries, Kind::Packet),
        _ => (Form::Lines, kind_of(word)?),
    };
    Some(Asked {
        form,
        kind: Some(kind),
        file: 2,
    })
}

// Without keys `get` asks for the whole input.
fn by_word(env: &impl Env, word: &str, count: usize) -> Option<Asked> {
    match word {
        "json" => json(env, count),
        "get" if count == 3 => Some(guessed(Form::Lines, 2)),
        "get" => Some(guessed(Form::Keys(count), 2)),
        _ if count == 3 => as_said(word),
        _ => None,
    }
}

pub fn parse(env: &impl Env) -> Option<Asked> {
    match arg_count(env) {
        0 | 1 => None,
        2 => Some(guessed(Form::Lines, 1)),
        count => {
            let mut buffer = [0u8; WORD];
            by_word(env, word_at(env, 1, &mut buffer).ok()?, count)
        }
    }
}
