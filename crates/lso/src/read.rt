// Reading a file.
ghost use Rattle.std.specs.Prelude.{◌≡◌, ◌+◌, ◌≤◌, [], ◌∷◌, length};
ghost use Rattle.wire.specs.Limit.{bytes};
ghost use Rattle.wire.specs.Field.{tag_at};
ghost use Rattle.image.specs.Due.{run, ran, Within};
ghost use Rattle.image.specs.Whole.{finished, padded};
ghost use Rattle.lso.specs.Reading.{zeros_at, header_at, element_at, body_at, incomplete_of, whole_of};
ghost use Rattle.lso.specs.Code.{run_body, run_file};

use amf0::read::parse_value;
use image::reading::{Reading, Step, finish, put};
use image::record::Record;
use wire::answer::{Answer, Refusal};
use wire::cursor::Cursor;
use wire::limit;

fn zero(s: &[u8], c: Cursor) -> Result<Cursor, Refusal>
    ensures { result ≡ tag_at (0 ∷ []) s.now c.at }
{
    c.tag(s, b"\x00")
}

// n bytes of zero, each a field.
#[tactic(auto, unfolding(crate::specs::Reading::zeros_at))]
fn zeros(s: &[u8], start: Cursor, n: u8) -> Result<Cursor, Refusal>
    ensures { result ≡ zeros_at n s.now start.at }
{
    let mut c = start;
    for _ in 0..n {
        c = zero(s, c)?;
    }
    Ok(c)
}

#[tactic(auto, unfolding(crate::specs::Reading::header_at, image::specs::Due::run))]
fn parse_header(image: &mut [u8], s: &[u8]) -> Step
    ensures image_after { ran result image.new ≡ run (header_at s.now) 0 image.old }
    ensures within { Within result 0 (length s.now) (length image.old) }
{
    let c = Cursor { at: 0 };
    let d = c.tag(s, b"\x00\xBF")?;
    let (stored, e) = d.be_u32(s)?;
    let f = e.tag(s, b"TCSO\x00\x04\x00\x00\x00\x00")?;
    let (name, g) = f.parse_string(s)?;
    // Three bytes of padding, and the version.
    let h = zeros(s, g, 4)?;
    put(image, 0, Record::Lso(stored, name.place, name.length), 0, h)
}

// A key, its value and a byte of padding.
#[tactic(auto, unfolding(crate::specs::Reading::element_at, image::specs::Due::run))]
fn parse_element(image: &mut [u8], s: &[u8], c: Cursor, made: usize) -> Step
    requires { (length s.now ≤ bytes) × (c.at ≤ length s.now) }
    ensures image_after { ran result image.new ≡ run (element_at s.now c.at) made image.old }
    ensures within { Within result (c.at + 1) (length s.now) (length image.old) }
{
    let (key, q) = c.parse_string(s)?;
    let (v, laid) = put(image, made, Record::Key(key.place, key.length), c.at, q)?;
    let (e, total) = parse_value(image, s, 0, v, laid)?;
    let f = zero(s, e)?;
    Ok((f, total))
}

// Elements up to the first that is not whole or not right, which is dropped.
fn parse_body(image: &mut [u8], s: &[u8], start: Cursor, done: usize) -> Step
    requires { (length s.now ≤ bytes) × (start.at ≤ length s.now) × (done ≤ length image.old) }
    ensures image_after { ran result image.new ≡ run_body (body_at s.now (length s.now) start.at) done image.old }
    ensures within { Within result start.at (length s.now) (length image.old) }
{
    let mut c = start;
    let mut made = done;
    loop {
        match parse_element(image, s, c, made) {
            Ok((d, total)) => {
                c = d;
                made = total;
            }
            Err(r) => {
                return match r.answer() {
                    Answer::NotWhole | Answer::NotRight => Ok((c, made)),
                    _ => Err(r),
                };
            }
        }
    }
}

#[tactic(auto, unfolding(crate::specs::Code::run_file))]
fn parse_file(image: &mut [u8], s: &[u8]) -> Step
    ensures image_after { ran result image.new ≡ run_file s.now image.old }
    ensures within { Within result 0 (length s.now) (length image.old) }
{
    if limit::BYTES < s.len() {
        return Answer::OverLimit.refuse(0);
    }
    let (c, made) = parse_header(image, s)?;
    parse_body(image, s, c, made)
}

// A file behind which nothing is left.
fn parse_whole(image: &mut [u8], s: &[u8]) -> Step
    ensures { finished result image.new ≡ whole_of s.now (length image.old) }
{
    let (c, made) = parse_file(image, s)?;
    if c.at < s.len() {
        return Answer::NotRight.refuse(c.at);
    }
    Ok((c, made))
}

// Reads a file, as far as it can be read.
#[tactic(auto, using(crate::proofs::Settle::incomplete_ran))]
pub fn parse_incomplete(input: &[u8], image: &mut [u8]) -> Reading
    ensures value { result ≡ (incomplete_of input.now (length image.old)).reading }
    ensures image_after { image.new ≡ padded (incomplete_of input.now (length image.old)).bytes (length image.old) }
{
    let step = parse_file(image, input);
    finish(image, step)
}

// Reads a file that is the whole input.
pub fn parse(input: &[u8], image: &mut [u8]) -> Reading
    ensures value { result ≡ (whole_of input.now (length image.old)).reading }
    ensures image_after { image.new ≡ padded (whole_of input.now (length image.old)).bytes (length image.old) }
{
    let step = parse_whole(image, input);
    finish(image, step)
}
