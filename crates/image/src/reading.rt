// A reading lays its records behind one another, and comes to an answer, two counts and an image.
ghost use Rattle.std.specs.Prelude.{ℕ, ◌≡◌, ◌+◌, ◌-◌, ◌≤◌, ◌<◌, ◌++◌, length, take, replicate, []};
ghost use Rattle.std.proofs.lemmas.List.Edits.{sets};
ghost use Rattle.image.specs.declared.record.Record.TheVariants.{Key, ObjectEnd};
ghost use Rattle.image.specs.Record.{field_bytes, lies, none, ◌bytes◌};
ghost use Rattle.image.specs.Due.{run, ran, due, «end», put, Within};
ghost use Rattle.image.specs.Whole.{finished_by, padded, refused};

use crate::kind;
use crate::record::{Field, Record, bit};
use wire::answer::{ACCEPTED, Answer, Refusal};
use wire::cursor::Cursor;
use wire::number::write_number;

// How a step of a reading ends: at a cursor, with so many image bytes made, or refused.
pub type Step = Result<(Cursor, usize), Refusal>;

// What a public reading returns: the answer, the bytes used, or on a refusal the place, and the image bytes made. C has these numbers.
#[derive(Clone, Copy, Debug, PartialEq, Eq)]
pub struct Reading {
    pub answer: u8,
    pub used: usize,
    pub made: usize,
}

// Stores a field, and returns the place behind it.
pub(crate) fn lay(image: &mut [u8], at: usize, f: Field) -> usize
    requires { at + f.width ≤ length image.old }
    ensures value { result ≡ at + f.width }
    ensures image_after { image.new ≡ sets image.old at (field_bytes f) }
{
    write_number(image, at, f.width, f.number);
    at + f.width
}

// Lays a record behind what is made: the reading then goes on at `next`, or is refused at `place`. Each kind's fields have fixed widths, of which the compiler
// makes the stores of that kind alone: over a `Layout`, by one function for all kinds, reading has more than twice the instructions.
pub fn put(image: &mut [u8], made: usize, r: Record, place: usize, next: Cursor) -> Step
    ensures image_after { ran result image.new ≡ run (due r place (end next.at)) made image.old }
    ensures within { Within result next.at next.at (length image.old) }
{
    match r {
        Record::Number(n) => put_one(image, made, kind::NUMBER, 8, n, place, next),
        Record::Boolean(v) => put_one(image, made, kind::BOOLEAN, 1, bit(v), place, next),
        Record::Text(p, n) => put_two(
            image,
            made,
            kind::TEXT,
            3,
            p as u64,
            3,
            n as u64,
            place,
            next,
        ),
        Record::Object => put_bare(image, made, kind::OBJECT, place, next),
        Record::Null => put_bare(image, made, kind::NULL, place, next),
        Record::Undefined => put_bare(image, made, kind::UNDEFINED, place, next),
        Record::Reference(n) => put_one(image, made, kind::REFERENCE, 2, n as u64, place, next),
        Record::EcmaArray(n) => put_one(image, made, kind::ECMA_ARRAY, 4, n as u64, place, next),
        Record::ObjectEnd => put_end(image, made, place, next),
        Record::StrictArray(n) => put_one(
            image,
            made,
            kind::STRICT_ARRAY,
            4,
            n as u64,
            place,
            next,
        ),
        Record::Date(n, present, zone) => put_three(
            image,
            made,
            kind::DATE,
            8,
            n,
            1,
            bit(present),
            2,
            zone as u64,
            place,
            next,
        ),
        Record::Unsupported => put_bare(image, made, kind::UNSUPPORTED, place, next),
        Record::Xml(p, n) => put_two(
            image,
            made,
            kind::XML,
            3,
            p as u64,
            3,
            n as u64,
            place,
            next,
        ),
        Record::TypedObject(p, n) => put_two(
            image,
            made,
            kind::TYPED_OBJECT,
            3,
            p as u64,
            2,
            n as u64,
            place,
            next,
        ),
        Record::Key(p, n) => put_key(image, made, p, n, place, next),
        Record::Packet(headers, messages) => put_two(
            image,
            made,
            kind::PACKET,
            2,
            headers as u64,
            2,
            messages as u64,
            place,
            next,
        ),
        Record::Header(p, n, flag) => put_three(
            image,
            made,
            kind::HEADER,
            3,
            p as u64,
            2,
            n as u64,
            1,
            bit(flag),
            place,
            next,
        ),
        Record::Message(p, n, q, m) => put_four(
            image,
            made,
            kind::MESSAGE,
            3,
            p as u64,
            2,
            n as u64,
            3,
            q as u64,
            2,
            m as u64,
            place,
            next,
        ),
        Record::Lso(stored, p, n) => put_three(
            image,
            made,
            kind::LSO,
            4,
            stored as u64,
            3,
            p as u64,
            2,
            n as u64,
            place,
            next,
        ),
    }
}

// The records between values: a key, and the end of the pairs.
pub fn put_key(
    image: &mut [u8],
    made: usize,
    p: usize,
    n: usize,
    place: usize,
    next: Cursor,
) -> Step
    ensures image_after { ran result image.new ≡ run (due (Key p n) place (end next.at)) made image.old }
    ensures within { Within result next.at next.at (length image.old) }
{
    put_two(
        image,
        made,
        kind::KEY,
        3,
        p as u64,
        2,
        n as u64,
        place,
        next,
    )
}

pub fn put_end(image: &mut [u8], made: usize, place: usize, next: Cursor) -> Step
    ensures image_after { ran result image.new ≡ run (due ObjectEnd place (end next.at)) made image.old }
    ensures within { Within result next.at next.at (length image.old) }
{
    put_bare(image, made, kind::OBJECT_END, place, next)
}

// A kind and no field behind it, or one, up to four: each number behind its width.
fn put_bare(image: &mut [u8], made: usize, kind: u8, place: usize, next: Cursor) -> Step
    ensures image_after { ran result image.new ≡ put (lies kind none none none none) place next.at made image.old }
    ensures within { Within result next.at next.at (length image.old) }
{
    put_one(image, made, kind, 0, 0, place, next)
}

fn put_one(
    image: &mut [u8],
    made: usize,
    kind: u8,
    v: usize,
    a: u64,
    place: usize,
    next: Cursor,
) -> Step
    requires { v ≤ 8 }
    ensures image_after { ran result image.new ≡ put (lies kind (v bytes a) none none none) place next.at made image.old }
    ensures within { Within result next.at next.at (length image.old) }
{
    put_two(image, made, kind, v, a, 0, 0, place, next)
}

fn put_two(
    image: &mut [u8],
    made: usize,
    kind: u8,
    v: usize,
    a: u64,
    w: usize,
    b: u64,
    place: usize,
    next: Cursor,
) -> Step
    requires { (v ≤ 8) × (w ≤ 8) }
    ensures image_after { ran result image.new ≡ put (lies kind (v bytes a) (w bytes b) none none) place next.at made image.old }
    ensures within { Within result next.at next.at (length image.old) }
{
    put_three(image, made, kind, v, a, w, b, 0, 0, place, next)
}

fn put_three(
    image: &mut [u8],
    made: usize,
    kind: u8,
    v: usize,
    a: u64,
    w: usize,
    b: u64,
    x: usize,
    c: u64,
    place: usize,
    next: Cursor,
) -> Step
    requires { (v ≤ 8) × (w ≤ 8) × (x ≤ 8) }
    ensures image_after { ran result image.new ≡ put (lies kind (v bytes a) (w bytes b) (x bytes c) none) place next.at made image.old }
    ensures within { Within result next.at next.at (length image.old) }
{
    put_four(image, made, kind, v, a, w, b, x, c, 0, 0, place, next)
}

fn put_four(
    image: &mut [u8],
    made: usize,
    kind: u8,
    v: usize,
    a: u64,
    w: usize,
    b: u64,
    x: usize,
    c: u64,
    y: usize,
    d: u64,
    place: usize,
    next: Cursor,
) -> Step
    requires { (v ≤ 8) × (w ≤ 8) × (x ≤ 8) × (y ≤ 8) }
    ensures image_after { ran result image.new ≡ put (lies kind (v bytes a) (w bytes b) (x bytes c) (y bytes d)) place next.at made image.old }
    ensures within { Within result next.at next.at (length image.old) }
{
    if image.len() < made {
        return Answer::NoRoom.refuse(place);
    }
    if image.len() - made < 1 + v + w + x + y {
        return Answer::NoRoom.refuse(place);
    }
    write_number(image, made, 1, kind as u64);
    write_number(image, made + 1, v, a);
    write_number(image, made + 1 + v, w, b);
    write_number(image, made + 1 + v + w, x, c);
    write_number(image, made + 1 + v + w + x, y, d);
    Ok((next, made + 1 + v + w + x + y))
}

// Zeros from a place on.
pub fn clear(image: &mut [u8], from: usize)
    ensures { image.new ≡ take from image.old ++ replicate (length image.old - from) 0 }
{
    if from < image.len() {
        image[from..].fill(0);
    }
}

// A reading that is refused, by an answer's number, at a place: no byte of the image is made.
pub fn refused(image: &mut [u8], answer: u8, place: usize) -> Reading
    ensures value { result ≡ (refused answer place).reading }
    ensures image_after { image.new ≡ padded [] (length image.old) }
{
    clear(image, 0);
    Reading {
        answer,
        used: place,
        made: 0,
    }
}

// What refuses a step, as it is told: the number of an answer, and the place. A `Refusal` tells it; so do two numbers, of which the first may be no answer's.
pub trait Refusing {
    ghost numbers: { Self → ℕ × ℕ };

    fn told(self) -> (u8, usize)
        ensures { result ≡ numbers self };
}

impl Refusing for Refusal {
    ghost numbers = { λ r. (r.answer, r.place) };

    fn told(self) -> (u8, usize) {
        (u8::from(self.answer()), self.place())
    }
}

impl Refusing for (u8, usize) {
    ghost numbers = { λ r. r };

    fn told(self) -> (u8, usize) {
        self
    }
}

// The end of a reading: what is past the made part is cleared, all of it where the reading was refused, and the place is then returned for the bytes used.
pub fn finish<R: Refusing>(image: &mut [u8], x: Result<(Cursor, usize), R>) -> Reading
    ensures value { result ≡ (finished_by R.numbers x image.old).reading }
    ensures image_after { image.new ≡ padded (finished_by R.numbers x image.old).bytes (length image.old) }
{
    match x {
        Ok((c, made)) => {
            clear(image, made);
            Reading {
                answer: ACCEPTED,
                used: c.at,
                made: made,
            }
        }
        Err(r) => {
            let (answer, place) = r.told();
            refused(image, answer, place)
        }
    }
}
