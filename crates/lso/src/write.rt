// Writing a file.
ghost use Rattle.std.specs.Prelude.{◌≡◌, ◌+◌, ◌*◌, ◌≤◌, length};
ghost use Rattle.wire.specs.Limit.{bytes as most_bytes, «image» as most_image};
ghost use Rattle.image.specs.Out.{most, pour, poured, «end», onto, Grown};
ghost use Rattle.amf0.specs.Code.{Ahead, longest, growth};
ghost use Rattle.lso.specs.Code.{key_of};
ghost use Rattle.lso.specs.Writing.{naming, header, element, body, file, write_of};

use amf0::write::pour_value;
use image::kind;
use image::reading::Step;
use image::record::{Field, layout_of};
use image::taking::{record_at, short_at};
use image::writing::{Row, Writing, emit, emit_numbers, emit_text, refused_by};
use wire::answer::{ACCEPTED, Answer};
use wire::cursor::Cursor;
use wire::limit;

// Output, image and text are handed on one by one, as in amf0's writer, which says why.

// The version of the form, and the signature in two numbers.
const VERSION: u64 = 0x00BF;

const SIGNATURE: u64 = 0x5443_534F;

const SIGNATURE_REST: u64 = 0x0004_0000_0000;

// The signature and the name.
fn named(p: usize, n: usize) -> Row
    ensures { result ≡ naming p n }
{
    Row {
        mark: Field {
            width: 4,
            number: SIGNATURE,
        },
        a: Field {
            width: 6,
            number: SIGNATURE_REST,
        },
        b: Field {
            width: 2,
            number: n as u64,
        },
        place: p,
        length: n,
    }
}

// The header, with the length that it says: the version of the form, the length, the signature and the name.
fn write_header(out: &mut [u8], text: &[u8], stored: u64, p: usize, n: usize, next: Cursor) -> Step
    requires { length text.now ≤ most_bytes }
    ensures out_after { poured result out.new ≡ pour (header stored text.now p n (end next.at)) 0 out.old }
    ensures grown { Grown result next.at (72 + 3 * length text.now) }
{
    let (c, k) = emit_numbers(out, 0, 2, VERSION, 4, stored, 0, 0, next)?;
    let (d, m) = emit(out, text, k, named(p, n), 0, c)?;
    emit_numbers(out, m, 4, 0, 0, 0, 0, 0, d)
}

// The key whose record stands at a cursor.
#[tactic(auto, unfolding(image::specs::Taking::record_at, image::specs::Taking::body_at, image::specs::Taking::short, image::specs::Out::pour))]
fn write_key(out: &mut [u8], image: &[u8], text: &[u8], c: Cursor, count: usize) -> Step
    requires { (length text.now ≤ most_bytes) × (count ≤ most) }
    ensures out_after { poured result out.new ≡ pour (key_of image.now text.now c.at) count out.old }
    ensures ahead { Ahead result (c.at + 1) (length image.now) (count + longest) }
{
    let at = c.at;
    let Ok((kind, d)) = c.be_u8(image) else {
        return Answer::NoTree.refuse(at);
    };
    // Not as a pattern, `Ok((kind::KEY, d))`: the arm of all others would not say to the proof that the kind is another.
    if kind != kind::KEY {
        return Answer::NoTree.refuse(at);
    }
    match short_at(image, d) {
        Ok((t, e)) => emit_text(out, text, count, 0, 0, 2, t.place, t.length, at, e),
        Err(_) => Answer::NoTree.refuse(at),
    }
}

// A key, its value and a byte of padding.
fn write_element(out: &mut [u8], image: &[u8], text: &[u8], c: Cursor, count: usize) -> Step
    requires { (length text.now ≤ most_bytes) × (length image.now ≤ most_image) × (c.at ≤ length image.now) × (count ≤ growth * c.at) }
    ensures out_after { poured result out.new ≡ pour (element image.now text.now c.at) count out.old }
    ensures ahead { Ahead result (c.at + 1) (length image.now) count }
{
    let (e, k) = write_key(out, image, text, c, count)?;
    let (f, m) = pour_value(out, image, text, e, k)?;
    emit_numbers(out, m, 1, 0, 0, 0, 0, 0, f)
}

// Elements to the image's end.
fn write_body(out: &mut [u8], image: &[u8], text: &[u8], start: Cursor, done: usize) -> Step
    requires { (length text.now ≤ most_bytes) × (length image.now ≤ most_image) × (start.at ≤ length image.now) × (done ≤ growth * start.at) }
    ensures { poured result out.new ≡ pour (body image.now text.now (length image.now) start.at) done out.old }
{
    let mut c = start;
    let mut count = done;
    while c.at < image.len() {
        let (d, n) = write_element(out, image, text, c, count)?;
        c = d;
        count = n;
    }
    Ok((c, count))
}

// The file, whose header says `stored` for its length. On an output without room it counts alone.
fn write_file(out: &mut [u8], image: &[u8], text: &[u8], stored: u64) -> Step
    requires { (length text.now ≤ most_bytes) × (length image.now ≤ most_image) }
    ensures { poured result out.new ≡ pour (file (λ name body. stored) image.now text.now) 0 out.old }
{
    let c = Cursor { at: 0 };
    let Some((r, d)) = record_at(image, c) else {
        return Answer::NoTree.refuse(0);
    };
    let l = layout_of(r);
    if l.kind != kind::LSO as u64 {
        return Answer::NoTree.refuse(0);
    }
    let (p, n) = (l.b.number as usize, l.c.number as usize);
    let (e, k) = write_header(out, text, stored, p, n, d)?;
    write_body(out, image, text, e, k)
}

// Writes the file of an image, whose texts stand in `text`: measured first, and then put out.
pub fn write_to_bytes(image: &[u8], text: &[u8], out: &mut [u8]) -> Writing
    ensures value { result ≡ (write_of image.now text.now (length out.old)).writing }
    ensures out_after { out.new ≡ onto (write_of image.now text.now (length out.old)).bytes out.old }
{
    if limit::BYTES < text.len() || limit::IMAGE < image.len() {
        return refused_by(Answer::OverLimit);
    }
    match write_file(&mut out[..0], image, text, 0) {
        Err(r) => refused_by(r.answer()),
        Ok((_, n)) => {
            if limit::BYTES < n {
                return refused_by(Answer::OverLimit);
            }
            if out.len() < n {
                return refused_by(Answer::NoRoom);
            }
            // The version of the form and the length itself are not counted; what was measured is not refused.
            let _ = write_file(out, image, text, (n - 6) as u64);
            Writing {
                answer: ACCEPTED,
                count: n,
            }
        }
    }
}
