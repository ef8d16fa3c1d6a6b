// Writing a packet.
ghost use Rattle.std.specs.Prelude.{◌≡◌, ◌+◌, ◌*◌, ◌≤◌, length};
ghost use Rattle.wire.specs.Limit.{bytes as most_bytes, «image» as most_image};
ghost use Rattle.image.specs.Out.{pour, poured, onto};
ghost use Rattle.amf0.specs.Code.{Ahead, longest, growth};
ghost use Rattle.packet.specs.Carried.{Carried};
ghost use Rattle.packet.specs.Writing.{label, entry, entries, packet, write_of};

use crate::head::{HEADER, MESSAGE};
use amf0::write::pour_value;
use image::kind;
use image::reading::Step;
use image::record::layout_of;
use image::taking::record_at;
use image::writing::{Writing, emit_numbers, emit_text, refused_by};
use wire::answer::{ACCEPTED, Answer};
use wire::cursor::Cursor;
use wire::limit;
use wire::number::write_number;

// Output, image and text are handed on one by one, as in amf0's writer, which says why.

// An entry's fields up to its length: its name or target, and then a header's flag or a message's response.
fn write_label(out: &mut [u8], image: &[u8], text: &[u8], kind: u8, c: Cursor, count: usize) -> Step
    requires { (length text.now ≤ most_bytes) × (length image.now ≤ most_image) × (c.at ≤ length image.now) × (count ≤ longest + growth * c.at) }
    ensures out_after { poured result out.new ≡ pour (label kind image.now text.now c.at) count out.old }
    ensures ahead { Ahead result (c.at + 1) (length image.now) (count + 2 * longest) }
{
    let at = c.at;
    let Some((r, d)) = record_at(image, c) else {
        return Answer::NoTree.refuse(at);
    };
    let l = layout_of(r);
    if l.kind != kind as u64 {
        return Answer::NoTree.refuse(at);
    }
    let (p, n) = (l.a.number as usize, l.b.number as usize);
    let (e, k) = emit_text(out, text, count, 0, 0, 2, p, n, at, d)?;
    if kind == HEADER {
        emit_numbers(out, k, 1, l.c.number, 0, 0, 0, 0, e)
    } else {
        let (q, m) = (l.c.number as usize, l.d.number as usize);
        emit_text(out, text, k, 0, 0, 2, q, m, at, e)
    }
}

// An entry: its label, a length, and its value. The length is set once the value is measured, where it is to be exact.
fn write_entry(
    out: &mut [u8],
    image: &[u8],
    text: &[u8],
    kind: u8,
    exact: bool,
    c: Cursor,
    count: usize,
) -> Step
    requires { (length text.now ≤ most_bytes) × (length image.now ≤ most_image) × (c.at ≤ length image.now) × (count ≤ longest + growth * c.at) }
    ensures carried { Carried (entry kind exact image.now text.now c.at) count out.old result out.new }
    ensures ahead { Ahead result (c.at + 1) (length image.now) count }
{
    let (d, k) = write_label(out, image, text, kind, c, count)?;
    let (e, m) = emit_numbers(out, k, 4, 0xFFFF_FFFF, 0, 0, 0, 0, d)?;
    let (f, total) = pour_value(out, image, text, e, m)?;
    if exact {
        write_number(out, k, 4, (total - m) as u64);
    }
    Ok((f, total))
}

// n entries of a kind.
fn write_entries(
    out: &mut [u8],
    image: &[u8],
    text: &[u8],
    kind: u8,
    exact: bool,
    start: Cursor,
    done: usize,
    n: u64,
) -> Step
    requires { (length text.now ≤ most_bytes) × (length image.now ≤ most_image) × (start.at ≤ length image.now) × (done ≤ longest + growth * start.at) }
    ensures carried { Carried (entries kind exact image.now text.now n start.at) done out.old result out.new }
    ensures ahead { Ahead result start.at (length image.now) done }
{
    let mut c = start;
    let mut count = done;
    for _ in 0..n {
        let (d, m) = write_entry(out, image, text, kind, exact, c, count)?;
        c = d;
        count = m;
    }
    Ok((c, count))
}

// The packet. On an output without room it counts alone.
fn write_packet(out: &mut [u8], image: &[u8], text: &[u8], exact: bool) -> Step
    requires { (length text.now ≤ most_bytes) × (length image.now ≤ most_image) }
    ensures { Carried (packet exact image.now text.now) 0 out.old result out.new }
{
    let c = Cursor { at: 0 };
    let Some((r, d)) = record_at(image, c) else {
        return Answer::NoTree.refuse(0);
    };
    let l = layout_of(r);
    if l.kind != kind::PACKET as u64 {
        return Answer::NoTree.refuse(0);
    }
    let (headers, messages) = (l.a.number, l.b.number);
    let (e, k) = emit_numbers(out, 0, 2, 0, 2, headers, 0, 0, d)?;
    let (f, n) = write_entries(out, image, text, HEADER, exact, e, k, headers)?;
    let (g, t) = emit_numbers(out, n, 0, 0, 2, messages, 0, 0, f)?;
    write_entries(out, image, text, MESSAGE, exact, g, t, messages)
}

// Writes the packet of an image, whose texts stand in `text`, with exact lengths or with FFFFFFFF: measured first, and then put out.
pub fn write_to_bytes(image: &[u8], text: &[u8], exact_lengths: bool, out: &mut [u8]) -> Writing
    ensures value { result ≡ (write_of image.now text.now exact_lengths (length out.old)).writing }
    ensures out_after { out.new ≡ onto (write_of image.now text.now exact_lengths (length out.old)).bytes out.old }
{
    if limit::BYTES < text.len() {
        return refused_by(Answer::OverLimit);
    }
    if limit::IMAGE < image.len() {
        return refused_by(Answer::OverLimit);
    }
    match write_packet(&mut out[..0], image, text, exact_lengths) {
        Err(r) => refused_by(r.answer()),
        Ok((c, n)) => {
            if c.at < image.len() {
                return refused_by(Answer::NoTree);
            }
            if limit::BYTES < n {
                return refused_by(Answer::OverLimit);
            }
            if out.len() < n {
                return refused_by(Answer::NoRoom);
            }
            // What was measured is not refused.
            let _ = write_packet(out, image, text, exact_lengths);
            Writing {
                answer: ACCEPTED,
                count: n,
            }
        }
    }
}
