// The library for programs in other languages: each public call, on numbers and slices alone. The answer is the result, the counts go out through
// references. The crate riddoskam_c exports what stands here.
#![tactic(auto)]

ghost use Rattle.std.specs.Prelude.{◌≡◌, ◌/◌, length, take, drop};
ghost use Rattle.wire.specs.Choice.{pick};
ghost use Rattle.wire.specs.Text.{inside_of, part_of, place_of};
ghost use Rattle.image.specs.Whole.{padded};
ghost use Rattle.image.specs.Out.{onto};
ghost use Rattle.image.specs.Taking.{record_at};
ghost use Rattle.image.specs.Building.{put_of};
ghost use Rattle.amf0.specs.Reading.{read_of};
ghost use Rattle.amf0.specs.Writing.{write_of as value_written};
ghost use Rattle.lso.specs.Reading.{whole_of as whole_file, incomplete_of as incomplete_file};
ghost use Rattle.lso.specs.Writing.{write_of as file_written};
ghost use Rattle.packet.specs.Reading.{whole_of as whole_packet, incomplete_of as incomplete_packet};
ghost use Rattle.packet.specs.Writing.{write_of as packet_written};
ghost use Rattle.packet.specs.Entry.{cut_of, list_of, read_span, read_entry, found_in};
ghost use Rattle.packet.specs.Row.{row_of};
ghost use Rattle.index.specs.Mark.{rows};
ghost use Rattle.index.specs.Index.{index_of, Holds};
ghost use Rattle.index.specs.Find.{step_of, find_of};
ghost use Rattle.riddoskam.specs.Numbers.{found_answer, found_numbers, taken_answer, taken_numbers, taken_next, way_found, way_place};

use image::record::layout_of;
use image::taking::record_at;
use packet::entry::nth;
use wire::answer::{ACCEPTED, Answer};
use wire::cursor::Cursor;
use wire::text::inside;

// ---- texts

pub fn riddoskam_inside(input: &[u8], place: usize, length: usize) -> bool
    ensures { result ≡ inside_of input.now place length }
{
    inside(input, place, length)
}

// The named part, told by the place where it begins and its length: the empty part at the front where it is not inside.
pub fn riddoskam_part(input: &[u8], place: usize, length: usize, from: &mut usize) -> usize
    ensures value { result ≡ pick (inside_of input.now place length) length 0 }
    ensures from_after { from.new ≡ place_of input.now place length }
    ensures input_after { take result (drop from.new input.now) ≡ part_of input.now place length }
{
    if inside(input, place, length) {
        *from = place;
        length
    } else {
        *from = 0;
        0
    }
}

// ---- values

pub fn riddoskam_parse_single_element(
    input: &[u8],
    image: &mut [u8],
    used: &mut usize,
    made: &mut usize,
) -> u8
    ensures value { result ≡ (read_of input.now (length image.old)).reading.answer }
    ensures used_after { used.new ≡ (read_of input.now (length image.old)).reading.used }
    ensures made_after { made.new ≡ (read_of input.now (length image.old)).reading.made }
    ensures image_after { image.new ≡ padded (read_of input.now (length image.old)).bytes (length image.old) }
{
    let value = amf0::read::parse_single_element(input, image);
    *used = value.used;
    *made = value.made;
    value.answer
}

pub fn riddoskam_write_value(image: &[u8], text: &[u8], out: &mut [u8], count: &mut usize) -> u8
    ensures value { result ≡ (value_written image.now text.now (length out.old)).writing.answer }
    ensures count_after { count.new ≡ (value_written image.now text.now (length out.old)).writing.count }
    ensures out_after { out.new ≡ onto (value_written image.now text.now (length out.old)).bytes out.old }
{
    let value = amf0::write::write_value(image, text, out);
    *count = value.count;
    value.answer
}

// ---- files

pub fn riddoskam_lso_parse(input: &[u8], image: &mut [u8], used: &mut usize, made: &mut usize) -> u8
    ensures value { result ≡ (whole_file input.now (length image.old)).reading.answer }
    ensures used_after { used.new ≡ (whole_file input.now (length image.old)).reading.used }
    ensures made_after { made.new ≡ (whole_file input.now (length image.old)).reading.made }
    ensures image_after { image.new ≡ padded (whole_file input.now (length image.old)).bytes (length image.old) }
{
    let file = lso::read::parse(input, image);
    *used = file.used;
    *made = file.made;
    file.answer
}

pub fn riddoskam_lso_parse_incomplete(
    input: &[u8],
    image: &mut [u8],
    used: &mut usize,
    made: &mut usize,
) -> u8
    ensures value { result ≡ (incomplete_file input.now (length image.old)).reading.answer }
    ensures used_after { used.new ≡ (incomplete_file input.now (length image.old)).reading.used }
    ensures made_after { made.new ≡ (incomplete_file input.now (length image.old)).reading.made }
    ensures image_after { image.new ≡ padded (incomplete_file input.now (length image.old)).bytes (length image.old) }
{
    let start = lso::read::parse_incomplete(input, image);
    *used = start.used;
    *made = start.made;
    start.answer
}

pub fn riddoskam_lso_write_to_bytes(
    image: &[u8],
    text: &[u8],
    out: &mut [u8],
    count: &mut usize,
) -> u8
    ensures value { result ≡ (file_written image.now text.now (length out.old)).writing.answer }
    ensures count_after { count.new ≡ (file_written image.now text.now (length out.old)).writing.count }
    ensures out_after { out.new ≡ onto (file_written image.now text.now (length out.old)).bytes out.old }
{
    let file = lso::write::write_to_bytes(image, text, out);
    *count = file.count;
    file.answer
}

// ---- packets

pub fn riddoskam_packet_parse(
    input: &[u8],
    image: &mut [u8],
    used: &mut usize,
    made: &mut usize,
) -> u8
    ensures value { result ≡ (whole_packet input.now (length image.old)).reading.answer }
    ensures used_after { used.new ≡ (whole_packet input.now (length image.old)).reading.used }
    ensures made_after { made.new ≡ (whole_packet input.now (length image.old)).reading.made }
    ensures image_after { image.new ≡ padded (whole_packet input.now (length image.old)).bytes (length image.old) }
{
    let whole = packet::read::parse(input, image);
    *used = whole.used;
    *made = whole.made;
    whole.answer
}

pub fn riddoskam_packet_parse_incomplete(
    input: &[u8],
    image: &mut [u8],
    used: &mut usize,
    made: &mut usize,
) -> u8
    ensures value { result ≡ (incomplete_packet input.now (length image.old)).reading.answer }
    ensures used_after { used.new ≡ (incomplete_packet input.now (length image.old)).reading.used }
    ensures made_after { made.new ≡ (incomplete_packet input.now (length image.old)).reading.made }
    ensures image_after { image.new ≡ padded (incomplete_packet input.now (length image.old)).bytes (length image.old) }
{
    let front = packet::read::parse_incomplete(input, image);
    *used = front.used;
    *made = front.made;
    front.answer
}

pub fn riddoskam_packet_write_to_bytes(
    image: &[u8],
    text: &[u8],
    exact_lengths: bool,
    out: &mut [u8],
    count: &mut usize,
) -> u8
    ensures value { result ≡ (packet_written image.now text.now exact_lengths (length out.old)).writing.answer }
    ensures count_after { count.new ≡ (packet_written image.now text.now exact_lengths (length out.old)).writing.count }
    ensures out_after { out.new ≡ onto (packet_written image.now text.now exact_lengths (length out.old)).bytes out.old }
{
    let whole = packet::write::write_to_bytes(image, text, exact_lengths, out);
    *count = whole.count;
    whole.answer
}

// Entry `number` of a packet, as eight numbers: kind, flag, place and length of the first text, of the second and of the value. Zeros where it is refused.
pub fn riddoskam_packet_nth(packet: &[u8], number: usize, entry: &mut [usize; 8]) -> u8
    ensures value { result ≡ found_answer (found_in (cut_of packet.now) number) }
    ensures after { entry.new ≡ found_numbers (found_in (cut_of packet.now) number) }
{
    match nth(packet, number) {
        Err(r) => {
            *entry = [0; 8];
            u8::from(r.answer())
        }
        Ok(e) => {
            *entry = <[usize; 8]>::from(e);
            ACCEPTED
        }
    }
}

// All entries of a packet, as a row of eight numbers each, as `riddoskam_packet_nth` has them; zeros behind them, and zeros alone where it is refused.
pub fn riddoskam_packet_cut(
    packet: &[u8],
    numbers: &mut [usize],
    used: &mut usize,
    count: &mut usize,
) -> u8
    ensures value { result ≡ (list_of packet.now (length numbers.old / 8)).cutting.answer }
    ensures used_after { used.new ≡ (list_of packet.now (length numbers.old / 8)).cutting.used }
    ensures count_after { count.new ≡ (list_of packet.now (length numbers.old / 8)).cutting.count }
    ensures numbers_after { numbers.new ≡ row_of (list_of packet.now (length numbers.old / 8)).entries (length numbers.old) }
{
    let cut = packet::row::cut(packet, numbers);
    *used = cut.used;
    *count = cut.count;
    cut.answer
}

// Reads the value of entry `number`.
pub fn riddoskam_packet_parse_entry(
    packet: &[u8],
    number: usize,
    image: &mut [u8],
    used: &mut usize,
    made: &mut usize,
) -> u8
    ensures value { result ≡ (read_entry packet.now number (length image.old)).reading.answer }
    ensures used_after { used.new ≡ (read_entry packet.now number (length image.old)).reading.used }
    ensures made_after { made.new ≡ (read_entry packet.now number (length image.old)).reading.made }
    ensures image_after { image.new ≡ padded (read_entry packet.now number (length image.old)).bytes (length image.old) }
{
    let span = packet::entry::parse_entry(packet, number, image);
    *used = span.used;
    *made = span.made;
    span.answer
}

// Reads the value in a part of a packet, as the value of an entry whose place and length are known.
pub fn riddoskam_packet_parse_span(
    packet: &[u8],
    place: usize,
    size: usize,
    image: &mut [u8],
    used: &mut usize,
    made: &mut usize,
) -> u8
    ensures value { result ≡ (read_span packet.now place size (length image.old)).reading.answer }
    ensures used_after { used.new ≡ (read_span packet.now place size (length image.old)).reading.used }
    ensures made_after { made.new ≡ (read_span packet.now place size (length image.old)).reading.made }
    ensures image_after { image.new ≡ padded (read_span packet.now place size (length image.old)).bytes (length image.old) }
{
    let span = packet::entry::parse_span(packet, place, size, image);
    *used = span.used;
    *made = span.made;
    span.answer
}

// ---- images

// The record at a place of an image, as five numbers: its kind and its fields, in the order in which they lie; a field that it has not is 0. `next` is the
// place behind it. Zeros where no whole and right record stands there.
pub fn riddoskam_record_at(image: &[u8], at: usize, fields: &mut [u64; 5], next: &mut usize) -> u8
    ensures value { result ≡ taken_answer (record_at image.now at) }
    ensures fields_after { fields.new ≡ taken_numbers (record_at image.now at) }
    ensures next_after { next.new ≡ taken_next (record_at image.now at) }
{
    match record_at(image, Cursor { at: at }) {
        None => {
            *fields = [0; 5];
            *next = 0;
            u8::from(Answer::NoTree)
        }
        Some((r, c)) => {
            let l = layout_of(r);
            *fields = [l.kind, l.a.number, l.b.number, l.c.number, l.d.number];
            *next = c.at;
            ACCEPTED
        }
    }
}

// Lays the record that five numbers tell, as `riddoskam_record_at` has them, behind the `made` bytes of an image. Where it is refused, neither is changed.
pub fn riddoskam_put(image: &mut [u8], made: &mut usize, fields: &[u64; 5]) -> u8
    ensures value { result ≡ (put_of fields.now made.old image.old).laying.answer }
    ensures made_after { made.new ≡ (put_of fields.now made.old image.old).laying.made }
    ensures image_after { image.new ≡ (put_of fields.now made.old image.old).image }
{
    let laid = image::building::put_numbers(image, *made, fields);
    *made = laid.made;
    laid.answer
}

// ---- indexes

// Makes the index of an image, a mark for each of its `count` keys.
pub fn riddoskam_index(image: &[u8], text: &[u8], index: &mut [u8], count: &mut usize) -> u8
    ensures value { result ≡ (index_of image.now text.now (length index.old)).answer }
    ensures count_after { count.new ≡ length (index_of image.now text.now (length index.old)).keys }
    ensures holds { Holds image.now text.now (index_of image.now text.now (length index.old)).keys index.new }
{
    let marks = index::make::make_index(image, text, index);
    *count = marks.count;
    marks.answer
}

// Whether there is a way, and the place that it leads to; 0 where there is none.
fn told(way: Option<usize>, place: &mut usize) -> bool
    ensures value { result ≡ way_found way }
    ensures place_after { place.new ≡ way_place way }
{
    match way {
        None => {
            *place = 0;
            false
        }
        Some(at) => {
            *place = at;
            true
        }
    }
}

// The place of the value to which a path leads from the first record. The path is its keys in a row, each as a short text.
pub fn riddoskam_find(
    image: &[u8],
    text: &[u8],
    index: &[u8],
    path: &[u8],
    place: &mut usize,
) -> bool
    ensures value { result ≡ way_found (find_of image.now text.now (rows (length index.now / 13) index.now) path.now) }
    ensures place_after { place.new ≡ way_place (find_of image.now text.now (rows (length index.now / 13) index.now) path.now) }
{
    told(index::find::find(image, text, index, path), place)
}

// The place of the value of the last pair of a key in the container whose record stands at a place.
pub fn riddoskam_step(
    image: &[u8],
    text: &[u8],
    index: &[u8],
    container: usize,
    key: &[u8],
    place: &mut usize,
) -> bool
    ensures value { result ≡ way_found (step_of image.now text.now (rows (length index.now / 13) index.now) container key.now) }
    ensures place_after { place.new ≡ way_place (step_of image.now text.now (rows (length index.now / 13) index.now) container key.now) }
{
    told(index::find::step(image, text, index, container, key), place)
}
