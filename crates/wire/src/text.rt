// The text that a place and a length name.
ghost use Rattle.std.specs.Prelude.{◌≡◌};
ghost use Rattle.wire.specs.Text.{inside_of, part_of, place_of, further};

pub fn inside(input: &[u8], place: usize, length: usize) -> bool
    ensures { result ≡ inside_of input.now place length }
{
    place <= input.len() && length <= input.len() - place
}

// The empty part at the front where the place and the length are not inside.
pub fn part(input: &[u8], place: usize, length: usize) -> &[u8]
    ensures result_value { result.now ≡ part_of input.now place length }
    ensures ref_ptr_value { result.ref_ptr ≡ further (place_of input.now place length) input.entry.ref_ptr }
{
    if inside(input, place, length) {
        &input[place..place + length]
    } else {
        &input[0..0]
    }
}
