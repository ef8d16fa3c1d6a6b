// A record of the index: thirteen bytes, numbers big-endian. It marks a key of the image.
ghost use Rattle.std.specs.Prelude.{◌≡◌, ◌+◌, ◌*◌, ◌^◌, ◌≤◌, ◌<◌, length, get_or};
ghost use Rattle.std.proofs.lemmas.List.Edits.{sets};
ghost use Rattle.wire.specs.Number.{digits, number};
ghost use Rattle.wire.specs.Field.{bytes_at};
ghost use Rattle.index.specs.Mark.{mark_at, mark_bytes, Small};

// The depth of the key's value, and the image places of the container's record, of the key's record and of the value's.
#[derive(Clone, Copy, Debug, PartialEq, Eq)]
pub struct Mark {
    pub depth: u8,
    pub container: u32,
    pub key: u32,
    pub value: u32,
}

// The bytes of one.
pub const SIZE: usize = 13;

// The four bytes of a number are loaded and stored at once, and turned round.
fn load4(s: &[u8], at: usize) -> u32
    requires { at + 4 ≤ length s.now }
    ensures { (result ≡ number (bytes_at 4 s.now at)) × (result < 256 ^ 4) }
{
    u32::from_be_bytes([s[at], s[at + 1], s[at + 2], s[at + 3]])
}

fn store4(out: &mut [u8], at: usize, n: u32)
    requires { at + 4 ≤ length out.old }
    ensures { out.new ≡ sets out.old at (digits 4 n) }
{
    out[at..at + 4].copy_from_slice(&n.to_be_bytes());
}

#[tactic(auto, unfolding(crate::specs::Mark::mark_at), using(crate::proofs::Rows::mark_means))]
pub(crate) fn mark_at(index: &[u8], at: usize) -> Mark
    requires { at + 13 ≤ length index.now }
    ensures { (result ≡ mark_at index.now at) × Small result }
{
    Mark {
        depth: index[at],
        container: load4(index, at + 1),
        key: load4(index, at + 5),
        value: load4(index, at + 9),
    }
}

pub(crate) fn put_mark(index: &mut [u8], at: usize, m: Mark)
    requires { at + 13 ≤ length index.old }
    ensures { index.new ≡ sets index.old at (mark_bytes m) }
{
    index[at] = m.depth;
    store4(index, at + 1, m.container);
    store4(index, at + 5, m.key);
    store4(index, at + 9, m.value);
}
