// Numbers in bytes, the highest first.
ghost use Rattle.std.specs.Prelude.{◌≡◌, ◌+◌, ◌^◌, ◌≤◌, ◌<◌, length, get_or, leb};
ghost use Rattle.std.proofs.lemmas.List.Edits.{sets};
ghost use Rattle.wire.specs.Number.{digits, number, stored};
ghost use Rattle.wire.specs.Field.{bytes_at};

// The number in the w bytes from a place on.
pub(crate) fn number_at(s: &[u8], at: usize, w: usize) -> u64
    requires { (w ≤ 8) × (at + w ≤ length s.now) }
    ensures { (result ≡ number (bytes_at w s.now at)) × (result < 256 ^ w) }
{
    let mut n: u64 = 0;
    for i in 0..w {
        n = n * 0x100 + (s[at + i] as u64);
    }
    n
}

// The number in one byte, in four and in eight. The loads come first and the sum is written out: so it is one load of the machine, and its bytes turned.
fn number1_at(s: &[u8], at: usize) -> u64
    requires { at < length s.now }
    ensures { (result ≡ get_or s.now at 0) × (result < 0x100) }
{
    s[at] as u64
}

fn number4_at(s: &[u8], at: usize) -> u64
    requires { at + 4 ≤ length s.now }
    ensures { (result ≡ number (bytes_at 4 s.now at)) × (result < 0x100000000) }
{
    let a = number1_at(s, at);
    let b = number1_at(s, at + 1);
    let c = number1_at(s, at + 2);
    let d = number1_at(s, at + 3);
    ((a * 0x100 + b) * 0x100 + c) * 0x100 + d
}

pub(crate) fn number8_at(s: &[u8], at: usize) -> u64
    requires { at + 8 ≤ length s.now }
    ensures { result ≡ number (bytes_at 8 s.now at) }
{
    number4_at(s, at) * 0x1_0000_0000 + number4_at(s, at + 4)
}

// The low w bytes of n, from the last one on.
fn store(out: &mut [u8], at: usize, w: usize, n: u64)
    requires { at + w ≤ length out.old }
    ensures { out.new ≡ sets out.old at (digits w n) }
{
    let mut rest = n;
    for k in (0..w).rev() {
        out[at + k] = (rest % 0x100) as u8;
        rest /= 0x100;
    }
}

// Stores the low w bytes of n from a place on, and says whether they have room there; where they have none it stores nothing.
// The widths that most fields have are named, so that they are compiled without a loop.
pub fn write_number(out: &mut [u8], at: usize, w: usize, n: u64) -> bool
    ensures value { result ≡ leb (at + w) (length out.old) }
    ensures out_after { out.new ≡ stored w n at out.old }
{
    if at > out.len() || w > out.len() - at {
        return false;
    }
    match w {
        1 => store(out, at, 1, n),
        2 => store(out, at, 2, n),
        3 => store(out, at, 3, n),
        _ => store(out, at, w, n),
    }
    true
}
