// Rows of bytes laid into a buffer. Where a row has no room it is not laid at all.
ghost use Rattle.std.specs.Prelude.{◌≡◌, [], ◌∷◌, ◌+◌, ◌≤◌, ◌<◌, length};
ghost use Rattle.std.proofs.lemmas.List.Edits.{sets};
ghost use Rattle.wire.specs.Bytes.{laid, decimal};
ghost use Rattle.wire.specs.Field.{bytes_at};

fn store4(out: &mut [u8], to: usize, a: u8, b: u8, c: u8, d: u8)
    requires { to + 4 ≤ length out.old }
    ensures { out.new ≡ sets out.old to (a ∷ b ∷ c ∷ d ∷ []) }
{
    out[to] = a;
    out[to + 1] = b;
    out[to + 2] = c;
    out[to + 3] = d;
}

// Four bytes of the row, from its place i on, to where they stand when the row is laid at `at`.
// The loads come before the stores: so they are one load and one store of the machine. The same with eight.
// As one loop over N bytes, or by `copy_from_slice`, they are not: it would be byte after byte, or a call of C's `memmove`.
fn copy4(out: &mut [u8], at: usize, row: &[u8], i: usize)
    requires { (i + 4 ≤ length row.now) × (at + length row.now ≤ length out.old) }
    ensures { out.new ≡ sets out.old (at + i) (bytes_at 4 row.now i) }
{
    store4(out, at + i, row[i], row[i + 1], row[i + 2], row[i + 3]);
}

fn copy8(out: &mut [u8], at: usize, row: &[u8], i: usize)
    requires { (i + 8 ≤ length row.now) × (at + length row.now ≤ length out.old) }
    ensures { out.new ≡ sets out.old (at + i) (bytes_at 8 row.now i) }
{
    let e = row[i + 4];
    let f = row[i + 5];
    let g = row[i + 6];
    let h = row[i + 7];
    copy4(out, at, row, i);
    store4(out, at + i + 4, e, f, g, h);
}

// Up to three bytes: the first, the middle one and the last, which may be the same.
fn copy_tiny(out: &mut [u8], at: usize, row: &[u8])
    requires { (length row.now < 4) × (at + length row.now ≤ length out.old) }
    ensures { out.new ≡ sets out.old at row.now }
{
    let n = row.len();
    if n == 0 {
        return;
    }
    out[at] = row[0];
    out[at + n / 2] = row[n / 2];
    out[at + (n - 1)] = row[n - 1];
}

// Eight bytes at a time; the last eight may overlap those before them.
fn copy_eights(out: &mut [u8], at: usize, row: &[u8])
    requires { (8 ≤ length row.now) × (at + length row.now ≤ length out.old) }
    ensures { out.new ≡ sets out.old at row.now }
{
    // A `while`, as in `eights` of utf8.rt, where a `for` by `step_by` has twice the instructions.
    let last = row.len() - 8;
    let mut i: usize = 0;
    while i < last {
        copy8(out, at, row, i);
        i += 8;
    }
    copy8(out, at, row, last);
}

// A row by whole words, which may overlap: for a short one that takes fewer instructions than a loop over its bytes.
fn copy_short(out: &mut [u8], at: usize, row: &[u8])
    requires { at + length row.now ≤ length out.old }
    ensures { out.new ≡ sets out.old at row.now }
{
    let n = row.len();
    if n < 4 {
        copy_tiny(out, at, row);
        return;
    }
    if n < 8 {
        copy4(out, at, row, 0);
        copy4(out, at, row, n - 4);
        return;
    }
    copy_eights(out, at, row);
}

// Lays a row from a place on, and returns its length.
pub fn write_bytes(out: &mut [u8], at: usize, row: &[u8]) -> usize
    ensures value { result ≡ length row.now }
    ensures out_after { out.new ≡ laid row.now at out.old }
{
    let n = row.len();
    if at > out.len() || n > out.len() - at {
        return n;
    }
    if n < 64 {
        copy_short(out, at, row);
        return n;
    }
    // By `copy_from_slice` this would be a call of C's `memmove`, and of the C library the firmware has `memset` alone (tools/footprint).
    for i in 0..n {
        out[at + i] = row[i];
    }
    n
}

// How many decimal digits a number has.
pub fn decimal_width(n: u32) -> usize
    ensures { (result ≡ length (decimal n)) × (result ≤ 10) }
{
    // No plain count: the loop ends when no digit is left.
    let mut w: usize = 1;
    let mut rest = n / 10;
    while 0 < rest {
        rest /= 10;
        w += 1;
    }
    w
}

// Lays a number's decimal digits from a place on, and returns how many there are.
pub fn write_decimal(out: &mut [u8], at: usize, n: u32) -> usize
    ensures value { (result ≡ length (decimal n)) × (result ≤ 10) }
    ensures out_after { out.new ≡ laid (decimal n) at out.old }
{
    let w = decimal_width(n);
    if at > out.len() || w > out.len() - at {
        return w;
    }
    let mut rest = n;
    for k in (0..w).rev() {
        out[at + k] = (0x30 + rest % 10) as u8;
        rest /= 10;
    }
    w
}
