// UTF-8 as RFC 3629 has it.
ghost use Rattle.std.specs.Prelude.{◌≡◌, true, ◌+◌, ◌≤◌, ◌<◌, length, [], drop};
ghost use Rattle.wire.specs.Utf8.{utf8, ends};
ghost use Rattle.wire.specs.Code.{Asked, Over, Onward, Stepped, Plain, Run, Fits, Owed, Paid};

// The character that a first byte begins: of how many bytes it is, and from three on the range of the second.
#[derive(Clone, Copy)]
enum Lead {
    One,
    Two,
    Three(u8, u8),
    Four(u8, u8),
}

fn lead_of(b: u8) -> Option<Lead>
    ensures { Asked b result }
{
    match b {
        0x00..=0x7F => Some(Lead::One),
        0xC2..=0xDF => Some(Lead::Two),
        0xE0 => Some(Lead::Three(0xA0, 0xBF)),
        0xE1..=0xEC => Some(Lead::Three(0x80, 0xBF)),
        0xED => Some(Lead::Three(0x80, 0x9F)),
        0xEE..=0xEF => Some(Lead::Three(0x80, 0xBF)),
        0xF0 => Some(Lead::Four(0x90, 0xBF)),
        0xF1..=0xF3 => Some(Lead::Four(0x80, 0xBF)),
        0xF4 => Some(Lead::Four(0x80, 0x8F)),
        _ => None,
    }
}

// The place behind the byte at i, where it is one from low to high.
fn over(s: &[u8], i: usize, low: u8, high: u8) -> Option<usize>
    ensures { Over s.now i low high result }
{
    let b = *s.get(i)?;
    if low <= b && b <= high {
        Some(i + 1)
    } else {
        None
    }
}

// UTF8-tail.
fn tail(s: &[u8], i: usize) -> Option<usize>
    ensures { Over s.now i 0x80 0xBF result }
{
    over(s, i, 0x80, 0xBF)
}

// Whether the four bytes at i are ASCII: or-ed together, they are compiled to one test of a word.
fn ascii4(s: &[u8], i: usize) -> bool
    requires { i + 4 ≤ length s.now }
    ensures { result ≡ true → Plain s.now i (i + 4) }
{
    (s[i] | s[i + 1] | s[i + 2] | s[i + 3]) < 0x80
}

// The same for eight bytes.
fn ascii8(s: &[u8], i: usize) -> bool
    requires { i + 8 ≤ length s.now }
    ensures { result ≡ true → Plain s.now i (i + 8) }
{
    (s[i] | s[i + 1] | s[i + 2] | s[i + 3] | s[i + 4] | s[i + 5] | s[i + 6] | s[i + 7]) < 0x80
}

// The same for 64 bytes: compiled to tests of 16 at once.
fn ascii64(s: &[u8], i: usize) -> bool
    requires { i + 64 ≤ length s.now }
    ensures { result ≡ true → Plain s.now i (i + 64) }
{
    let mut all: u8 = 0;
    for k in 0..64 {
        all |= s[i + k];
    }
    all < 0x80
}

// The place behind the whole sixty-fours of ASCII at `from`.
fn wide(s: &[u8], from: usize) -> usize
    requires { from ≤ length s.now }
    ensures { Run s.now from result }
{
    let mut i = from;
    while i + 64 <= s.len() && ascii64(s, i) {
        i += 64;
    }
    i
}

// The place behind the whole eights of ASCII at `from`. With `s.len() - i >= 8` as its test, the loop has more than twice the instructions.
fn blocks(s: &[u8], from: usize) -> usize
    requires { from ≤ length s.now }
    ensures { Run s.now from result }
{
    let mut i = from;
    while i + 8 <= s.len() && ascii8(s, i) {
        i += 8;
    }
    i
}

// The place behind the ASCII at `from`, byte by byte.
fn singles(s: &[u8], from: usize) -> usize
    requires { from ≤ length s.now }
    ensures { Run s.now from result }
{
    for i in from..s.len() {
        if s[i] >= 0x80 {
            return i;
        }
    }
    s.len()
}

// The place behind the ASCII at `from`.
fn ascii_run(s: &[u8], from: usize) -> usize
    requires { from ≤ length s.now }
    ensures { Run s.now from result }
{
    singles(s, blocks(s, wide(s, from)))
}

// Whether b may stand behind p, and that behind q, in text whose characters have up to three bytes. No branch, so that many are tested at once.
fn fits(q: u8, p: u8, b: u8) -> bool
    ensures { result ≡ true → Fits q p b }
{
    let due = (0xC0 <= p) | (0xE0 <= q);
    let tail = (0x80 <= b) & (b < 0xC0);
    let low = (p == 0xE0) & (b < 0xA0);
    let high = (p == 0xED) & (0xA0 <= b);
    let lead = (b < 0xC0) | (0xC2 <= b);
    (due == tail) & (low == false) & (high == false) & lead & (b < 0xF0)
}

// Whether the 32 bytes behind the two at i go on from them.
fn fits32(s: &[u8], i: usize) -> bool
    requires { i + 34 ≤ length s.now }
    ensures { result ≡ true → Owed s.now i (i + 32) }
{
    let mut ok = true;
    for k in 0..32 {
        ok = ok & fits(s[i + k], s[i + k + 1], s[i + k + 2]);
    }
    ok
}

// The last two bytes of the whole thirty-twos that go on from the two at `from`.
fn windows(s: &[u8], from: usize) -> usize
    requires { from + 2 ≤ length s.now }
    ensures { Owed s.now from result }
{
    let mut i = from;
    while i + 34 <= s.len() && fits32(s, i) {
        i += 32;
    }
    i
}

// The end of the character that the two bytes at i leave open, if any.
fn settle(s: &[u8], i: usize) -> Option<usize>
    requires { i + 2 ≤ length s.now }
    ensures { Paid s.now i result }
{
    let q = s[i];
    let p = s[i + 1];
    let next = i + 2;
    match p {
        0x00..=0xBF => { if q < 0xE0 { Some(next) } else { tail(s, next) } }
        0xC0..=0xDF => tail(s, next),
        0xE0 => tail(s, over(s, next, 0xA0, 0xBF)?),
        0xED => tail(s, over(s, next, 0x80, 0x9F)?),
        _ => tail(s, tail(s, next)?),
    }
}

// The place behind more text at j, right behind a character, where that text is long.
fn onward(s: &[u8], j: usize) -> Option<usize>
    ensures { Onward s.now j result }
{
    if j < 2 || s.len() < j || s.len() - j < 32 {
        return Some(j);
    }
    if 0xC0 <= s[j - 1] || 0xE0 <= s[j - 2] {
        return Some(j);
    }
    settle(s, windows(s, j - 2))
}

// The place behind the character at i, and behind more text that follows it; none where no character is there.
fn after(s: &[u8], i: usize) -> Option<usize>
    requires { i < length s.now }
    ensures { Stepped s.now i result }
{
    let next = i + 1;
    match lead_of(s[i])? {
        Lead::One => Some(ascii_run(s, next)),
        Lead::Two => onward(s, tail(s, next)?),
        Lead::Three(low, high) => onward(s, tail(s, over(s, next, low, high)?)?),
        Lead::Four(low, high) => tail(s, tail(s, over(s, next, low, high)?)?),
    }
}

// Whether characters stand from `start` to the end.
fn characters(s: &[u8], start: usize) -> bool
    requires { start ≤ length s.now }
    ensures { result ≡ ends [] (drop start s.now) }
{
    let mut i = start;
    while i < s.len() {
        let Some(next) = after(s, i) else {
            return false;
        };
        i = next;
    }
    true
}

// Whether up to three bytes are ASCII: they are the first, the one in the middle and the last.
fn tiny(s: &[u8]) -> bool
    requires { length s.now < 4 }
    ensures { result ≡ true → Plain s.now 0 (length s.now) }
{
    let n = s.len();
    if n == 0 {
        return true;
    }
    (s[0] | s[n / 2] | s[n - 1]) < 0x80
}

// Whether eight bytes or more are ASCII: eight at a time, and the last eight. Without the way out, or as a `for` by `step_by`, the loop has more than twice the instructions.
fn eights(s: &[u8]) -> bool
    requires { 8 ≤ length s.now }
    ensures { result ≡ true → Plain s.now 0 (length s.now) }
{
    let n = s.len();
    let mut i: usize = 8;
    while i < n {
        if !ascii8(s, i - 8) {
            return false;
        }
        i += 8;
    }
    ascii8(s, n - 8)
}

// Whether a text is ASCII. Its last word may overlap the one before it, so that no bytes are left to be looked at one by one.
fn short_ascii(s: &[u8]) -> bool
    ensures { result ≡ true → Plain s.now 0 (length s.now) }
{
    let n = s.len();
    if n < 4 {
        return tiny(s);
    }
    if n < 8 {
        return ascii4(s, 0) & ascii4(s, n - 4);
    }
    eights(s)
}

// Short text is ASCII as a rule: it is looked at for that first.
pub fn is_utf8(s: &[u8]) -> bool
    ensures { result ≡ utf8 s.now }
{
    if s.len() < 64 {
        return short_ascii(s) || characters(s, 0);
    }
    characters(s, wide(s, 0))
}
