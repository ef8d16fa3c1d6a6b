// A place in an input, and the fields that are read there. Each field hands back the cursor behind it, or its refusal with its place.
ghost use Rattle.std.specs.Prelude.{◌≡◌, ◌+◌, ◌^◌, ◌≤◌, ◌<◌, length, leb, IfOk};
ghost use Rattle.wire.specs.Field.{uint_at, u8_at, u16_at, u24_at, u32_at, u64_at, str_at, text_at, tag_at};

use crate::answer::{Answer, Refusal};
use crate::number::{number_at, number8_at};
use crate::utf8::is_utf8;

#[derive(Clone, Copy, Debug, PartialEq, Eq)]
pub struct Cursor {
    pub at: usize,
}

// Where a text stands.
#[derive(Clone, Copy, Debug, PartialEq, Eq)]
pub struct Span {
    pub place: usize,
    pub length: usize,
}

// What a field holds, and the cursor behind it; or its refusal.
pub type Parsed<T> = Result<(T, Cursor), Refusal>;

// Whether n bytes stand from a place on.
fn whole(s: &[u8], at: usize, n: usize) -> bool
    ensures { result ≡ leb (at + n) (length s.now) }
{
    at <= s.len() && n <= s.len() - at
}

impl Cursor {
    // A byte is no sum of bytes: `get` is plainer than `be_uint`.
    #[tactic(auto, unfolding(crate::specs::Field::u8_at))]
    pub fn be_u8(self, s: &[u8]) -> Parsed<u8>
        ensures { result ≡ u8_at s.now self.at }
    {
        let at = self.at;
        match s.get(at) {
            Some(&n) => Ok((n, Cursor { at: at + 1 })),
            None => Answer::NotWhole.refuse(at),
        }
    }

    // The number in N bytes.
    fn be_uint<const N: usize>(self, s: &[u8]) -> Parsed<u64>
        requires { N ≤ 8 }
        ensures value { result ≡ uint_at N s.now self.at }
        ensures below { IfOk result (λ x. x.0 < 256 ^ N) }
    {
        let at = self.at;
        if !whole(s, at, N) {
            return Answer::NotWhole.refuse(at);
        }
        Ok((number_at(s, at, N), Cursor { at: at + N }))
    }

    #[tactic(auto, unfolding(crate::specs::Field::u16_at))]
    pub fn be_u16(self, s: &[u8]) -> Parsed<u16>
        ensures { result ≡ u16_at s.now self.at }
    {
        let (n, c) = self.be_uint::<2>(s)?;
        Ok((n as u16, c))
    }

    #[tactic(auto, unfolding(crate::specs::Field::u24_at))]
    pub fn be_u24(self, s: &[u8]) -> Parsed<u32>
        ensures { result ≡ u24_at s.now self.at }
    {
        let (n, c) = self.be_uint::<3>(s)?;
        Ok((n as u32, c))
    }

    #[tactic(auto, unfolding(crate::specs::Field::u32_at))]
    pub fn be_u32(self, s: &[u8]) -> Parsed<u32>
        ensures { result ≡ u32_at s.now self.at }
    {
        let (n, c) = self.be_uint::<4>(s)?;
        Ok((n as u32, c))
    }

    // By `number8_at`, which is one load.
    #[tactic(auto, unfolding(crate::specs::Field::u64_at))]
    pub fn be_u64(self, s: &[u8]) -> Parsed<u64>
        ensures { result ≡ u64_at s.now self.at }
    {
        let at = self.at;
        if !whole(s, at, 8) {
            return Answer::NotWhole.refuse(at);
        }
        Ok((number8_at(s, at), Cursor { at: at + 8 }))
    }

    // n bytes of text.
    #[tactic(auto, unfolding(crate::specs::Field::str_at))]
    pub fn take_str(self, s: &[u8], n: usize) -> Parsed<Span>
        ensures { result ≡ str_at n s.now self.at }
    {
        let at = self.at;
        if !whole(s, at, n) {
            return Answer::NotWhole.refuse(at);
        }
        let end = at + n;
        if !is_utf8(&s[at..end]) {
            return Answer::NotRight.refuse(at);
        }
        Ok((
            Span {
                place: at,
                length: n,
            },
            Cursor { at: end },
        ))
    }

    // Short text: its length has two bytes.
    pub fn parse_string(self, s: &[u8]) -> Parsed<Span>
        ensures { result ≡ text_at 2 s.now self.at }
    {
        let (n, c) = self.be_u16(s)?;
        c.take_str(s, n as usize)
    }

    // Long text: its length has four bytes.
    pub fn parse_long_string(self, s: &[u8]) -> Parsed<Span>
        ensures { result ≡ text_at 4 s.now self.at }
    {
        let (n, c) = self.be_u32(s)?;
        c.take_str(s, n as usize)
    }

    // Fixed bytes.
    #[tactic(auto, unfolding(crate::specs::Field::tag_at))]
    pub fn tag(self, s: &[u8], fixed: &[u8]) -> Result<Cursor, Refusal>
        ensures { result ≡ tag_at fixed.now s.now self.at }
    {
        let at = self.at;
        if !whole(s, at, fixed.len()) {
            return Answer::NotWhole.refuse(at);
        }
        let end = at + fixed.len();
        if &s[at..end] != fixed {
            return Answer::NotRight.refuse(at);
        }
        Ok(Cursor { at: end })
    }
}
