// Whole numbers of up to 1,152 bits. What goes past the last word is lost; the numbers here stay below it.
ghost use Rattle.std.specs.Prelude.{◌≤◌, ◌<◌, ◌≡◌};

const WORDS: usize = 36;

const ZERO: Big = Big { words: [0; WORDS] };

// Words of 32 bits, the lowest first.
#[derive(Clone, Copy, PartialEq, Eq, Debug)]
pub(crate) struct Big {
    words: [u32; WORDS],
}

fn low_word(n: u64) -> u32 {
    (n % 0x1_0000_0000) as u32
}

impl From<u64> for Big {
    fn from(n: u64) -> Big {
        let mut made = ZERO;
        made.words[0] = low_word(n);
        made.words[1] = low_word(n / 0x1_0000_0000);
        made
    }
}

impl Big {
    #[tactic(auto, using(crate::proofs::Halving::product))]
    pub(crate) fn times(&mut self, by: u64)
        requires { by ≤ 65536 }
    {
        let mut carry: u64 = 0;
        for w in &mut self.words {
            let n = u64::from(*w) * by + carry;
            *w = low_word(n);
            carry = n / 0x1_0000_0000;
        }
    }

    // Times 2 ^ n.
    pub(crate) fn double(&mut self, n: u64) {
        for _ in 0..n / 16 {
            self.times(65536);
        }
        for _ in 0..n % 16 {
            self.times(2);
        }
    }

    // Takes b away, where it is not above.
    pub(crate) fn subtract(&mut self, b: &Big) {
        let mut carry: u64 = 1;
        for (w, v) in self.words.iter_mut().zip(&b.words) {
            let n = u64::from(*w) + (0xFFFF_FFFF - u64::from(*v)) + carry;
            *w = low_word(n);
            carry = n / 0x1_0000_0000;
        }
    }

    // Whether the sum with b is above c, or as large where that counts.
    pub(crate) fn reaches_with(&self, b: &Big, c: &Big, equal: bool) -> bool {
        let mut reached = equal;
        let mut carry: u64 = 0;
        for ((w, v), limit) in self.words.iter().zip(&b.words).zip(&c.words) {
            let n = u64::from(*w) + u64::from(*v) + carry;
            reached = decides(low_word(n), *limit, reached);
            carry = n / 0x1_0000_0000;
        }
        reached || 0 < carry
    }

    pub(crate) fn reaches(&self, c: &Big, equal: bool) -> bool {
        self.reaches_with(&ZERO, c, equal)
    }
}

// A word decides over the words below it.
fn decides(word: u32, limit: u32, reached: bool) -> bool {
    if word == limit { reached } else { limit < word }
}
