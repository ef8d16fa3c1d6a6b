// Numbers: the bits of an IEEE 754 double, printed as ECMAScript prints them. That is the shortest row of digits that reads back as the same number, the
// closest to it where there are several, with a point in it or zeros behind it, or with an exponent where that would be long.
ghost use Rattle.std.specs.Prelude.{◌≡◌, ◌≤◌};
ghost use Rattle.figures.specs.Double.{Parts, halved_of, whole_of};

use crate::big::Big;
use std::io::Write;
use std::{fmt, io};

const HIDDEN: u64 = 0x10_0000_0000_0000;
// No number has more digits, nor more than 324 zeros between the point and the first of them.
const DIGITS: usize = 17;

const ZEROS: u16 = 400;

// A finite number's magnitude is fraction * 2 ^ (exponent - 1075).
#[derive(Clone, Copy, PartialEq, Eq, Debug)]
pub(crate) struct Double {
    pub(crate) negative: bool,
    pub(crate) exponent: u64,
    pub(crate) fraction: u64,
}

// A magnitude as over / under, and the ways to the middles between it and the next numbers, likewise over `under`. Where the fraction is even, the middles read
// back as the number, too.
#[derive(Clone, Copy, PartialEq, Eq, Debug)]
struct Ratio {
    over: Big,
    under: Big,
    down: Big,
    up: Big,
    even: bool,
}

#[derive(Clone, Copy, PartialEq, Eq, Debug)]
enum Turn {
    Next(u8),
    Last(u8),
}

// So many digits of a row, and where the point stands: behind so many of them, or so many zeros before them where it is negative.
#[derive(Clone, Copy, PartialEq, Eq, Debug)]
struct Digits {
    row: [u8; DIGITS],
    count: usize,
    point: i16,
}

// A number, by its bits.
#[derive(Clone, Copy, PartialEq, Eq, Debug)]
pub struct Bits(pub u64);

impl Bits {
    pub(crate) fn is_finite(self) -> bool {
        self.0 / HIDDEN % 2048 != 2047
    }

    fn is_negative(self) -> bool {
        self.0 / 0x8000_0000_0000_0000 == 1
    }
}

// The exponent of a subnormal number is 1, and its fraction has no hidden bit.
impl From<Bits> for Double {
    ghost from_gives = { λ bits d. Parts bits.0 d.exponent d.fraction };

    fn from(bits: Bits) -> Double {
        let negative = bits.is_negative();
        match bits.0 / HIDDEN % 2048 {
            0 => Double {
                negative,
                exponent: 1,
                fraction: bits.0 % HIDDEN,
            },
            exponent => Double {
                negative,
                exponent,
                fraction: HIDDEN + bits.0 % HIDDEN,
            },
        }
    }
}

// fraction / 2 ^ halvings, where that is whole.
fn halved(fraction: u64, halvings: u64) -> Option<u64>
    ensures { result ≡ halved_of fraction halvings }
{
    let mut n = fraction;
    for _halving in 0..halvings {
        if n % 2 == 1 {
            return None;
        }
        n /= 2;
    }
    Some(n)
}

impl Double {
    // The magnitude of a whole number below 2 ^ 53.
    #[tactic(auto, unfolding(crate::specs::Double::whole_of))]
    pub(crate) fn whole(self) -> Option<u64>
        ensures { result ≡ whole_of self.exponent self.fraction }
    {
        halved(self.fraction, 1075u64.checked_sub(self.exponent)?)
    }

    // Whether the next number below is half as far away as the one above.
    fn is_edge(self) -> bool {
        self.fraction == HIDDEN && 1 < self.exponent
    }
}

impl From<Double> for Ratio {
    fn from(d: Double) -> Ratio {
        let mut r = Ratio {
            over: Big::from(d.fraction),
            under: Big::from(1),
            down: Big::from(1),
            up: Big::from(1),
            even: d.fraction % 2 == 0,
        };
        r.over.times(2);
        r.under.times(2);
        if d.is_edge() {
            r.over.times(2);
            r.under.times(2);
            r.up.times(2);
        }
        if d.exponent < 1075 {
            r.under.double(1075 - d.exponent);
        } else {
            r.over.double(d.exponent - 1075);
            r.down.double(d.exponent - 1075);
            r.up.double(d.exponent - 1075);
        }
        r
    }
}

impl Ratio {
    // Divides by ten until the middle above is below one, and returns how often.
    fn bring_down(&mut self) -> u16
        ensures { result ≤ 310 }
    {
        for n in 0..310 {
            if !self.over.reaches_with(&self.up, &self.under, self.even) {
                return n;
            }
            self.under.times(10);
        }
        310
    }

    // A quotient of one digit; what is left stays in `over`.
    fn divide(&mut self) -> u8
        ensures { result ≤ 9 }
    {
        for quotient in 0..9 {
            if !self.over.reaches(&self.under, true) {
                return quotient;
            }
            self.over.subtract(&self.under);
        }
        9
    }

    // The digit that a quotient and what is left give: it is the last where it, or the next larger one, lies within the middles.
    fn judge(&self, quotient: u8) -> Turn
        requires { quotient ≤ 9 }
    {
        let low = self.down.reaches(&self.over, self.even);
        let high = self.over.reaches_with(&self.up, &self.under, self.even);
        // In the middle of two digits the even one is taken.
        let nearer_high = self
            .over
            .reaches_with(&self.over, &self.under, quotient % 2 == 1);
        if high && (nearer_high || !low) {
            Turn::Last(quotient + 1)
        } else if low {
            Turn::Last(quotient)
        } else {
            Turn::Next(quotient)
        }
    }

    // The next digit of a number below one.
    fn next_digit(&mut self) -> Turn {
        self.over.times(10);
        self.down.times(10);
        self.up.times(10);
        let quotient = self.divide();
        self.judge(quotient)
    }
}

impl From<Ratio> for Digits {
    fn from(mut ratio: Ratio) -> Digits {
        let tens = ratio.bring_down();
        let mut row = [0u8; DIGITS];
        let mut count: usize = 0;
        let mut zeros: u16 = 0;
        // A `while`, since either of two counts ends it.
        while count < DIGITS && zeros < ZEROS {
            let turn = ratio.next_digit();
            match turn {
                Turn::Next(0) if count == 0 => zeros += 1,
                Turn::Next(digit) | Turn::Last(digit) => {
                    row[count] = digit;
                    count += 1;
                }
            }
            if let Turn::Last(_) = turn {
                break;
            }
        }
        Digits {
            row,
            count,
            point: tens as i16 - zeros as i16,
        }
    }
}

fn zeros<W: fmt::Write>(f: &mut fmt::Formatter<W>, n: usize) -> fmt::Result {
    for _ in 0..n {
        f.write_str("0")?;
    }
    Ok(())
}

impl Digits {
    // With a point behind the first so many, if any follow.
    fn pointed<W: fmt::Write>(&self, f: &mut fmt::Formatter<W>, whole: usize) -> fmt::Result {
        for (i, digit) in self.row.iter().take(self.count).enumerate() {
            if i == whole {
                f.write_str(".")?;
            }
            write!(f, "{digit}")?;
        }
        Ok(())
    }
}

// Zeros before or behind the digits, up to the point.
impl fmt::Display for Digits {
    fn fmt<W: fmt::Write>(&self, f: &mut fmt::Formatter<W>) -> fmt::Result {
        let point = self.point;
        match point {
            -5..=0 => {
                f.write_str("0.")?;
                zeros(f, (0 - point) as usize)?;
                self.pointed(f, DIGITS)
            }
            1..=21 => {
                let whole = point as usize;
                self.pointed(f, whole)?;
                zeros(f, whole.saturating_sub(self.count))
            }
            _ => {
                let exponent = point as i32 - 1;
                self.pointed(f, 1)?;
                write!(f, "e{exponent:+}")
            }
        }
    }
}

impl fmt::Display for Double {
    fn fmt<W: fmt::Write>(&self, f: &mut fmt::Formatter<W>) -> fmt::Result {
        if self.negative {
            f.write_str("-")?;
        }
        match self.whole() {
            Some(n) => write!(f, "{n}"),
            None => {
                let digits = Digits::from(Ratio::from(*self));
                write!(f, "{digits}")
            }
        }
    }
}

impl fmt::Display for Bits {
    fn fmt<W: fmt::Write>(&self, f: &mut fmt::Formatter<W>) -> fmt::Result {
        if self.is_finite() {
            let d = Double::from(*self);
            write!(f, "{d}")
        } else if self.0 % HIDDEN != 0 {
            f.write_str("NaN")
        } else if self.is_negative() {
            f.write_str("-Infinity")
        } else {
            f.write_str("Infinity")
        }
    }
}

pub fn number(page: &mut impl Write, bits: u64) -> io::Result<()> {
    write!(page, "{}", Bits(bits))
}
