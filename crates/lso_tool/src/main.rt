// The file tool: reads one LSO from standard input, by the whole reading, and prints the answer, the bytes used and the image bytes; where
// it is refused, the answer, the place and 0.
#![tactic(auto)]

use figures::input::read_all;
use std::io;
use std::io::Read;
use wire::text::part;

// Whether standard input goes on.
fn goes_on(from: &mut impl Read) -> io::Result<bool> {
    let mut one = [0u8; 1];
    Ok(0 < from.read(&mut one)?)
}

fn main(rt: HostRuntime) -> io::Result<()> {
    let mut input = [0u8; 8192];
    let mut image = [0u8; 24576];
    let mut from = rt.stdin();
    let n = read_all(&mut from, &mut input)?;
    if goes_on(&mut from)? {
        return println!(rt; "too big");
    }
    let r = lso::read::parse(part(&input, 0, n), &mut image);
    println!(rt; "{} {} {}", r.answer, r.used, r.made)
}
