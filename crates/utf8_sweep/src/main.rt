// Goes through short strings of bytes and tells, for each kind, how many are text, and a digest of the lengths of
// their well-formed beginnings. expected.py has what it must write from another decoder.
#![tactic(auto)]

ghost use Rattle.std.specs.Prelude.{◌<◌, ◌≤◌};

use std::{fmt, io};

#[derive(Default, Drop)]
pub struct Tally {
    pub seen: u64,
    pub good: u64,
    pub digest: u64,
}

impl fmt::Display for Tally {
    fn fmt<W: fmt::Write>(&self, f: &mut fmt::Formatter<W>) -> fmt::Result {
        write!(f, "{} of {}, digest {}", self.good, self.seen, self.digest)
    }
}

impl Tally {
    // With one string more. No string is longer than 20.
    fn with(self, s: &[u8]) -> Tally {
        let n = (utf8::well_formed(s) % 32) as u64;
        Tally {
            seen: self.seen.wrapping_add(1),
            good: self.good.wrapping_add(utf8::is_text(s) as u64),
            digest: (self.digest % 1000003 * 31 + n + 1) % 1000003,
        }
    }
}

// The last 3 - from bytes of the numbers below end, written in three bytes.
fn short(from: usize, end: u32) -> Tally
    requires { (from ≤ 3) × (end ≤ 16777216) }
{
    let mut t = Tally::default();
    for i in 0..end {
        t = t.with(&i.to_be_bytes()[from + 1..]);
    }
    t
}

// Bytes at the ends of ranges, and between.
const EDGES: [u8; 12] = [
    0x00, 0x41, 0x7F, 0x80, 0x8F, 0x90, 0x9F, 0xA0, 0xBF, 0xC0, 0xE0, 0xFF,
];

// The i-th string of four bytes: the first from EF to F5, the second from 7F to C0, two edges.
fn quad(i: usize) -> [u8; 4]
    requires { i < 66528 }
{
    [
        (0xEF + i / 9504) as u8,
        (0x7F + i / 144 % 66) as u8,
        EDGES[i / 12 % 12],
        EDGES[i % 12],
    ]
}

fn quads() -> Tally {
    let mut t = Tally::default();
    for i in 0..66528 {
        t = t.with(&quad(i));
    }
    t
}

// The same at each of 17 places among ASCII bytes.
fn placed(i: usize, at: usize) -> [u8; 20]
    requires { (i < 66528) × (at < 17) }
{
    let mut s = [b'a'; 20];
    s[at..at + 4].copy_from_slice(&quad(i));
    s
}

fn long() -> Tally {
    let mut t = Tally::default();
    for i in 0..66528 {
        for at in 0..17 {
            t = t.with(&placed(i, at));
        }
    }
    t
}

fn main(rt: HostRuntime) -> io::Result<()> {
    println!(rt; "one byte: {}", short(2, 256))?;
    println!(rt; "two bytes: {}", short(1, 65536))?;
    println!(rt; "three bytes: {}", short(0, 16777216))?;
    println!(rt; "four bytes: {}", quads())?;
    println!(rt; "twenty bytes: {}", long())
}
