// The text check: how much of a text is well-formed UTF-8, and whether all of it is.
#![tactic(auto)]

mod classes;

ghost use Rattle.std.specs.Prelude.{[], ◌∷◌, ◌≡◌, ◌+◌, ◌<◌, ◌≤◌, length, drop};
ghost use Rattle.layout.specs.Utf8.{characters, first, tail, utf8, well_formed, within};
ghost use Rattle.utf8.specs.Class.{Along, Ascii, Ended, Right, after, class_of, four_of, second_of};

use classes::CLASSES;

// The high bit of each of eight bytes.
const HIGH: u64 = 9259542123273814144;

// A number and no enum: the table is proved as numbers, and the classes of three bytes and of four are ranges of them.
fn class(classes: &[u8; 256], b: u8) -> u8
    requires { Right classes.now }
    ensures { result ≡ class_of b }
{
    classes[b as usize]
}

// The least second byte of a character of this class, and the greatest.
fn low(k: u8) -> u8
    requires { (2 ≤ k) × (k < 9) }
    ensures { result ≡ (second_of k).0 }
{
    match k {
        2 => 0xA0,
        6 => 0x90,
        _ => 0x80,
    }
}

fn high(k: u8) -> u8
    requires { (2 ≤ k) × (k < 9) }
    ensures { result ≡ (second_of k).1 }
{
    match k {
        4 => 0x9F,
        8 => 0x8F,
        _ => 0xBF,
    }
}

fn between(b: u8, least: u8, most: u8) -> bool
    ensures { result ≡ within (least, most) b }
{
    least <= b && b <= most
}

// The length of the character at at, whose first byte is of a class of two bytes, three, four; 0 if it is cut or ill-formed.
// A function for each length: a loop over the ranges of the bytes after the first is no plainer.
fn two(s: &[u8], at: usize) -> usize
    requires { at < length s.now }
    ensures { result ≡ after (tail ∷ []) (drop (at + 1) s.now) }
{
    if s.len() - at < 2 {
        return 0;
    }
    if between(s[at + 1], 0x80, 0xBF) {
        return 2;
    }
    0
}

fn three(s: &[u8], at: usize, least: u8, most: u8) -> usize
    requires { at < length s.now }
    ensures { result ≡ after ((least, most) ∷ tail ∷ []) (drop (at + 1) s.now) }
{
    if s.len() - at < 3 {
        return 0;
    }
    if between(s[at + 1], least, most) {
        if between(s[at + 2], 0x80, 0xBF) {
            return 3;
        }
    }
    0
}

fn four(s: &[u8], at: usize, least: u8, most: u8) -> usize
    requires { at < length s.now }
    ensures { result ≡ after ((least, most) ∷ tail ∷ tail ∷ []) (drop (at + 1) s.now) }
{
    if s.len() - at < 4 {
        return 0;
    }
    if between(s[at + 1], least, most) {
        if between(s[at + 2], 0x80, 0xBF) {
            if between(s[at + 3], 0x80, 0xBF) {
                return 4;
            }
        }
    }
    0
}

// The length of the character at at; 0 if there is none.
fn character(classes: &[u8; 256], s: &[u8], at: usize) -> usize
    requires { Right classes.now × (at < length s.now) }
    ensures { result ≡ first characters (drop at s.now) }
{
    let k = class(classes, s[at]);
    if k == 0 {
        return 1;
    }
    if k == 1 {
        return two(s, at);
    }
    if k < 6 {
        return three(s, at, low(k), high(k));
    }
    if k < 9 {
        return four(s, at, low(k), high(k));
    }
    0
}

fn wide(b: u8) -> u64
    ensures { (result ≡ b) × (result < 256) }
{
    b as u64
}

// Four bytes in one number.
fn quad(s: &[u8], at: usize) -> u64
    requires { at + 4 ≤ length s.now }
    ensures { (result ≡ four_of s.now at) × (result < 4294967296) }
{
    ((wide(s[at + 3]) * 256 + wide(s[at + 2])) * 256 + wide(s[at + 1])) * 256 + wide(s[at])
}

// Eight bytes at once: ASCII if none has its high bit.
fn is_ascii(s: &[u8], at: usize) -> bool
    requires { at + 8 ≤ length s.now }
    ensures { Ascii s.now at result }
{
    (quad(s, at + 4) * 4294967296 + quad(s, at)) & HIGH == 0
}

// ASCII at the front, by eights.
fn eights(s: &[u8]) -> usize
    ensures { Along s.now result }
{
    // `step_by(8)` is no plainer: the place after the last eight is what is answered.
    let mut at = 0;
    while 8 <= s.len() - at {
        if !is_ascii(s, at) {
            return at;
        }
        at += 8;
    }
    at
}

// Whether the rest is ASCII by the last eight bytes, some of which may have been seen before.
fn ends_ascii(s: &[u8], from: usize) -> bool
    requires { Along s.now from }
    ensures { Ended s.now result }
{
    if 8 <= s.len() {
        if s.len() - 8 <= from {
            return is_ascii(s, s.len() - 8);
        }
    }
    false
}

// More of it, by the last eight or byte by byte. Most texts are ASCII to their end, and then the table is not made.
fn plain(s: &[u8], from: usize) -> usize
    requires { Along s.now from }
    ensures { Along s.now result }
{
    if ends_ascii(s, from) {
        return s.len();
    }
    // Tried and slower for short texts of ASCII: `for at in from..s.len()`.
    let mut at = from;
    while at < s.len() {
        if 128 <= s[at] {
            return at;
        }
        at += 1;
    }
    at
}

// The text from there on, character by character. An array constant is laid out anew wherever it is read: it is read once, and lent.
fn walk(s: &[u8], from: usize) -> usize
    requires { Along s.now from }
    ensures { result ≡ well_formed s.now }
{
    let classes = CLASSES;
    // Characters differ in length, so no range counts them.
    let mut at = from;
    while at < s.len() {
        let n = character(&classes, s, at);
        if n == 0 {
            return at;
        }
        at += n;
    }
    at
}

// The number of bytes at the front that are well-formed.
pub fn well_formed(s: &[u8]) -> usize
    ensures { result ≡ well_formed s.now }
{
    let at = plain(s, eights(s));
    if at == s.len() {
        return at;
    }
    walk(s, at)
}

pub fn is_text(s: &[u8]) -> bool
    ensures { result ≡ utf8 s.now }
{
    well_formed(s) == s.len()
}
