// A primitive written into what is left of an output; and what a call that writes replies.
// Each writer is lent the rest of the output after what was written before it, and its promise speaks of that part.
// It stores its bytes at the front where all of them fit, and nothing where they do not, and always says how many they are.
#![tactic(auto)]

ghost use Rattle.std.specs.Prelude.{◌≡◌, ◌++◌, drop, length, take, ◌+◌, ◌≤◌, min};
ghost use Rattle.layout.specs.Primitives.{bytes, flag_bytes, length_bytes, null_bytes, unsigned_bytes};
ghost use Rattle.primitives_put.specs.Step.{cap};
ghost use Rattle.primitives_put.specs.Put.{Put, behind_length, size_of};

use primitives::Refusal;

pub mod replies;

// How a length or count is carried: as a signed number of so many bits, −1 for null; or one more than it as an unsigned varint, 0 for null.
#[derive(Clone, Copy)]
pub enum Form {
    Int16,
    Int32,
    Compact,
}

// Two counts together. Over the limit counts are not told apart, so that no sum is too big for a number.
pub fn add(n: usize, m: usize) -> usize
    ensures { cap result ≡ cap (n + m) }
{
    n.saturating_add(m)
}

// Where the rest behind n bytes begins: at the end, where there are not so many.
pub fn behind(n: usize, room: usize) -> usize
    ensures { result ≡ min n room }
{
    n.min(room)
}

// The lowest k bytes of the cell, highest first.
pub fn lowest(out: &mut [u8], cell: u64, k: usize) -> usize
    ensures { Put (bytes k cell) out.old result out.new }
{
    if k <= out.len() {
        let mut left = cell;
        for p in (0..k).rev() {
            out[p] = (left % 256) as u8;
            left /= 256;
        }
    }
    k
}

pub fn boolean(out: &mut [u8], value: bool) -> usize
    ensures { Put (flag_bytes value) out.old result out.new }
{
    lowest(out, value as u64, 1)
}

// How many bytes the shortest form of n has: its significant bits divided by seven, rounded up; 0 takes one byte.
pub(crate) fn varint_length(n: u64) -> usize
    ensures { result ≡ length (unsigned_bytes n) }
{
    let bits = 64 - u64::leading_zeros(n);
    if bits == 0 {
        return 1;
    }
    ((bits + 6) / 7) as usize
}

// Seven bits a byte, lowest first, in the shortest form. Most have one byte.
pub fn unsigned_varint(out: &mut [u8], n: u64) -> usize
    ensures { Put (unsigned_bytes n) out.old result out.new }
{
    if n < 128 {
        return lowest(out, n, 1);
    }
    let count = varint_length(n);
    if count <= out.len() {
        // Tried and slower, for two to four bytes: `for p in 0..count - 1`.
        let mut left = n;
        let mut p = 0;
        while 128 <= left {
            let group = 128 + left % 128;
            out[p] = group as u8;
            left /= 128;
            p += 1;
        }
        out[p] = left as u8;
    }
    count
}

// ---- the bytes themselves

fn byte_by_byte(out: &mut [u8], content: &[u8]) -> usize
    ensures { Put content.now out.old result out.new }
{
    if content.len() <= out.len() {
        for p in 0..content.len() {
            out[p] = content[p];
        }
    }
    content.len()
}

// The first eight. All are read before the first is stored, so that one load and one store do.
// Tried and slower: `out[..8].copy_from_slice(..)` is a call for eight bytes too.
fn eight(out: &mut [u8], content: &[u8])
    requires { (8 ≤ length out.old) × (8 ≤ length content.now) }
    ensures { out.new ≡ take 8 content.now ++ drop 8 out.old }
{
    let a = content[0];
    let b = content[1];
    let c = content[2];
    let d = content[3];
    let e = content[4];
    let f = content[5];
    let g = content[6];
    let h = content[7];
    out[0] = a;
    out[1] = b;
    out[2] = c;
    out[3] = d;
    out[4] = e;
    out[5] = f;
    out[6] = g;
    out[7] = h;
}

// Eight to sixteen bytes: the first eight and the last eight.
fn up_to_sixteen(out: &mut [u8], content: &[u8]) -> usize
    requires { (8 ≤ length content.now) × (length content.now ≤ 16) }
    ensures { Put content.now out.old result out.new }
{
    let n = content.len();
    if n <= out.len() {
        eight(out, content);
        eight(&mut out[n - 8..], &content[n - 8..]);
    }
    n
}

// More: eight after eight, and the last eight. Tried and kept out: `copy_from_slice`, by which the library would ask for a function of the C library.
fn by_eights(out: &mut [u8], content: &[u8]) -> usize
    requires { 8 ≤ length content.now }
    ensures { Put content.now out.old result out.new }
{
    let n = content.len();
    if n <= out.len() {
        // The last turn is left out, and what it would copy overlaps: no range counts that.
        let mut p: usize = 0;
        while 8 < n - p {
            eight(&mut out[p..], &content[p..]);
            p += 8;
        }
        eight(&mut out[n - 8..], &content[n - 8..]);
    }
    n
}

// Longer contents go by eights.
pub fn raw(out: &mut [u8], content: &[u8]) -> usize
    ensures { Put content.now out.old result out.new }
{
    if content.len() < 8 {
        return byte_by_byte(out, content);
    }
    if content.len() <= 16 {
        return up_to_sixteen(out, content);
    }
    by_eights(out, content)
}

// One more than n, as a compact length has it. No slice and no table reaches the last branch: one more than n is 65 bits.
fn compact_length(out: &mut [u8], n: u64) -> usize
    ensures { Put (unsigned_bytes (n + 1)) out.old result out.new }
{
    match n.checked_add(1) {
        Some(more) => unsigned_varint(out, more),
        None => raw(out, &[128, 128, 128, 128, 128, 128, 128, 128, 128, 2]),
    }
}

// How many bytes that takes. Most lengths take one.
fn compact_size(n: u64) -> usize
    ensures { result ≡ length (unsigned_bytes (n + 1)) }
{
    if n < 127 {
        return 1;
    }
    match n.checked_add(1) {
        Some(more) => varint_length(more),
        None => 10,
    }
}

// How many bytes a length takes.
pub fn length_size(form: Form, n: u64) -> usize
    ensures { result ≡ length (length_bytes (size_of form) n) }
{
    match form {
        Form::Int16 => 2,
        Form::Int32 => 4,
        Form::Compact => compact_size(n),
    }
}

// The length or count of what follows.
pub fn length(out: &mut [u8], form: Form, n: u64) -> usize
    ensures { Put (length_bytes (size_of form) n) out.old result out.new }
{
    match form {
        Form::Int16 => lowest(out, n, 2),
        Form::Int32 => lowest(out, n, 4),
        Form::Compact => compact_length(out, n),
    }
}

// Null in the place of a length or count.
pub fn null(out: &mut [u8], form: Form) -> usize
    ensures { Put (null_bytes (size_of form)) out.old result out.new }
{
    match form {
        Form::Int16 => lowest(out, 65535, 2),
        Form::Int32 => lowest(out, 4294967295, 4),
        Form::Compact => unsigned_varint(out, 0),
    }
}

// A text or data behind its length.
pub fn sized(out: &mut [u8], form: Form, content: &[u8]) -> usize
    ensures { Put (behind_length (size_of form) content.now) out.old result out.new }
{
    let count = content.len() as u64;
    let head = length_size(form, count);
    let all = head + content.len();
    if all <= out.len() {
        length(out, form, count);
        raw(&mut out[head..], content);
    }
    all
}

// How many bytes were written, or why none were.
pub type Written = Result<usize, Refusal>;
