// One field of a walk to the field in which place q lies: the place after it, where q is not in front of that. Else the walk stops: q lies in the field, or the field is refused.
#![tactic(auto, using(crate::proofs::Ends::ends_alike, crate::proofs::Ends::there_ends), unfolding(crate::specs::Walks::ends, layout::specs::Read::read_basic))]

ghost use Rattle.std.specs.Prelude.{◌≡◌, false, cond};
ghost use Rattle.std.proofs.Math.Option.{some};
ghost use Rattle.layout.specs.Primitives.{compact, empty, fixed, kept, never, plain, w16, w32, w64};
ghost use Rattle.layout.specs.Rows.{blob, boolean, natural, number, text};
ghost use Rattle.primitives.specs.Answers.{of_number, of_read};
ghost use Rattle.body_reading.specs.Moved.{array_items};
ghost use Rattle.body_reading.specs.Walk.{on};
ghost use Rattle.names.specs.Walks.{count_up_to, ends, extent, of_counted, of_passed, up_to};

use body_reading::places::{
    boolean_at, compact_string_at, data_at, int16_at, int32_at, int64_at, items_at,
    nullable_string_at, records_at, string_at, varint_at,
};
use primitives::{Read, Taken};

// What was read, where q is not in front of the place after it.
fn passed<T: Copy>(r: Read<T>, q: usize) -> Option<Taken<T>>
    ensures { of_counted result ≡ count_up_to q (of_read (λ v. v) r) }
{
    let taken = r.ok()?;
    if q < taken.next {
        return None;
    }
    Some(taken)
}

fn after<T: Copy>(r: Read<T>, q: usize) -> Option<usize>
    ensures { of_passed result ≡ up_to q (extent (of_read (λ v. v) r)) }
{
    Some(passed(r, q)?.next)
}

pub fn int16(s: &[u8], p: usize, q: usize) -> Option<usize>
    ensures { of_passed result ≡ ends q (number w16) s.now p }
{
    after(int16_at(s, p), q)
}

pub fn int32(s: &[u8], p: usize, q: usize) -> Option<usize>
    ensures { of_passed result ≡ ends q (number w32) s.now p }
{
    after(int32_at(s, p), q)
}

pub fn int64(s: &[u8], p: usize, q: usize) -> Option<usize>
    ensures { of_passed result ≡ ends q (number w64) s.now p }
{
    after(int64_at(s, p), q)
}

pub fn flag(s: &[u8], p: usize, q: usize) -> Option<usize>
    ensures { of_passed result ≡ ends q boolean s.now p }
{
    after(boolean_at(s, p), q)
}

pub fn varint(s: &[u8], p: usize, q: usize) -> Option<usize>
    ensures { of_passed result ≡ ends q natural s.now p }
{
    after(varint_at(s, p), q)
}

pub fn string(s: &[u8], p: usize, q: usize) -> Option<usize>
    ensures { of_passed result ≡ ends q (text (fixed w16 never)) s.now p }
{
    after(string_at(s, p), q)
}

pub fn compact_string(s: &[u8], p: usize, q: usize) -> Option<usize>
    ensures { of_passed result ≡ ends q (text (compact never)) s.now p }
{
    after(compact_string_at(s, p), q)
}

pub fn nullable_string(s: &[u8], p: usize, q: usize) -> Option<usize>
    ensures { of_passed result ≡ ends q (text (fixed w16 kept)) s.now p }
{
    after(nullable_string_at(s, p), q)
}

pub fn records(s: &[u8], p: usize, q: usize) -> Option<usize>
    ensures { of_passed result ≡ ends q (blob (fixed w32 empty)) s.now p }
{
    after(records_at(s, p), q)
}

pub fn data(s: &[u8], p: usize, q: usize) -> Option<usize>
    ensures { of_passed result ≡ ends q (blob plain) s.now p }
{
    after(data_at(s, p), q)
}

// The number of an array's elements; null is none.
pub fn count(s: &[u8], p: usize, q: usize, compact: bool) -> Option<Taken<u64>>
    ensures { of_counted result ≡ count_up_to q (on (array_items compact false) s.now p) }
{
    after_count(items_at(s, p, compact, false), q)
}

// The same of a number of elements that was read.
pub fn after_count(n: Read<u64>, q: usize) -> Option<Taken<u64>>
    ensures { of_counted result ≡ count_up_to q (of_number n) }
{
    passed(n, q)
}
