// What is refused of an ApiVersions response before a byte is written: tables that do not add up, and numbers that the version cannot carry.
ghost use Rattle.std.specs.Prelude.{cond, false, true, ◌≡◌, [], ◌∷◌, get_or, length, eqb, ◌/◌, ◌<◌};
ghost use Rattle.layout.specs.Primitives.{holds, w32};
ghost use Rattle.layout.specs.Tables.{good, rows_of};
ghost use Rattle.body_writing.specs.Writes.{fault_at, row_fault, rows_fault};
ghost use Rattle.api_versions_response.specs.Shapes.{response_shape};
ghost use Rattle.api_versions_response.specs.ItemShapes.{key_front};

use body_writing::ranges::{Row, all_ranged, do_items_tell, rows_told};
use primitives::{BAD_TABLES, TOO_WIDE};
use primitives_put::replies::fits;

// ---- 13

fn is_good(size: usize, count: u64, own: u64, items: &[u64], tags: &[u64]) -> bool
    ensures { result ≡ good size 2 (response_shape false false) ((0 ∷ count ∷ 0 ∷ 0 ∷ own ∷ []) ∷ items.now ∷ tags.now ∷ []) }
{
    if count != (items.len() / 4) as u64 {
        return false;
    }
    let rows = (tags.len() / 3) as u64;
    let k = rows_told(own);
    if rows < k {
        return false;
    }
    do_items_tell(items, rows - k) && all_ranged(size, tags, Row::Tag)
}

// ---- 11

fn row_fits(key: u64, low: u64, high: u64) -> bool
    ensures { result ≡ eqb (row_fault [] key_front (key ∷ low ∷ high ∷ [])) 0 }
{
    fits(key, 32768) && fits(low, 32768) && fits(high, 32768)
}

// The same of row i.
fn fits_at(items: &[u64], i: usize) -> bool
    requires { i < length items.now / 4 }
    ensures { result ≡ eqb (row_fault [] key_front (get_or (rows_of 4 items.now) i [])) 0 }
{
    row_fits(items[i * 4], items[i * 4 + 1], items[i * 4 + 2])
}

// Two rows a turn, the numbers of both loaded before one is judged, so that one test does for all six.
fn all_fit(items: &[u64]) -> bool
    ensures { result ≡ eqb (rows_fault [] key_front 4 items.now) 0 }
{
    let n = items.len() / 4;
    for turn in 0..n / 2 {
        let a = fits_at(items, turn * 2);
        let b = fits_at(items, turn * 2 + 1);
        if !a {
            return false;
        }
        if !b {
            return false;
        }
    }
    let last = n / 2 * 2;
    if last < n {
        return fits_at(items, last);
    }
    true
}

fn throttle_fits(throttle: bool, n: u64) -> bool
    ensures { result ≡ cond throttle (holds w32 n) true }
{
    !throttle || fits(n, 2147483648)
}

// Tags have no fault: the layout without them says all.
fn is_carried(throttle: bool, error: u64, n: u64, items: &[u64]) -> bool
    ensures { result ≡ eqb (fault_at [] (response_shape throttle false) 0 ((error ∷ length items.now / 4 ∷ 2 ∷ n ∷ 0 ∷ []) ∷ items.now ∷ [] ∷ [])) 0 }
{
    fits(error, 32768) && throttle_fits(throttle, n) && all_fit(items)
}

// 13, 11, or 0 for neither. A number and no Option: its promise is the definition's number, which has 0 for none.
pub(crate) fn refusal(
    throttle: bool,
    size: usize,
    items: &[u64],
    tags: &[u64],
    error: u64,
    count: u64,
    n: u64,
    own: u64,
) -> u8
    ensures { result ≡ cond (good size 2 (response_shape false false) ((0 ∷ count ∷ 0 ∷ 0 ∷ own ∷ []) ∷ items.now ∷ tags.now ∷ [])) (fault_at [] (response_shape throttle false) 0 ((error ∷ length items.now / 4 ∷ 2 ∷ n ∷ 0 ∷ []) ∷ items.now ∷ [] ∷ [])) 13 }
{
    if !is_good(size, count, own, items, tags) {
        return BAD_TABLES;
    }
    if !is_carried(throttle, error, n, items) {
        return TOO_WIDE;
    }
    0
}
