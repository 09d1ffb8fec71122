// The response, written. Items are rows of four cells, tags rows of three; the items' tags come first.
// Versions from 1 on have a throttle time, and from 3 on tags and compact forms.
ghost use Rattle.std.specs.Prelude.{cond, false, ◌≡◌, [], ◌++◌, ◌∷◌, get_or, length, take, ◌*◌, ◌+◌, ◌/◌, ◌<◌, ◌^◌, ◌≤◌};
ghost use Rattle.layout.specs.Answers.{write_alone, write_answer};
ghost use Rattle.layout.specs.Messages.ApiVersions as Api;
ghost use Rattle.layout.specs.Primitives.{bytes, compact, fixed, never, plain, w32};
ghost use Rattle.layout.specs.Rows as Rows;
ghost use Rattle.layout.specs.Tables.{count, rows_of, sum};
ghost use Rattle.layout.specs.Write.{each};
ghost use Rattle.primitives_put.specs.Step.{Capped};
ghost use Rattle.body_reading.specs.Tagged.{tag_shape, tags_shape};
ghost use Rattle.body_writing.specs.Writes.{bytes_at, counted_bytes, items_bytes, refusal_of, row_bytes};
ghost use Rattle.primitives_put.specs.Put.{size_of};
ghost use Rattle.primitives_put.specs.Answers.{replied};
ghost use Rattle.body_writing.specs.Asked.{told};
ghost use Rattle.api_versions_response.specs.Answers.{of_response};
ghost use Rattle.api_versions_response.specs.Shapes.{item_shape, response_shape, throttle_shape};
ghost use Rattle.api_versions_response.specs.ItemShapes.{key_front};

use crate::ResponseBody;
use crate::judge::refusal;
use body_writing::ranges::rows_told;
use primitives::{MOST, NO_VERSION, TOO_LONG, at, no_room, version_of};
use primitives_put::{Form, Written};
use tagged_fields::writing::tag_buffer;

// ---- the walk

fn versions(out: &mut [u8], low: u64, high: u64) -> usize
    ensures { Capped (bytes 2 low ++ bytes 2 high) out.old result out.new }
{
    let a = primitives_put::lowest(out, low, 2);
    let p = primitives_put::behind(a, out.len());
    let b = primitives_put::lowest(&mut out[p..], high, 2);
    primitives_put::add(a, b)
}

fn key(out: &mut [u8], key: u64, low: u64, high: u64) -> usize
    ensures { Capped (row_bytes [] key_front (key ∷ low ∷ high ∷ [])) out.old result out.new }
{
    let a = primitives_put::lowest(out, key, 2);
    let p = primitives_put::behind(a, out.len());
    let b = versions(&mut out[p..], low, high);
    primitives_put::add(a, b)
}

// Tags, where the version has them.
fn tags_part(out: &mut [u8], flexible: bool, lent: &[u8], table: &[u64]) -> usize
    ensures { Capped (cond flexible (counted_bytes lent.now tag_shape plain 3 table.now) []) out.old result out.new }
{
    if flexible {
        return tag_buffer(out, lent, table);
    }
    0
}

// The cells of tags that an item takes.
fn tag_cells(flexible: bool, c: u64) -> usize
    requires { count c < 2 ^ 62 }
    ensures { result ≡ cond flexible (count c * 3) 0 }
{
    if flexible {
        return rows_told(c) as usize * 3;
    }
    0
}

// The first row of `items`, with the first rows of `tags`.
fn item(out: &mut [u8], flexible: bool, lent: &[u8], items: &[u64], tags: &[u64]) -> usize
    requires { (4 ≤ length items.now) × (count (get_or items.now 3 0) * 3 ≤ length tags.now) }
    ensures { Capped (bytes_at lent.now (item_shape flexible) 1 ([] ∷ items.now ∷ tags.now ∷ [])) out.old result out.new }
{
    let k = tag_cells(flexible, items[3]);
    let a = key(out, items[0], items[1], items[2]);
    let p = primitives_put::behind(a, out.len());
    let b = tags_part(&mut out[p..], flexible, lent, &tags[..k]);
    primitives_put::add(a, b)
}

// Item after item. A turn takes a row of one table and some rows of the other, so the slices that are left say it more plainly than an index.
fn all_items(out: &mut [u8], flexible: bool, lent: &[u8], items: &[u64], tags: &[u64]) -> usize
    requires { sum (told 3) (rows_of 4 items.now) * 3 ≤ length tags.now }
    ensures { Capped (items_bytes lent.now (item_shape flexible) (length items.now / 4) 1 ([] ∷ items.now ∷ tags.now ∷ [])) out.old result out.new }
{
    let mut done: usize = 0;
    let mut left = items;
    let mut free = tags;
    while 4 <= left.len() {
        let p = primitives_put::behind(done, out.len());
        let more = item(&mut out[p..], flexible, lent, left, free);
        done = primitives_put::add(done, more);
        let k = tag_cells(flexible, left[3]);
        free = &free[k..];
        left = &left[4..];
    }
    done
}

// ---- items without tags

fn no_tags(out: &mut [u8], flexible: bool) -> usize
    ensures { Capped (cond flexible (0 ∷ []) []) out.old result out.new }
{
    if flexible {
        return primitives_put::lowest(out, 0, 1);
    }
    0
}

// The first three cells of a row: its count is not looked at.
fn untagged_item(out: &mut [u8], flexible: bool, items: &[u64], i: usize) -> usize
    requires { i < length items.now / 4 }
    ensures { Capped (row_bytes [] (item_shape flexible) (take 3 (get_or (rows_of 4 items.now) i []))) out.old result out.new }
{
    let a = key(out, items[i * 4], items[i * 4 + 1], items[i * 4 + 2]);
    let p = primitives_put::behind(a, out.len());
    let b = no_tags(&mut out[p..], flexible);
    primitives_put::add(a, b)
}

// Item after item, in an output of just their size: the loop's own test tells the room of each.
// Not over `chunks_exact_mut`: a proof does not know what is in the chunks afterwards.
fn untagged_rows(out: &mut [u8], flexible: bool, width: usize, items: &[u64]) -> usize
    requires { (width ≡ cond flexible 7 6) × (length out.old ≡ length items.now / 4 * width) }
    ensures { Capped (each (λ x. row_bytes [] (item_shape flexible) (take 3 x)) (rows_of 4 items.now)) out.old result out.new }
{
    let mut p: usize = 0;
    let mut i: usize = 0;
    while width <= out.len() - p {
        untagged_item(&mut out[p..], flexible, items, i);
        p = p + width;
        i = i + 1;
    }
    p
}

// Rows of one width are measured by their number.
fn items_of_width(out: &mut [u8], flexible: bool, width: usize, items: &[u64]) -> usize
    requires { width ≡ cond flexible 7 6 }
    ensures { Capped (each (λ x. row_bytes [] (item_shape flexible) (take 3 x)) (rows_of 4 items.now)) out.old result out.new }
{
    let all = items.len() / 4 * width;
    if all <= out.len() {
        untagged_rows(&mut out[..all], flexible, width, items);
    }
    all
}

// The width is told as a number, so that the loop is compiled for each.
fn untagged_items(out: &mut [u8], flexible: bool, items: &[u64]) -> usize
    ensures { Capped (each (λ x. row_bytes [] (item_shape flexible) (take 3 x)) (rows_of 4 items.now)) out.old result out.new }
{
    if flexible {
        return items_of_width(out, true, 7, items);
    }
    items_of_width(out, false, 6, items)
}

// ---- all items

fn items_part(out: &mut [u8], flexible: bool, lent: &[u8], items: &[u64], tags: &[u64]) -> usize
    requires { sum (told 3) (rows_of 4 items.now) * 3 ≤ length tags.now }
    ensures { Capped (items_bytes lent.now (item_shape flexible) (length items.now / 4) 1 ([] ∷ items.now ∷ tags.now ∷ [])) out.old result out.new }
{
    if tags.len() < 3 {
        return untagged_items(out, flexible, items);
    }
    all_items(out, flexible, lent, items, tags)
}

fn form_of(flexible: bool) -> Form
    ensures { size_of result ≡ cond flexible (compact never) (fixed w32 never) }
{
    if flexible {
        return Form::Compact;
    }
    Form::Int32
}

// The items after their number.
fn array(out: &mut [u8], flexible: bool, lent: &[u8], items: &[u64], tags: &[u64]) -> usize
    requires { sum (told 3) (rows_of 4 items.now) * 3 ≤ length tags.now }
    ensures { Capped (bytes_at lent.now (Rows.array (Rows.items flexible) 1 (item_shape flexible) Rows.end) 0 ((length items.now / 4 ∷ []) ∷ items.now ∷ tags.now ∷ [])) out.old result out.new }
{
    let a = primitives_put::length(out, form_of(flexible), (items.len() / 4) as u64);
    let p = primitives_put::behind(a, out.len());
    let b = items_part(&mut out[p..], flexible, lent, items, tags);
    primitives_put::add(a, b)
}

fn throttle_time(out: &mut [u8], throttle: bool, n: u64) -> usize
    ensures { Capped (row_bytes [] (throttle_shape throttle Rows.end) (2 ∷ n ∷ [])) out.old result out.new }
{
    if throttle {
        return primitives_put::lowest(out, n, 4);
    }
    0
}

// What stands after the items.
fn end(out: &mut [u8], throttle: bool, flexible: bool, lent: &[u8], n: u64, table: &[u64]) -> usize
    ensures { Capped (bytes_at lent.now (throttle_shape throttle (tags_shape flexible 2)) 0 ((2 ∷ n ∷ length table.now / 3 ∷ []) ∷ [] ∷ table.now ∷ [])) out.old result out.new }
{
    let a = throttle_time(out, throttle, n);
    let p = primitives_put::behind(a, out.len());
    let b = tags_part(&mut out[p..], flexible, lent, table);
    primitives_put::add(a, b)
}

// What stands after the error.
fn rest(
    out: &mut [u8],
    throttle: bool,
    flexible: bool,
    lent: &[u8],
    n: u64,
    own: u64,
    items: &[u64],
    tags: &[u64],
) -> usize
    requires { count own + sum (told 3) (rows_of 4 items.now) ≡ length tags.now / 3 }
    ensures { Capped (bytes_at lent.now (Rows.array (Rows.items flexible) 1 (item_shape flexible) (throttle_shape throttle (tags_shape flexible 2))) 0 ((length items.now / 4 ∷ 2 ∷ n ∷ own ∷ []) ∷ items.now ∷ tags.now ∷ [])) out.old result out.new }
{
    let from = (tags.len() / 3 - rows_told(own) as usize) * 3;
    let a = array(out, flexible, lent, items, tags);
    let p = primitives_put::behind(a, out.len());
    let b = end(&mut out[p..], throttle, flexible, lent, n, &tags[from..]);
    primitives_put::add(a, b)
}

fn body(
    out: &mut [u8],
    throttle: bool,
    flexible: bool,
    lent: &[u8],
    error: u64,
    n: u64,
    own: u64,
    items: &[u64],
    tags: &[u64],
) -> usize
    requires { count own + sum (told 3) (rows_of 4 items.now) ≡ length tags.now / 3 }
    ensures { Capped (bytes_at lent.now (response_shape throttle flexible) 0 ((error ∷ length items.now / 4 ∷ 2 ∷ n ∷ own ∷ []) ∷ items.now ∷ tags.now ∷ [])) out.old result out.new }
{
    let a = primitives_put::lowest(out, error, 2);
    let p = primitives_put::behind(a, out.len());
    let b = rest(&mut out[p..], throttle, flexible, lent, n, own, items, tags);
    primitives_put::add(a, b)
}

// ---- the call

// At a version that is known: judged, measured and written.
fn written(
    out: &mut [u8],
    throttle: bool,
    flexible: bool,
    lent: &[u8],
    error: u64,
    count: u64,
    n: u64,
    own: u64,
    items: &[u64],
    tags: &[u64],
) -> Written
    ensures { replied result out.new ≡ write_alone (refusal_of lent.now 2 (response_shape false false) (response_shape throttle flexible) ((error ∷ count ∷ 2 ∷ n ∷ own ∷ []) ∷ items.now ∷ tags.now ∷ [])) (bytes_at lent.now (response_shape throttle flexible) 0 ((error ∷ length items.now / 4 ∷ 2 ∷ n ∷ own ∷ []) ∷ items.now ∷ tags.now ∷ [])) out.old }
{
    let e = refusal(throttle, lent.len(), items, tags, error, count, n, own);
    if e != 0 {
        return Err(at(e, 0));
    }
    let all = body(
        &mut out[..0],
        throttle,
        flexible,
        lent,
        error,
        n,
        own,
        items,
        tags,
    );
    if MOST < all {
        return Err(at(TOO_LONG, 0));
    }
    if out.len() < all {
        return Err(no_room(all));
    }
    body(out, throttle, flexible, lent, error, n, own, items, tags);
    Ok(all)
}

// `items` are rows of key, lowest and highest version and number of tags; `tags` rows of tag, and start and length of its data in `lent`.
pub fn write(
    out: &mut [u8],
    version: i64,
    lent: &[u8],
    body: ResponseBody,
    items: &[u64],
    tags: &[u64],
) -> Written
    ensures { replied result out.new ≡ write_answer Api.response version lent.now (of_response body ∷ items.now ∷ tags.now ∷ []) out.old }
{
    let v = version_of(version);
    if 3 < v {
        return Err(at(NO_VERSION, 0));
    }
    // unset, it is written as 0
    let n = body.throttle.unwrap_or(0);
    written(
        out,
        1 <= v,
        3 <= v,
        lent,
        body.error,
        body.items,
        n,
        body.tags,
        items,
        tags,
    )
}
