// The body of a Metadata request, versions 0 to 4: an array of names, or null, and from version 4 on whether topics may be created.
ghost use Rattle.std.specs.Prelude.{false, is_some, ◌≡◌, [], ◌∷◌, get_or, length, ◌/◌, ◌<◌};
ghost use Rattle.layout.specs.Answers.{write_alone, write_answer};
ghost use Rattle.layout.specs.Messages.Metadata as Meta;
ghost use Rattle.layout.specs.Primitives.{fixed, kept, w32};
ghost use Rattle.layout.specs.Rows as Rows;
ghost use Rattle.layout.specs.Tables as Tables;
ghost use Rattle.layout.specs.Tables.{rows_of};
ghost use Rattle.primitives_put.specs.Step.{Capped};
ghost use Rattle.body_writing.specs.Writes.{bytes_at, counted_bytes, refusal_of, row_bytes, rows_bytes};
ghost use Rattle.primitives_put.specs.Answers.{replied};
ghost use Rattle.metadata_request.specs.Answers.{flag_row, of_request};
ghost use Rattle.metadata_request.specs.Shapes.{creation_shape, name_shape, request_shape, topics_shape};

use crate::RequestBody;
use crate::judge::refusal;
use body_writing::ranges::part;
use primitives::{MINUS_ONE, MOST, NO_VERSION, TOO_LONG, at, no_room, version_of};
use primitives_put::{Form, Written};

// ---- the walk

fn name(out: &mut [u8], lent: &[u8], topics: &[u64], i: usize) -> usize
    requires { i < length topics.now / 2 }
    ensures { Capped (row_bytes lent.now name_shape (get_or (rows_of 2 topics.now) i [])) out.old result out.new }
{
    primitives_put::sized(
        out,
        Form::Int16,
        part(lent, topics[i * 2], topics[i * 2 + 1]),
    )
}

// Name behind name.
fn names(out: &mut [u8], lent: &[u8], topics: &[u64]) -> usize
    ensures { Capped (rows_bytes lent.now name_shape 2 topics.now) out.old result out.new }
{
    let mut done: usize = 0;
    for i in 0..topics.len() / 2 {
        let p = primitives_put::behind(done, out.len());
        let more = name(&mut out[p..], lent, topics, i);
        done = primitives_put::add(done, more);
    }
    done
}

// The names behind their number.
fn array(out: &mut [u8], lent: &[u8], topics: &[u64]) -> usize
    ensures { Capped (counted_bytes lent.now name_shape (fixed w32 kept) 2 topics.now) out.old result out.new }
{
    let a = primitives_put::length(out, Form::Int32, (topics.len() / 2) as u64);
    let p = primitives_put::behind(a, out.len());
    let b = names(&mut out[p..], lent, topics);
    primitives_put::add(a, b)
}

// A count of -1 is null, which is not the same as no names.
fn asked(out: &mut [u8], lent: &[u8], count: u64, topics: &[u64]) -> usize
    requires { Tables.count count ≡ length topics.now / 2 }
    ensures { Capped (bytes_at lent.now (topics_shape Rows.end) 0 ((count ∷ []) ∷ topics.now ∷ [])) out.old result out.new }
{
    if count == MINUS_ONE {
        return primitives_put::null(out, Form::Int32);
    }
    array(out, lent, topics)
}

// Auto-creation, `None` where the version lacks it.
fn creation(out: &mut [u8], flag: Option<bool>) -> usize
    ensures { Capped (row_bytes [] (creation_shape (is_some flag)) (flag_row flag)) out.old result out.new }
{
    match flag {
        Some(allowed) => primitives_put::boolean(out, allowed),
        None => 0,
    }
}

fn body(out: &mut [u8], lent: &[u8], count: u64, flag: Option<bool>, topics: &[u64]) -> usize
    requires { Tables.count count ≡ length topics.now / 2 }
    ensures { Capped (bytes_at lent.now (request_shape (is_some flag)) 0 ((count ∷ flag_row flag) ∷ topics.now ∷ [])) out.old result out.new }
{
    let a = asked(out, lent, count, topics);
    let p = primitives_put::behind(a, out.len());
    let b = creation(&mut out[p..], flag);
    primitives_put::add(a, b)
}

// ---- the call

// At a version that is known: judged, measured and written.
fn written(out: &mut [u8], lent: &[u8], count: u64, flag: Option<bool>, topics: &[u64]) -> Written
    ensures { replied result out.new ≡ write_alone (refusal_of lent.now 1 (request_shape false) (request_shape false) ((count ∷ 2 ∷ 1 ∷ []) ∷ topics.now ∷ [])) (bytes_at lent.now (request_shape (is_some flag)) 0 ((count ∷ flag_row flag) ∷ topics.now ∷ [])) out.old }
{
    let e = refusal(lent, count, topics);
    if e != 0 {
        return Err(at(e, 0));
    }
    let all = body(&mut out[..0], lent, count, flag, topics);
    if MOST < all {
        return Err(at(TOO_LONG, 0));
    }
    if out.len() < all {
        return Err(no_room(all));
    }
    body(out, lent, count, flag, topics);
    Ok(all)
}

// `topics` are rows of start and length of a name in `lent`. Unset, the broker may create topics.
pub fn write(
    out: &mut [u8],
    version: i64,
    lent: &[u8],
    body: RequestBody,
    topics: &[u64],
) -> Written
    ensures { replied result out.new ≡ write_answer Meta.request version lent.now (of_request body ∷ topics.now ∷ []) out.old }
{
    let v = version_of(version);
    if 4 < v {
        return Err(at(NO_VERSION, 0));
    }
    let allowed = body.creation.unwrap_or(true);
    let flag = (4 <= v).then_some(allowed);
    written(out, lent, body.topics, flag, topics)
}
