// The response, read: items (key, minimum, maximum, number of tags) go to one lent table, all tags (tag, start, length) to another, the items' first.
ghost use Rattle.std.specs.Prelude.{◌≡◌, [], ◌∷◌, false, true, ◌≤◌, pos, length};
ghost use Rattle.layout.specs.Answers.{prefix_read, read_answer, whole_read};
ghost use Rattle.layout.specs.Messages.ApiVersions as Api;
ghost use Rattle.body_reading.specs.Store.{own, tab};
ghost use Rattle.body_reading.specs.Walk.{Runs, on, walk};
ghost use Rattle.api_versions_response.specs.Answers.{of_response_reply};
ghost use Rattle.api_versions_response.specs.Shapes.{body_shape, tail_shape};
ghost use Rattle.api_versions_response.specs.Walks.{behind_items, is_left, of_measured, of_tail};

use crate::items::items_in;
use crate::{ResponseBody, ResponseReply};
use body_reading::places::{int16_at, items_at};
use body_reading::versioned::int32_if;
use body_reading::walks::admit;
use primitives::{BYTES_LEFT, Refusal, Taken, at, no_room};
use tagged_fields::reading::tags_if;

// What stands after the items, the place after it, and the mark of the tags' table.
#[derive(Clone, Copy)]
pub struct Tail {
    pub throttle: Option<u64>,
    pub tags: u64,
    pub next: usize,
    pub mark: usize,
}

// A body, the place after it, and the marks of the tables.
#[derive(Clone, Copy)]
pub struct Measured {
    pub body: ResponseBody,
    pub next: usize,
    pub items: usize,
    pub tags: usize,
}

// ---- around the items

// Throttle time and the body's own tags.
fn tail_at(
    s: &[u8],
    p: usize,
    throttled: bool,
    flexible: bool,
    tags: &mut [u64],
    mark: usize,
) -> Result<Tail, Refusal>
    ensures { Runs (λ e. walk e.whole (tail_shape throttled flexible) 0) s.now p (behind_items tags.old mark) (of_tail tags.new result) }
{
    let throttle = int32_if(s, p, throttled)?;
    let own = tags_if(s, throttle.next, flexible, tags, mark)?;
    Ok(Tail {
        throttle: throttle.value,
        tags: own.count,
        next: own.next,
        mark: own.mark,
    })
}

// ---- the body

fn body_at(
    s: &[u8],
    throttled: bool,
    flexible: bool,
    whole: bool,
    items: &mut [u64],
    tags: &mut [u64],
) -> Result<Measured, Refusal>
    ensures { of_measured items.new tags.new result ≡ on (walk whole (body_shape throttled flexible) 0 (own [] ∷ tab items.old 0 ∷ tab tags.old 0 ∷ [])) s.now 0 }
{
    let error = int16_at(s, 0)?;
    let count = items_at(s, error.next, flexible, whole)?;
    let rows = items_in(s, count.next, flexible, count.value, items, tags)?;
    let tail = tail_at(s, rows.next, throttled, flexible, tags, rows.tags)?;
    Ok(Measured {
        body: ResponseBody {
            error: error.value,
            items: count.value,
            throttle: tail.throttle,
            tags: tail.tags,
        },
        next: tail.next,
        items: rows.items,
        tags: tail.mark,
    })
}

// A whole read that ends before the message.
fn is_left(whole: bool, next: usize, size: usize) -> bool
    ensures { result ≡ is_left whole next size }
{
    whole && next < size
}

// Once version and size are judged: over no room the walk measures; then what is left, then room in table order; then it fills.
fn judged(msg: &[u8], v: u64, whole: bool, items: &mut [u64], tags: &mut [u64]) -> ResponseReply
    requires { (v ≤ 3) × (length msg.now ≤ 1048576) }
    ensures { (of_response_reply result, items.new ∷ tags.new ∷ []) ≡ read_answer whole Api.response (pos v) (items.old ∷ tags.old ∷ []) msg.now }
{
    let measured = body_at(msg, 1 <= v, 3 <= v, whole, &mut items[..0], &mut tags[..0])?;
    if is_left(whole, measured.next, msg.len()) {
        return Err(at(BYTES_LEFT, measured.next));
    }
    if items.len() / 4 < measured.items / 4 {
        return Err(no_room(measured.items / 4));
    }
    if tags.len() / 3 < measured.tags / 3 {
        return Err(no_room(measured.tags / 3));
    }
    // What fits the tables is read again as it was.
    let _ = body_at(msg, 1 <= v, 3 <= v, whole, items, tags);
    Ok(Taken {
        value: measured.body,
        next: measured.next,
    })
}

fn answered(
    msg: &[u8],
    version: i64,
    whole: bool,
    items: &mut [u64],
    tags: &mut [u64],
) -> ResponseReply
    ensures { (of_response_reply result, items.new ∷ tags.new ∷ []) ≡ read_answer whole Api.response version (items.old ∷ tags.old ∷ []) msg.now }
{
    let v = admit(version, 3, msg.len())?;
    judged(msg, v, whole, items, tags)
}

// ---- the calls: each leaves the tables as they were where it refuses, and what is after the rows filled where it does not

// A prefix read, as the Rust reads: null items are none, and bytes may be left over.
pub fn read(msg: &[u8], version: i64, items: &mut [u64], tags: &mut [u64]) -> ResponseReply
    ensures { (of_response_reply result, items.new ∷ tags.new ∷ []) ≡ prefix_read Api.response version (items.old ∷ tags.old ∷ []) msg.now }
{
    answered(msg, version, false, items, tags)
}

// A whole read: the body of one layout is a body of no other.
pub fn read_whole(msg: &[u8], version: i64, items: &mut [u64], tags: &mut [u64]) -> ResponseReply
    ensures { (of_response_reply result, items.new ∷ tags.new ∷ []) ≡ whole_read Api.response version (items.old ∷ tags.old ∷ []) msg.now }
{
    answered(msg, version, true, items, tags)
}

// The body that answers a request sent at version `sent` is read whole at that version.
pub fn read_answer(msg: &[u8], sent: i64, items: &mut [u64], tags: &mut [u64]) -> ResponseReply
    ensures { (of_response_reply result, items.new ∷ tags.new ∷ []) ≡ whole_read Api.response sent (items.old ∷ tags.old ∷ []) msg.now }
{
    read_whole(msg, sent, items, tags)
}
