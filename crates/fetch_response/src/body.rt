// The walk over the body of a response: the same for a measure and for filling the tables.
ghost use Rattle.std.specs.Prelude.{◌≡◌, false, [], ◌∷◌};
ghost use Rattle.body_reading.specs.Store.{own, tab};
ghost use Rattle.body_reading.specs.Walk.{on, walk};
ghost use Rattle.fetch_response.specs.Shapes.{body_shape};
ghost use Rattle.fetch_response.specs.Walks.{of_walked};

use crate::ResponseBody;
use crate::marks::Marks;
use crate::topics::topics_in;
use body_reading::versioned::front_of;
use primitives::Refusal;

// A body, the place after it, and the marks of the tables.
#[derive(Clone, Copy)]
pub struct Walked {
    pub body: ResponseBody,
    pub next: usize,
    pub marks: Marks,
}

pub(crate) fn body_at(
    s: &[u8],
    v: u64,
    topics: &mut [u64],
    partitions: &mut [u64],
    aborted: &mut [u64],
) -> Result<Walked, Refusal>
    ensures { of_walked topics.new partitions.new aborted.new result ≡ on (walk false (body_shape v) 0 (own [] ∷ tab topics.old 0 ∷ tab partitions.old 0 ∷ tab aborted.old 0 ∷ [])) s.now 0 }
{
    let front = front_of(s, 1 <= v)?;
    let filled = topics_in(
        s,
        front.next,
        4 <= v,
        front.count,
        topics,
        partitions,
        aborted,
    )?;
    Ok(Walked {
        body: ResponseBody {
            throttle: front.throttle,
            topics: front.count,
        },
        next: filled.next,
        marks: filled.marks,
    })
}
