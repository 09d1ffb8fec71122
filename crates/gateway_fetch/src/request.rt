// Fetch requests: a body's own row is replica, max wait, min bytes, max bytes (kind, number), isolation level (kind, number) and number of topics.
ghost use Rattle.std.specs.Prelude.{◌≡◌, [], ◌∷◌};
ghost use Rattle.layout.specs.Answers.{write_answer};
ghost use Rattle.layout.specs.Messages.Fetch as Fetch;
ghost use Rattle.fetch_request.specs.Answers.{of_request};
ghost use Rattle.gateway.specs.Replies.{numbers, told};
ghost use Rattle.gateway_fetch.specs.Replies.{request_row};

use body_reading::cells::of_row;
use fetch_request::RequestBody;
use gateway::{Numbers, written};

fn body_of(row: &[u64; 8]) -> RequestBody
    ensures { of_request result ≡ request_row row.now }
{
    RequestBody {
        replica: row[0],
        max_wait: row[1],
        min_bytes: row[2],
        max_bytes: of_row(row[3], row[4]),
        isolation: of_row(row[5], row[6]),
        topics: row[7],
    }
}

// `body` is the own row; `topics` has a row of start and length of each name, which is a part of `lent`, and number of partitions; `partitions` one of index, offset and max bytes.
pub fn befrolan_write_fetch_request(
    out: &mut [u8],
    version: i64,
    lent: &[u8],
    body: &[u64; 8],
    topics: &[u64],
    partitions: &[u64],
) -> Numbers
    ensures { (result, out.new) ≡ told numbers (write_answer Fetch.request version lent.now (request_row body.now ∷ topics.now ∷ partitions.now ∷ []) out.old) }
{
    written(fetch_request::write(out, version, lent, body_of(body), topics, partitions))
}
