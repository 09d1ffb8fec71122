// Version agreement: which version of each API we speak with a broker, from any ApiVersions item rows.
#![tactic(auto)]

ghost use Rattle.std.specs.Prelude.{◌≡◌};
ghost use Rattle.layout.specs.Agreement.{highest};
ghost use Rattle.api_versions_agreement.specs.Agreed.{of_range, range_of, shown_agreed, shown_agreement};

use primitives::MINUS_ONE;
use primitives::signs::signed;

// Cells from here on are negative numbers.
const NEGATIVE: u64 = 9223372036854775808;

// The broker's versions of a key, as the cells of its row.
#[derive(Clone, Copy)]
pub struct Range {
    pub min: u64,
    pub max: u64,
}

// The first row of the key decides. A row is key, minimum, maximum and number of tags; a cut row is no row.
fn range_of(items: &[u64], key: u64) -> Option<Range>
    ensures { of_range result ≡ range_of key items.now }
{
    let (rows, _) = items.as_chunks::<4>();
    for row in rows {
        if row[0] == key {
            return Some(Range {
                min: row[1],
                max: row[2],
            });
        }
    }
    None
}

// The highest version that low to high and the broker's range have in common: a cell, that of -1 where there is none, as a row tells it.
#[tactic(auto, unfolding(layout::specs::Agreement::highest, layout::specs::Agreement::negative, layout::specs::Agreement::reaches, layout::specs::Agreement::smaller))]
fn highest_common(low: u64, high: u64, theirs: Range) -> u64
    ensures { result ≡ highest low high (theirs.min, theirs.max) }
{
    if NEGATIVE <= theirs.max {
        return MINUS_ONE;
    }
    let v = high.min(theirs.max);
    if v < low {
        return MINUS_ONE;
    }
    if NEGATIVE <= theirs.min {
        return v;
    }
    if v < theirs.min {
        return MINUS_ONE;
    }
    v
}

// Key, chosen version and broker's maximum, where our versions are low to high.
fn agreed(items: &[u64], key: u64, low: u64, high: u64) -> [i64; 3]
    ensures { result ≡ shown_agreed key low high items.now }
{
    match range_of(items, key) {
        Some(theirs) => [
            signed(key),
            signed(highest_common(low, high, theirs)),
            signed(theirs.max),
        ],
        None => [signed(key), -1, -1],
    }
}

// A row each for ApiVersions, Metadata and Fetch: key, chosen version or -1, broker's maximum or -1.
pub fn agree(items: &[u64]) -> [[i64; 3]; 3]
    ensures { result ≡ shown_agreement items.now }
{
    [
        agreed(items, 18, 0, 3),
        agreed(items, 3, 0, 4),
        agreed(items, 1, 4, 4),
    ]
}
