// Version agreement: key, chosen version and broker's maximum of three APIs, one row after the other.
ghost use Rattle.std.specs.Prelude.{◌≡◌};
ghost use Rattle.gateway_api_versions.specs.Agreed.{agreed_numbers};

use api_versions_agreement::agree;

fn agreed(items: &[u64]) -> [i64; 9]
    ensures { result ≡ agreed_numbers items.now }
{
    let rows = agree(items);
    let first = rows[0];
    let second = rows[1];
    let third = rows[2];
    [
        first[0], first[1], first[2], second[0], second[1], second[2], third[0], third[1], third[2],
    ]
}

// The first row of a key decides; the choice is the highest common version, -1 if there is none; a key that is not listed has the maximum -1.
pub fn befrolan_agree(items: &[u64], rows: &mut [i64; 9])
    ensures { rows.new ≡ agreed_numbers items.now }
{
    *rows = agreed(items);
}
