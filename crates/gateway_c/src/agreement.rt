// Version agreement: key, chosen version and broker's maximum of three APIs, one row after the other.
ghost use Rattle.std.specs.Prelude.{◌≡◌};
ghost use Rattle.gateway_api_versions.specs.Agreed.{agreed_numbers};

// The first row of a key decides; the choice is the highest common version, -1 if there is none; a key that is not listed has the maximum -1.
#[unsafe(no_mangle)]
pub extern "C" fn befrolan_agree(items: &[u64], rows: &mut [i64; 9])
    ensures { rows.new ≡ agreed_numbers items.now }
{
    gateway_api_versions::agreement::befrolan_agree(items, rows);
}
