// The field of a response that a refused write names: the first in field order that is too wide. Tags have no fault, so the layout without them says all.
ghost use Rattle.std.specs.Prelude.{false, [], ◌∷◌, ◌≢◌, ◌≡◌, get_or, length, ◌/◌, ◌<◌};
ghost use Rattle.layout.specs.Answers.{meant, none_yet};
ghost use Rattle.layout.specs.Names.{name_fault};
ghost use Rattle.layout.specs.Reading.{nowhere};
ghost use Rattle.layout.specs.Rows.{end};
ghost use Rattle.layout.specs.Tables.{rows_of};
ghost use Rattle.primitives.specs.Answers.{of_refusal};
ghost use Rattle.names.specs.Walks.{of_named};
ghost use Rattle.body_writing.specs.Blames.{of_blamed, row_blame, rows_blame};
ghost use Rattle.api_versions_response.specs.Blames.{response_blame};
ghost use Rattle.api_versions_response.specs.ItemShapes.{key_front};
ghost use Rattle.api_versions_response.specs.Shapes.{response_shape, throttle_shape};

use body_writing::blames::{Blamed, blamed_by};
use body_writing::ranges::number_fault;
use names::{API_VERSIONS_RESPONSE, Found, Named, begin, is_fieldless, without_field};
use primitives::{MINUS_ONE, Refusal};

const ITEMS: usize = 1;

// The first field of row i whose fault is e. `row` is the number of the row in its table.
fn item(e: u8, items: &[u64], i: usize, row: u64) -> Blamed
    requires { i < length items.now / 4 }
    ensures { of_blamed [] result ≡ row_blame [] e key_front row 0 [] (get_or (rows_of 4 items.now) i []) }
{
    if number_fault(items[i * 4], 32768) == e {
        return Err(Found { row, field: 0 });
    }
    if number_fault(items[i * 4 + 1], 32768) == e {
        return Err(Found { row, field: 1 });
    }
    if number_fault(items[i * 4 + 2], 32768) == e {
        return Err(Found { row, field: 2 });
    }
    Ok(())
}

// The same of all rows.
fn all_items(e: u8, items: &[u64], begun: &mut [u64]) -> Blamed
    ensures { of_blamed begun.new result ≡ rows_blame [] e key_front 4 1 items.now begun.old }
{
    for i in 0..items.len() / 4 {
        let row = begin(begun, ITEMS);
        item(e, items, i, row)?;
    }
    Ok(())
}

// The throttle time, where the version has one.
fn throttle_time(e: u8, throttle: bool, n: u64) -> Blamed
    ensures { of_blamed [] result ≡ row_blame [] e (throttle_shape throttle end) nowhere 2 [] (2 ∷ n ∷ []) }
{
    if !throttle {
        return Ok(());
    }
    if number_fault(n, 2147483648) == e {
        return Err(Found {
            row: MINUS_ONE,
            field: 2,
        });
    }
    Ok(())
}

// Error, items and throttle time, in field order.
fn body(e: u8, throttle: bool, error: u64, n: u64, items: &[u64], begun: &mut [u64]) -> Blamed
    ensures { of_blamed begun.new result ≡ response_blame e throttle error n items.now begun.old }
{
    if number_fault(error, 32768) == e {
        return Err(Found {
            row: MINUS_ONE,
            field: 0,
        });
    }
    all_items(e, items, begun)?;
    throttle_time(e, throttle, n)
}

// The refusal e with its name; n is the throttle time, 0 where it is unset.
pub(crate) fn with_name(e: Refusal, throttle: bool, error: u64, n: u64, items: &[u64]) -> Named
    requires { e.number ≢ 0 }
    ensures { of_named result ≡ name_fault 2 (response_shape throttle false) none_yet (meant [] ((error ∷ length items.now / 4 ∷ 2 ∷ n ∷ 0 ∷ []) ∷ items.now ∷ [] ∷ []) (response_shape throttle false)) (of_refusal e) }
{
    if is_fieldless(e.number) {
        return without_field(e, API_VERSIONS_RESPONSE);
    }
    let mut begun = [0u64; 8];
    blamed_by(
        e,
        API_VERSIONS_RESPONSE,
        body(e.number, throttle, error, n, items, &mut begun),
    )
}
