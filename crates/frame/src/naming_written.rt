// The field of a header that a refused write names: the first in field order whose fault is the refusal's number. Tags have no fault, so no walk looks at them.
ghost use Rattle.std.specs.Prelude.{[], ◌∷◌, ◌≡◌};
ghost use Rattle.layout.specs.Answers.{meant, none_yet};
ghost use Rattle.layout.specs.Names.{name_fault};
ghost use Rattle.layout.specs.Primitives.{w32};
ghost use Rattle.layout.specs.Reading.{nowhere};
ghost use Rattle.layout.specs.Rows.{end, field, number};
ghost use Rattle.primitives.specs.Answers.{of_refusal};
ghost use Rattle.names.specs.Walks.{of_named};
ghost use Rattle.body_writing.specs.Blames.{of_blamed, row_blame};
ghost use Rattle.frame.specs.Answers.{of_request, of_response};
ghost use Rattle.frame.specs.Walks.{front_shape};

use crate::writing::client_fault;
use crate::{RequestHeader, ResponseHeader};
use body_writing::blames::{Blamed, blamed_by};
use body_writing::ranges::number_fault;
use names::{Found, Named, REQUEST_HEADER, RESPONSE_HEADER, is_fieldless, without_field};
use primitives::{MINUS_ONE, Refusal};

// The first of the fields that both request headers have whose fault is e.
fn request_field(e: u8, lent: &[u8], header: RequestHeader) -> Blamed
    ensures { of_blamed none_yet result ≡ row_blame lent.now e front_shape nowhere 0 none_yet (of_request header) }
{
    if number_fault(header.request_api_key, 32768) == e {
        return Err(Found {
            row: MINUS_ONE,
            field: 0,
        });
    }
    if number_fault(header.request_api_version, 32768) == e {
        return Err(Found {
            row: MINUS_ONE,
            field: 1,
        });
    }
    if number_fault(header.correlation_id, 2147483648) == e {
        return Err(Found {
            row: MINUS_ONE,
            field: 2,
        });
    }
    let client = header.client_id;
    if client_fault(lent, client) == e {
        return Err(Found {
            row: MINUS_ONE,
            field: 3,
        });
    }
    Ok(())
}

// The refusal e of a request header that was to be written, with its name: the same for headers 1 and 2.
pub(crate) fn request_name(e: Refusal, lent: &[u8], header: RequestHeader) -> Named
    ensures { of_named result ≡ name_fault 7 front_shape none_yet (meant lent.now (of_request header ∷ []) front_shape) (of_refusal e) }
{
    if is_fieldless(e.number) {
        return without_field(e, REQUEST_HEADER);
    }
    blamed_by(e, REQUEST_HEADER, request_field(e.number, lent, header))
}

// The same of a response header, which has one field beside its tags.
pub(crate) fn response_name(e: Refusal, header: ResponseHeader) -> Named
    ensures { of_named result ≡ name_fault 8 (field (number w32) end) none_yet (meant [] (of_response header ∷ []) (field (number w32) end)) (of_refusal e) }
{
    if is_fieldless(e.number) {
        return without_field(e, RESPONSE_HEADER);
    }
    if number_fault(header.correlation_id, 2147483648) == e.number {
        return blamed_by(
            e,
            RESPONSE_HEADER,
            Err(Found {
                row: MINUS_ONE,
                field: 0,
            }),
        );
    }
    without_field(e, RESPONSE_HEADER)
}
