// Which header a message has.
ghost use Rattle.std.specs.Prelude.{◌≡◌, pos};
ghost use Rattle.layout.specs.Messages.Headers.{request_number, response_number};

pub fn befrolan_request_number(key: i64, version: i64) -> i64
    ensures { result ≡ pos (request_number key version) }
{
    frame::request_number(key, version)
}

pub fn befrolan_response_number(key: i64, version: i64) -> i64
    ensures { result ≡ pos (response_number key version) }
{
    frame::response_number(key, version)
}
