// Which header a message has.
ghost use Rattle.std.specs.Prelude.{◌≡◌, pos};
ghost use Rattle.layout.specs.Messages.Headers.{request_number, response_number};

// The API key of ApiVersions, whose requests are flexible from version 3 on.
const API_VERSIONS: i64 = 18;

// The number of the header before a request.
pub fn request_number(key: i64, version: i64) -> i64
    ensures { result ≡ pos (request_number key version) }
{
    if key != API_VERSIONS {
        return 1;
    }
    if version < 3 {
        return 1;
    }
    2
}

// A response header without tags.
const UNTAGGED: i64 = 0;

// And before a response: for all of them here, for those of ApiVersions at every version.
pub fn response_number(key: i64, version: i64) -> i64
    ensures { result ≡ pos (response_number key version) }
{
    UNTAGGED
}
