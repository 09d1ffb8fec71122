// Frames: a size of four bytes, a header, and a body that is not read. Read and written, with Kafka's request headers 1 and 2 and response headers 0 and 1.
// Numbers are cells, as in the tables: 64 bits, two's complement. Places count from the frame's first byte.
#![tactic(auto)]

use primitives::{Field, Read, Span};

mod naming;
mod naming_written;
mod numbers;
mod reading;
mod writing;

pub use numbers::{request_number, response_number};
pub use reading::{read_request, read_response};
pub use writing::{write_request, write_response};

// The row of a request header, under the names of Kafka's guide. `tags` is how many there are, the cell of -1 where they are unset or absent.
#[derive(Clone, Copy)]
pub struct RequestHeader {
    pub request_api_key: u64,
    pub request_api_version: u64,
    pub correlation_id: u64,
    pub client_id: Field,
    pub tags: u64,
}

// The row of a response header.
#[derive(Clone, Copy)]
pub struct ResponseHeader {
    pub correlation_id: u64,
    pub tags: u64,
}

// A header, and the body as a part of what was lent.
#[derive(Clone, Copy)]
pub struct Frame<H> {
    pub header: H,
    pub body: Span,
}

// What a reader of frames answers: the place after it is the end of the whole frame.
pub type RequestFrame = Read<Frame<RequestHeader>>;

pub type ResponseFrame = Read<Frame<ResponseHeader>>;
