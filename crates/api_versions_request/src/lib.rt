// The ApiVersions request, versions 0 to 3: what a client says of itself, read and written.
// Numbers are cells, as in the tables: 64 bits, two's complement.
#![tactic(auto)]

use primitives::{Read, Span};

mod naming;
mod naming_written;
mod reading;
mod writing;

pub use reading::read;
pub use writing::write;

// A text of a request, a part of the message or of what is lent. Versions below 3 lack it, and a writer may leave it unset.
pub type Text = Option<Span>;

// The own row of a request: the client's name and version, and the number of tags, the cell of -1 where they are unset or absent.
#[derive(Clone, Copy)]
pub struct RequestBody {
    pub name: Text,
    pub version: Text,
    pub tags: u64,
}

// The own row of a request and the bytes used.
pub type RequestReply = Read<RequestBody>;
