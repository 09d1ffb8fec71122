// The C interface to ApiVersions bodies and to version agreement: each answer as a struct of numbers, of the form that crates/gateway/src/lib.rt has.
#![tactic(auto)]

pub mod agreement;
pub mod request;
pub mod response;

// The C interface: a kind beside its number, and number, place and need beside the rest, as the theorems of `demands` name them (Demand1.read_api_versions_response).

// An ApiVersions response: `kind` is 0 where there is no throttle time and 2 where there is one; `tags` is the cell of -1 where they are absent.
#[repr(C)]
#[derive(Clone, Copy)]
pub struct ResponseNumbers {
    pub number: u64,
    pub place: u64,
    pub need: u64,
    pub used: u64,
    pub error: u64,
    pub items: u64,
    pub kind: u64,
    pub throttle: u64,
    pub tags: u64,
}

// An ApiVersions request: of the client's name and of its version a kind, 0 where it is absent and 2 where it is a part of the message, start and length.
#[repr(C)]
#[derive(Clone, Copy)]
pub struct RequestNumbers {
    pub number: u64,
    pub place: u64,
    pub need: u64,
    pub used: u64,
    pub named: u64,
    pub nstart: u64,
    pub nlength: u64,
    pub versioned: u64,
    pub vstart: u64,
    pub vlength: u64,
    pub tags: u64,
}
