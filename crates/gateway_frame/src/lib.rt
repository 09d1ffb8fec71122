// The C interface to frames: each answer as a struct of numbers, of the form that crates/gateway/src/lib.rt has.
#![tactic(auto)]

use gateway::Numbers;

pub mod chosen;
pub mod request;
pub mod response;

// A frame with a request header: of the client name a kind, 1 where it is null and 2 where it is a part of the frame, start and length; `tags` is the cell of -1 where the header has none; start and length of the body.
#[repr(C)]
#[derive(Clone, Copy)]
pub struct RequestFrameNumbers {
    pub answer: Numbers,
    pub request_api_key: u64,
    pub request_api_version: u64,
    pub correlation_id: u64,
    pub client_id_kind: u64,
    pub client_id_start: u64,
    pub client_id_length: u64,
    pub tags: u64,
    pub body_start: u64,
    pub body_length: u64,
}

// A frame with a response header.
#[repr(C)]
#[derive(Clone, Copy)]
pub struct ResponseFrameNumbers {
    pub answer: Numbers,
    pub correlation_id: u64,
    pub tags: u64,
    pub body_start: u64,
    pub body_length: u64,
}
