// The C interface as a static library: the 21 entry points of include/befrolan.h. Each calls the function of the same name in the crates whose names begin with `gateway_`, and promises what that promises, word for word.
#![tactic(auto)]

pub mod agreement;
pub mod api_versions;
pub mod fetch;
pub mod frames;
pub mod metadata;
pub mod primitive;
pub mod tagged;
pub mod text;
