//! What processes tell that follow one another, each of which declares a realm in its own way: agreement across them (RFC 2371,
//! sections 10, 13 and 15).
#![tactic(auto)]

pub mod examples;
pub mod laws;
