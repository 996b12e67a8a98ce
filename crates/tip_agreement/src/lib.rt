//! What holds of the runs of one realm, over the definitions of its machine, and what a realm can show for what it said and for what
//! it forgot (RFC 2371, sections 10, 13 and 15).
#![tactic(auto)]

pub mod laws;
