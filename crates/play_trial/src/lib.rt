//! What no clause of `tip_play` says: that a long script is played to its end while memory is there, and how a script ends whose
//! input or output is slow or fails.
#![tactic(auto)]

#[cfg(test)]
mod tests;
