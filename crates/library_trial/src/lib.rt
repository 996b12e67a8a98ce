//! What no clause of the lower libraries says: that calls succeed at great sizes while memory is ample, and without memory where
//! nothing grows; that reading, writing and memory are blamed only where they failed; and which branches of a dropped party are
//! told.
#![tactic(auto)]

#[cfg(test)]
mod tests;
