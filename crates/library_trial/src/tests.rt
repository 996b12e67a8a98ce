//! One file for each library, and one for the greatest sizes.
mod branches;
mod dialogues;
mod rows;
mod samples;
mod sizes;
