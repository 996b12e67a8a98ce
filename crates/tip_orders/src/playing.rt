//! Scripts.
use crate::store::play_in_store;
use std::io::{self, BufReader, BufWriter};
use tip_history::play;
use tip_play::PlayFault;

/// Plays standard input to standard output, over the store in this file, or over rows in memory.
pub fn play_all(rt: &HostRuntime, store: Option<&str>) -> Result<(), PlayFault> {
    if let Some(path) = store {
        return play_in_store(rt, path);
    }
    let alloc = rt.alloc();
    let mut input = BufReader::new(alloc, rt.stdin()).map_err(|_| PlayFault::Memory)?;
    let mut output = BufWriter::new(alloc, io::writer(rt)).map_err(|_| PlayFault::Memory)?;
    play(alloc, &mut input, &mut output)
}
