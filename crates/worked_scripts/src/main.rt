//! Plays each worked script that the file `list` names, and says of each whether it prints and ends as it is to.
#![tactic(auto)]

mod case;
mod ending;

use crate::case::Case;
use std::io::{self, BufWriter, Write};
use std::process::ExitCode;
use std::{env, fs};

/// Plays each script of the list that lies in a folder, says of each whether it holds, and answers whether all do.
fn play_all<W: Write>(rt: &HostRuntime, folder: &str, output: &mut W) -> io::Result<bool> {
    let alloc = rt.alloc();
    let list = fs::read_to_string(rt, format!(in alloc; "{folder}/list")?.as_str())?;
    let mut all_hold = true;
    for line in list.lines() {
        let case = Case::load(rt, folder, line)?;
        all_hold &= case.check(alloc, output)?;
    }
    Ok(all_hold)
}

/// The folder that the command line names; else the one where the program runs.
fn folder(rt: &HostRuntime) -> io::Result<String> {
    match env::args(rt)?.nth(1) {
        Some(folder) => Ok(folder),
        None => Ok(String::from_str(rt.alloc(), ".")?),
    }
}

fn main(rt: HostRuntime) -> io::Result<ExitCode> {
    let mut output = BufWriter::new(rt.alloc(), io::writer(&rt))?;
    let all_hold = play_all(&rt, folder(&rt)?.as_str(), &mut output)?;
    output.flush()?;
    Ok(if all_hold {
        ExitCode::SUCCESS
    } else {
        ExitCode::FAILURE
    })
}
