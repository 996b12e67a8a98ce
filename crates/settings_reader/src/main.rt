//! Reads configurations from standard input, between signs `%`, and prints of each what was read, or why it is refused.
#![tactic(auto)]

use std::alloc::Global;
use std::io::{self, BufWriter, Read, Write};
use tip_line::Fields;
use tip_machine::Limits;
use tip_settings::{Config, RealmConfig, read_config};

/// Prints a realm on one line: its limits, and its branches by number, label and plan.
fn print_realm<W: Write>(output: &mut W, realm: &RealmConfig) -> io::Result<()> {
    let RealmConfig {
        name,
        listen,
        address,
        control,
        limits,
        ..
    } = realm;
    write!(output, "realm {name} {address} listens at {listen}")?;
    if let Some(control) = control {
        write!(output, " and {control}")?;
    }
    let Limits {
        connections,
        transactions,
        boxes,
        entries,
    } = limits;
    write!(output, ", {connections} {transactions} {boxes} {entries}")?;
    for ((number, label), plan) in realm.branches.as_slice().iter().zip(realm.plans.iter()) {
        write!(output, ", {number} {label} {plan:?}")?;
    }
    writeln!(output)
}

/// Prints a configuration.
fn print_config<W: Write>(output: &mut W, config: &Config) -> io::Result<()> {
    writeln!(output, "store {}", config.store)?;
    for realm in config.realms.iter() {
        print_realm(output, realm)?;
    }
    Ok(())
}

/// Reads each document, and prints what comes of it.
fn read_all<W: Write>(alloc: Global, input: &[u8], output: &mut W) -> io::Result<()> {
    let mut documents: Fields<'_, b'%'> = Fields::of(input);
    while let Some(document) = documents.next() {
        match read_config(alloc, document) {
            Ok(config) => print_config(output, &config)?,
            Err(fault) => writeln!(output, "{fault}")?,
        }
    }
    Ok(())
}

fn main(rt: HostRuntime) -> io::Result<()> {
    let alloc = rt.alloc();
    let mut input = Vec::new(alloc);
    rt.stdin().read_to_end(&mut input)?;
    let mut output = BufWriter::new(alloc, io::writer(&rt))?;
    read_all(alloc, &input, &mut output)?;
    output.flush()
}
