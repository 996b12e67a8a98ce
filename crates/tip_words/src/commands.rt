//! The commands of `tipd`, as `clap` is told of them.
ghost use Rattle.std.specs.Prelude.{◌≡◌, false, IfOk};
ghost use Rattle.clap.specs.Words.{rule_of};
ghost use Rattle.tip_words.specs.Commands.{IsCommand, alone, ask, bare_ask, check, given, maybe, option, ping, play, query, rows, send, serve, sessions, settle, tipd};

use clap::{Arg, ArgAction, Command, value_parser};
use std::alloc::{AllocError, Global};

/// The help of an address.
const ADDRESS: &str = "Where the manager listens, as HOST:PORT";

/// The help of what stands behind a request's name.
const REST: &str = "What the request names, in its order";

/// `tipd` with its subcommands.
pub(crate) fn tipd<'a>(alloc: Global) -> Result<Command<'a>, AllocError>
    ensures { IfOk result (IsCommand tipd) }
{
    alone(alloc)
        .subcommand(play(alloc)?)?
        .subcommand(serve(alloc)?)?
        .subcommand(rows(alloc)?)?
        .subcommand(check(alloc)?)?
        .subcommand(ping(alloc)?)?
        .subcommand(query(alloc)?)?
        .subcommand(settle(alloc)?)?
        .subcommand(send(alloc)?)?
        .subcommand(ask(alloc)?)
}

/// `tipd` without its subcommands, one of which is to be named.
#[tactic(auto, unfolding(crate::specs::Commands::alone))]
fn alone<'a>(alloc: Global) -> Command<'a>
    ensures { IsCommand alone result }
{
    Command::new(alloc, "tipd")
        .about("A two-phase commit transaction manager for the Transaction Internet Protocol 3.0")
        .version("0.1.0")
        .subcommand_required(true)
}

#[tactic(auto, unfolding(crate::specs::Commands::play))]
fn play<'a>(alloc: Global) -> Result<Command<'a>, AllocError>
    ensures { IfOk result (IsCommand play) }
{
    Command::new(alloc, "play")
        .about("Plays a script from standard input, and writes what each realm answers")
        .arg(option(
            alloc,
            "store",
            "FILE",
            "The file of the store, which is made if it is not there; without it, rows are in memory",
        ))
}

#[tactic(auto, unfolding(crate::specs::Commands::serve))]
fn serve<'a>(alloc: Global) -> Result<Command<'a>, AllocError>
    ensures { IfOk result (IsCommand serve) }
{
    Command::new(alloc, "serve")
        .about("Serves the realms of a configuration to other managers")
        .arg(option(alloc, "config", "FILE", "The file of the configuration").required(true))?
        .arg(sessions(alloc))
}

#[tactic(auto, unfolding(crate::specs::Commands::rows))]
fn rows<'a>(alloc: Global) -> Result<Command<'a>, AllocError>
    ensures { IfOk result (IsCommand rows) }
{
    Command::new(alloc, "rows")
        .about("Writes what a store has: each realm with its epoch, and its rows")
        .arg(option(alloc, "store", "FILE", "The file of the store").required(true))
}

#[tactic(auto, unfolding(crate::specs::Commands::check))]
fn check<'a>(alloc: Global) -> Result<Command<'a>, AllocError>
    ensures { IfOk result (IsCommand check) }
{
    Command::new(alloc, "check")
        .about(
            "Tells what a configuration or a store has, and what is wrong with it; changes nothing",
        )
        .arg(option(alloc, "config", "FILE", "The file of the configuration"))?
        .arg(option(alloc, "store", "FILE", "The file of the store"))
}

#[tactic(auto, unfolding(crate::specs::Commands::ping))]
fn ping<'a>(alloc: Global) -> Result<Command<'a>, AllocError>
    ensures { IfOk result (IsCommand ping) }
{
    Command::new(alloc, "ping")
        .about("Asks a manager whether it is there")
        .arg(given(alloc, "address", "ADDRESS", ADDRESS))
}

#[tactic(auto, unfolding(crate::specs::Commands::query))]
fn query<'a>(alloc: Global) -> Result<Command<'a>, AllocError>
    ensures { IfOk result (IsCommand query) }
{
    Command::new(alloc, "query")
        .about("Asks a manager whether it has a transaction")
        .arg(given(alloc, "address", "ADDRESS", ADDRESS))?
        .arg(given(alloc, "id", "ID", "The identifier of the transaction"))
}

#[tactic(auto, unfolding(crate::specs::Commands::settle))]
fn settle<'a>(alloc: Global) -> Result<Command<'a>, AllocError>
    ensures { IfOk result (IsCommand settle) }
{
    Command::new(alloc, "settle")
        .about("Ends a transaction that a manager has prepared, in the place of its superior")
        .arg(given(alloc, "address", "ADDRESS", ADDRESS))?
        .arg(given(alloc, "id", "ID", "The identifier of the transaction"))?
        .arg(given(
            alloc,
            "decision",
            "DECISION",
            "How it ends: commit or abort",
        ))
}

#[tactic(auto, unfolding(crate::specs::Commands::send))]
fn send<'a>(alloc: Global) -> Result<Command<'a>, AllocError>
    ensures { IfOk result (IsCommand send) }
{
    Command::new(alloc, "send")
        .about("Says the commands on standard input to a manager, and writes what it answers")
        .arg(given(alloc, "address", "ADDRESS", ADDRESS))
}

#[tactic(auto, unfolding(crate::specs::Commands::ask))]
fn ask<'a>(alloc: Global) -> Result<Command<'a>, AllocError>
    ensures { IfOk result (IsCommand ask) }
{
    bare_ask(alloc)?
        .arg(maybe(alloc, "first", "WORD", REST))?
        .arg(maybe(alloc, "second", "WORD", REST))?
        .arg(maybe(alloc, "third", "WORD", REST))
}

/// `ask` without the words behind a request's name.
#[tactic(auto, unfolding(crate::specs::Commands::bare_ask))]
fn bare_ask<'a>(alloc: Global) -> Result<Command<'a>, AllocError>
    ensures { IfOk result (IsCommand bare_ask) }
{
    Command::new(alloc, "ask")
        .about("Asks the control port of a realm, and writes what it answers")
        .arg(given(
            alloc,
            "control",
            "CONTROL",
            "The control port of the realm, as HOST:PORT",
        ))?
        .arg(given(
            alloc,
            "request",
            "REQUEST",
            "status, doubts, retry, renew, push or pull",
        ))
}

/// How many connections are to end before the server does.
#[tactic(auto, unfolding(crate::specs::Commands::sessions))]
fn sessions<'a>(alloc: Global) -> Arg<'a>
    ensures rule { rule_of result ≡ sessions }
    ensures local { result.global ≡ false }
{
    option(
        alloc,
        "sessions",
        "N",
        "Ends once so many accepted connections have ended; without it, serves on",
    )
    .value_parser(value_parser!(u32).range(1..=4_294_967_295))
}

/// An option that takes one value.
fn option<'a>(alloc: Global, name: &'static str, value: &'static str, help: &'static str) -> Arg<'a>
    ensures rule { rule_of result ≡ option name.now }
    ensures local { result.global ≡ false }
{
    Arg::new(alloc, name)
        .long(name)
        .value_name(value)
        .action(ArgAction::Set)
        .help(help)
}

/// A value that may be there, the next word.
fn maybe<'a>(alloc: Global, name: &'static str, value: &'static str, help: &'static str) -> Arg<'a>
    ensures rule { rule_of result ≡ maybe name.now }
    ensures local { result.global ≡ false }
{
    Arg::new(alloc, name)
        .value_name(value)
        .action(ArgAction::Set)
        .help(help)
}

/// A value that has to be there, the next word.
fn given<'a>(alloc: Global, name: &'static str, value: &'static str, help: &'static str) -> Arg<'a>
    ensures rule { rule_of result ≡ given name.now }
    ensures local { result.global ≡ false }
{
    Arg::new(alloc, name)
        .value_name(value)
        .required(true)
        .action(ArgAction::Set)
        .help(help)
}
