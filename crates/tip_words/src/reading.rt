//! Reading the words of the command line.
ghost use Rattle.std.specs.Prelude.{◌≡◌, codes, false, true, IfErr, IfOk, IfSome, IsSomeAnd, None, map, string_bytes};
ghost use Rattle.clap.specs.Words.{found_of, kind_of, rows_of, subcommand_rows_of, takes};
ghost use Rattle.clap.specs.declared.error.kind.ErrorKind.TheVariants.{OutOfMemory};
ghost use Rattle.tip_words.specs.Commands.{tipd};
ghost use Rattle.tip_words.specs.Orders.{IsAsked, IsNumberIn, Says, asks, does, is_command, text_in};

use crate::commands::tipd;
use crate::order::Order;
use clap::{ArgMatches, Error};
use std::alloc::Global;

/// What these words ask for, the program's own name first.
pub fn read_words<'a>(alloc: Global, words: &'a [String]) -> Result<Order<'a>, Error>
    ensures order { IfOk result (IsAsked (map string_bytes words.entry.now)) }
    ensures refused { IfErr result (λ error.
        takes tipd (map string_bytes words.entry.now) ≡ true → kind_of error ≡ OutOfMemory) }
{
    let matches = tipd(alloc)?.try_get_matches_from(words)?;
    Ok(order_in(&matches))
}

/// The order that the matches have.
fn order_in<'a>(matches: &ArgMatches<'a>) -> Order<'a>
    requires { IsSomeAnd (subcommand_rows_of matches.now) (λ found. is_command found.0 ≡ true) }
    ensures { IsSomeAnd (subcommand_rows_of matches.now) (λ found. Says found result) }
{
    match matches.subcommand() {
        Some((name, found)) => order_of(name, found),
        None => unreachable!(),
    }
}

/// The order of a subcommand with these matches.
fn order_of<'a>(name: &str, found: &ArgMatches<'a>) -> Order<'a>
    requires { is_command name.now ≡ true }
    ensures { Says (name.now, rows_of (found_of found.now)) result }
{
    match order_to_ask(name, found) {
        Some(order) => order,
        None => order_to_do(name, found),
    }
}

/// The order of a subcommand that asks a manager, or a server at its control port.
fn order_to_ask<'a>(name: &str, found: &ArgMatches<'a>) -> Option<Order<'a>>
    ensures some { IfSome result (Says (name.now, rows_of (found_of found.now))) }
    ensures none { result ≡ None → asks name.now ≡ false }
{
    if name == "ping" {
        return Some(Order::Ping {
            address: text_in(found, "address"),
        });
    }
    if name == "query" {
        return Some(Order::Query {
            address: text_in(found, "address"),
            id: text_in(found, "id"),
        });
    }
    if name == "settle" {
        return Some(Order::Settle {
            address: text_in(found, "address"),
            id: text_in(found, "id"),
            decision: text_in(found, "decision"),
        });
    }
    if name == "send" {
        return Some(Order::Send {
            address: text_in(found, "address"),
        });
    }
    if name == "ask" {
        return Some(order_to_operate(found));
    }
    None
}

/// What an operator asks of a server, with these matches.
fn order_to_operate<'a>(found: &ArgMatches<'a>) -> Order<'a>
    ensures { Says (codes "ask", rows_of (found_of found.now)) result }
{
    Order::Ask {
        control: text_in(found, "control"),
        request: text_in(found, "request"),
        first: found.get_str("first"),
        second: found.get_str("second"),
        third: found.get_str("third"),
    }
}

/// The order of a subcommand that is done here, with these matches.
fn order_to_do<'a>(name: &str, found: &ArgMatches<'a>) -> Order<'a>
    requires { does name.now ≡ true }
    ensures { Says (name.now, rows_of (found_of found.now)) result }
{
    if name == "serve" {
        return Order::Serve {
            config: text_in(found, "config"),
            sessions: sessions_in(found),
        };
    }
    if name == "rows" {
        return Order::Rows {
            store: text_in(found, "store"),
        };
    }
    if name == "check" {
        return Order::Check {
            config: found.get_str("config"),
            store: found.get_str("store"),
        };
    }
    Order::Play {
        store: found.get_str("store"),
    }
}

/// A value that is required, so that it is there.
fn text_in<'a>(found: &ArgMatches<'a>, name: &str) -> &'a str
    ensures { result.now ≡ text_in name.now (rows_of (found_of found.now)) }
{
    match found.get_str(name) {
        Some(text) => text,
        None => "",
    }
}

/// The number of sessions.
fn sessions_in(found: &ArgMatches<'_>) -> Option<u32>
    ensures { IsNumberIn (rows_of (found_of found.now)) result }
{
    found.get_one::<u32>("sessions")
}
