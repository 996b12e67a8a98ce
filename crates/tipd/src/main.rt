//! `tipd`: the command line, and the input and output of the process.
#![tactic(auto)]

mod serving;

use crate::serving::{Setting, serve, serve_in};
use clap::Error;
use clap::error::ErrorKind;
use std::fmt::Display;
use std::process::ExitCode;
use std::{env, io};
use tip_duties::ServeFault;
use tip_listing::RowsFault;
use tip_orders::{ask_control, check, list_store, ping, play_all, query, send, settle};
use tip_play::PlayFault;
use tip_words::{Order, read_words};

/// Says what is wrong, and how the process ends: where the text can't be written, the status still tells.
fn fail<F: Display + Drop>(rt: &HostRuntime, fault: F, status: u8) -> ExitCode {
    let _written = eprintln!(rt; "tipd: {fault}");
    ExitCode::from(status)
}

fn end_play(rt: &HostRuntime, played: Result<(), PlayFault>) -> ExitCode {
    match played {
        Ok(()) => ExitCode::SUCCESS,
        Err(fault) => fail(rt, fault, fault.status()),
    }
}

fn end_rows(rt: &HostRuntime, listed: Result<(), RowsFault>) -> ExitCode {
    match listed {
        Ok(()) => ExitCode::SUCCESS,
        Err(fault) => fail(rt, fault, fault.status()),
    }
}

fn end_serve(rt: &HostRuntime, served: Result<(), ServeFault>) -> ExitCode {
    match served {
        Ok(()) => ExitCode::SUCCESS,
        Err(fault) => {
            let status = fault.status();
            fail(rt, fault, status)
        }
    }
}

/// Words that ask for nothing. `clap` says why, and its help: that on standard output, what is wrong on standard error.
fn end_words(rt: &HostRuntime, error: Error) -> ExitCode {
    if error.kind() == ErrorKind::OutOfMemory {
        return end_play(rt, Err(PlayFault::Memory));
    }
    let status = error.exit_code() as u8;
    match error.print(rt) {
        Err(_) if status == 0 => end_play(rt, Err(PlayFault::Write)),
        _ => ExitCode::from(status),
    }
}

/// The words of the command line.
fn given_words(rt: &HostRuntime) -> Result<Vec<String>, PlayFault> {
    let args = env::args(rt).map_err(|_| PlayFault::Read)?;
    Ok(args.collect(rt.alloc())?)
}

/// Does what the command line asks for. `main` alone has threads to give to a server.
fn main(rt: HostRuntime) -> io::Result<ExitCode> {
    let words = match given_words(&rt) {
        Ok(words) => words,
        Err(fault) => return Ok(end_play(&rt, Err(fault))),
    };
    let order = match read_words(rt.alloc(), &words) {
        Ok(order) => order,
        Err(error) => return Ok(end_words(&rt, error)),
    };
    Ok(match order {
        Order::Play { store } => end_play(&rt, play_all(&rt, store)),
        Order::Rows { store } => end_rows(&rt, list_store(&rt, store)),
        Order::Serve { config, sessions } => {
            let served = match Setting::of(&rt, config) {
                Ok(Setting { config, store }) => match store {
                    Some(conn) => serve_in(&rt, rt.alloc(), conn, &config, sessions),
                    None => serve(&rt, rt.alloc(), &config, sessions),
                },
                Err(fault) => Err(fault),
            };
            end_serve(&rt, served)
        }
        Order::Check { config, store } => check(&rt, config, store),
        Order::Ping { address } => ping(&rt, address),
        Order::Send { address } => send(&rt, address),
        Order::Query { address, id } => query(&rt, address, id),
        Order::Settle {
            address,
            id,
            decision,
        } => settle(&rt, address, id, decision),
        Order::Ask {
            control,
            request,
            first,
            second,
            third,
        } => ask_control(&rt, control, request, &[first, second, third]),
    })
}
