//! The thread that calls other managers for the rows of a realm.
use crate::runtime::{Reach, Runtime};
use crate::stacks::EVENT_STACK;
use std::alloc::{AllocError, Global};
use std::net::TcpStream;
use std::sync::{Arc, Wait};
use std::thread::{Builder, JoinHandle};
use tip_duties::{Dial, Note};
use tip_line::{Address, Realm, Refusal};
use tip_notices::{Arrival, Ask, Inbox, Log};

/// A call of another manager, for a row, or for an operator who asks this of it.
#[derive(Drop)]
pub struct Call {
    pub dial: Dial,
    pub ask: Option<Ask>,
}

/// The calls of one realm.
#[derive(Drop)]
pub struct Calls {
    /// Where the top body keeps who makes them.
    pub place: usize,
    pub realm: usize,
    pub name: Realm,
    pub calls: Vec<Call>,
}

/// Starts the thread that makes these calls.
pub fn start_calling<R: Runtime>(
    rt: &R,
    alloc: Global,
    inbox: Arc<Inbox>,
    log: Arc<Log>,
    calls: Calls,
) -> Result<JoinHandle<()>, AllocError> {
    let own = *rt;
    Builder::new()
        .stack_size(EVENT_STACK)
        .spawn(rt, move || call_all(&own, alloc, &inbox, &log, calls))
        .map_err(|_| AllocError)
}

/// Calls managers one after another, and hands each socket to the top body. Who is not reached is left out, and is not called again
/// for another row, so that it delays those behind it once. Its last act is to say that all is done.
fn call_all<R>(rt: &R, alloc: Global, inbox: &Inbox, log: &Log, calls: Calls)
where
    R: Reach + Wait + Eprint,
{
    let place = calls.place;
    call_each(rt, alloc, inbox, log, calls);
    inbox.end_calls(rt, place);
}

fn call_each<R>(rt: &R, alloc: Global, inbox: &Inbox, log: &Log, calls: Calls)
where
    R: Reach + Wait + Eprint,
{
    let Calls {
        realm,
        name,
        calls,
        ..
    } = calls;
    let mut silent = Vec::new(alloc);
    for Call { dial, ask } in calls {
        if inbox.is_closed(rt) {
            return;
        }
        match reach_once(rt, alloc, &silent, &dial.address) {
            Some(socket) => {
                let arrival = Arrival {
                    realm,
                    socket,
                    dial: Some(dial),
                    ask,
                };
                if !inbox.put(rt, arrival) {
                    return;
                }
            }
            None => {
                note_unreached(rt, alloc, log, &name, &dial.address, ask);
                note_silent(&mut silent, dial.address);
            }
        }
    }
}

/// A socket to the manager at an address, unless it is one of these, which were not reached.
fn reach_once<R: Reach>(
    rt: &R,
    alloc: Global,
    silent: &[Address],
    address: &Address,
) -> Option<TcpStream> {
    if silent.contains(address) {
        return None;
    }
    rt.reach(alloc, address)
}

/// The manager at an address was not reached. Without memory it is called again.
fn note_silent(silent: &mut Vec<Address>, address: Address) {
    if !silent.contains(&address) {
        let _noted = silent.push(address);
    }
}

/// Tells the operator that a manager was not reached, and whoever has asked something of it.
fn note_unreached<R: Wait + Eprint>(
    rt: &R,
    alloc: Global,
    log: &Log,
    realm: &Realm,
    address: &Address,
    ask: Option<Ask>,
) {
    log.note(rt, alloc, Note::Unreached { realm, address });
    if let Some(ask) = ask {
        ask.turn_down(rt, Refusal::Closed);
    }
}
