//! The thread that accepts the connections of a realm.
use crate::stacks::SMALL_STACK;
use std::alloc::AllocError;
use std::net::TcpListener;
use std::sync::{Arc, Wait};
use std::thread;
use std::thread::{Builder, JoinHandle, Threads};
use std::time::{Clock, Duration};
use tip_notices::{Arrival, Inbox};

/// How long it rests where none can be accepted, as where the process has no descriptor free. Peers wait meanwhile.
const REST_MILLIS: u64 = 10;

/// Starts the thread that accepts the connections of a realm, which ends once no socket is taken any more.
pub fn start_accepting<R>(
    rt: &R,
    inbox: Arc<Inbox>,
    realm: usize,
    listener: TcpListener,
) -> Result<JoinHandle<()>, AllocError>
where
    R: Wait + Threads + Clock + Copy + Send + Drop + 'static,
{
    let own = *rt;
    Builder::new()
        .stack_size(SMALL_STACK)
        .spawn(rt, move || accept_all(&own, &inbox, realm, &listener))
        .map_err(|_| AllocError)
}

/// Hands each socket to the top body, until none is taken any more.
fn accept_all<R: Wait + Clock>(rt: &R, inbox: &Inbox, realm: usize, listener: &TcpListener) {
    for accepted in listener.incoming() {
        match accepted {
            Ok(socket) => {
                let _at_once = socket.set_nodelay(true);
                let arrival = Arrival {
                    realm,
                    socket,
                    dial: None,
                    ask: None,
                };
                if !inbox.put(rt, arrival) {
                    return;
                }
            }
            Err(_) => {
                if inbox.is_closed(rt) {
                    return;
                }
                thread::sleep(rt, Duration::from_millis(REST_MILLIS));
            }
        }
    }
}
