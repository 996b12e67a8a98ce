//! What the server asks of the handle of its process.
use std::alloc::Global;
use std::net::{Net, TcpListener, TcpStream, ToSocketAddrs};
use std::sync::Wait;
use std::thread::Threads;
use std::time::{Clock, Duration};
use tip_duties::place_of;
use tip_line::Address;

/// How long a manager that is called may take to be reached, at each of the places that its name has.
const REACH_SECONDS: u64 = 5;

/// A handle by which other managers are reached. Whatever opens sockets is one.
pub trait Reach {
    /// A socket to the manager at an address, if it is reached in time.
    fn reach(&self, alloc: Global, address: &Address) -> Option<TcpStream>;
}

impl<R: Net<Listener = TcpListener, Stream = TcpStream>> Reach for R {
    fn reach(&self, alloc: Global, address: &Address) -> Option<TcpStream> {
        let place = place_of(alloc, address).ok()?;
        let patience = Duration::from_secs(REACH_SECONDS);
        for at in place.as_str().to_socket_addrs(self).ok()? {
            if let Ok(socket) = TcpStream::connect_timeout(self, &at, patience) {
                let _at_once = socket.set_nodelay(true);
                return Some(socket);
            }
        }
        None
    }
}

/// A handle by which managers are reached, threads started and joined, and lines written on standard error; each thread has its
/// own. What opens sockets is asked for where that is done alone (`Net`): a function is dearer to prove with all that it could do.
pub trait Runtime: Reach + Threads + Wait + Clock + Eprint + Copy + Send + Drop + 'static {}

impl<R> Runtime for R
where
    R: Reach + Threads + Wait + Clock + Eprint + Copy + Send + Drop + 'static,
{}
