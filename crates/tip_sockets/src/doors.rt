//! Where connections come in.
use std::alloc::Global;
use std::net::{Net, TcpListener, TcpStream};
use std::sync::Wait;
use std::thread;
use std::thread::{JoinHandle, Threads};
use std::time::{Clock, Duration};
use tip_duties::ServeFault;
use tip_settings::{Config, RealmConfig};

/// How often it is tried to wake a thread that accepts, and how long is waited between.
const WAKE_TRIES: u32 = 100;

const WAKE_MILLIS: u64 = 50;

/// A place at which connections to a realm come in: those of other managers, or of its operator.
#[derive(Drop)]
pub struct Entrance<'a> {
    pub place: &'a str,
    /// The place of the realm in the configuration.
    pub realm: usize,
    pub listener: TcpListener,
    pub is_control: bool,
}

/// A place at which connections come in, and the thread that accepts them.
#[derive(Drop)]
pub struct Door<'a> {
    pub place: &'a str,
    pub thread: JoinHandle<()>,
}

/// Listens wherever connections to the realms of a configuration come in.
pub fn listen_all<'a, R: Net<Listener = TcpListener, Stream = TcpStream>>(
    rt: &R,
    alloc: Global,
    config: &'a Config,
) -> Result<Vec<Entrance<'a>>, ServeFault> {
    let mut entrances = Vec::new(alloc);
    for (number, realm) in config.realms.iter().enumerate() {
        entrances.push(entrance_at(rt, number, realm, realm.listen.as_str(), false)?)?;
        if let Some(control) = &realm.control {
            entrances.push(entrance_at(rt, number, realm, control.as_str(), true)?)?;
        }
    }
    Ok(entrances)
}

/// Listens at a place.
fn entrance_at<'a, R: Net<Listener = TcpListener, Stream = TcpStream>>(
    rt: &R,
    number: usize,
    realm: &RealmConfig,
    place: &'a str,
    is_control: bool,
) -> Result<Entrance<'a>, ServeFault> {
    match TcpListener::bind(rt, place) {
        Ok(listener) => Ok(Entrance {
            place,
            realm: number,
            listener,
            is_control,
        }),
        Err(_) => Err(ServeFault::Listen {
            name: realm.name.copy()?,
        }),
    }
}

/// Ends the threads that accept, each by a connection to its own door. One that is not woken ends with the process.
pub fn end_accepting<R>(rt: &R, doors: Vec<Door<'_>>)
where
    R: Net<Listener = TcpListener, Stream = TcpStream> + Wait + Threads + Clock,
{
    for Door { place, thread } in doors {
        if wake(rt, place) {
            thread.join(rt);
        }
    }
}

/// Connects to a place, so that its thread wakes; whether that was so.
fn wake<R>(rt: &R, place: &str) -> bool
where
    R: Net<Listener = TcpListener, Stream = TcpStream> + Clock,
{
    for _ in 0..WAKE_TRIES {
        if TcpStream::connect(rt, place).is_ok() {
            return true;
        }
        thread::sleep(rt, Duration::from_millis(WAKE_MILLIS));
    }
    false
}
