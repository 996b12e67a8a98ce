//! The server's configuration, and its store. As with scripts, what is done with the store is said of one of any kind.
use sqlite::{Alter, Connection, Error, ErrorCode, File, FileStore};
use std::alloc::Global;
use std::net::{Net, TcpListener, TcpStream};
use std::sync::Wait;
use std::thread::Threads;
use std::time::Clock;
use std::{fs, io};
use tip_duties::{Note, ServeFault};
use tip_orders::{SettingFault, settings_in};
use tip_rows::MemRows;
use tip_serve::host_realms;
use tip_settings::Config;
use tip_sql::SqlRows;

/// What is served, and over which store; without one, over rows in memory.
#[derive(Drop)]
pub struct Setting {
    pub config: Config,
    pub store: Option<Connection<FileStore<File>>>,
}

impl Setting {
    /// What the configuration in a file says, with its store, opened.
    pub fn of(rt: &HostRuntime, path: &str) -> Result<Setting, ServeFault> {
        let config = read_settings(rt, path)?;
        if config.store.as_str() == ":memory:" {
            return Ok(Setting {
                config,
                store: None,
            });
        }
        let conn = open_store(rt, config.store.as_str())?;
        Ok(Setting {
            config,
            store: Some(conn),
        })
    }
}

/// Serves these realms over rows in memory, until so many connections have ended.
pub fn serve<R>(
    rt: &R,
    alloc: Global,
    config: &Config,
    sessions: Option<u32>,
) -> Result<(), ServeFault>
where
    R: Net<Listener = TcpListener, Stream = TcpStream>
        + Threads
        + Wait
        + Clock
        + Print
        + Eprint
        + Copy
        + Send
        + Drop
        + 'static,
{
    let mut output = io::writer(rt);
    let store = MemRows::new(alloc);
    host_realms(rt, alloc, store, config, sessions, &mut output)
}

/// Serves them over a database.
pub fn serve_in<R, S>(
    rt: &R,
    alloc: Global,
    conn: Connection<S>,
    config: &Config,
    sessions: Option<u32>,
) -> Result<(), ServeFault>
where
    R: Net<Listener = TcpListener, Stream = TcpStream>
        + Threads
        + Wait
        + Clock
        + Print
        + Eprint
        + Copy
        + Send
        + Drop
        + 'static,
    S: Alter + Drop + Send + 'static,
{
    let store = SqlRows::over(alloc, conn).map_err(|_| ServeFault::Store)?;
    let mut output = io::writer(rt);
    host_realms(rt, alloc, store, config, sessions, &mut output)
}

/// The configuration in a file. The operator is told why it is refused.
fn read_settings(rt: &HostRuntime, path: &str) -> Result<Config, ServeFault> {
    match settings_in(rt, path) {
        Ok(config) => Ok(config),
        Err(SettingFault::Read) => Err(ServeFault::Read),
        Err(SettingFault::Memory) => Err(ServeFault::Memory),
        Err(fault) => {
            let _said = eprintln!(rt; "tipd: event=refused-configuration why={fault}");
            Err(ServeFault::Config)
        }
    }
}

/// Opens the file of a store, which is made where there is none; then the operator is told so.
fn open_store(rt: &HostRuntime, path: &str) -> Result<Connection<FileStore<File>>, ServeFault> {
    let is_there = match fs::metadata(rt, path) {
        Ok(found) => found.len() > 0,
        Err(_) => false,
    };
    let conn = Connection::open(rt, path).map_err(why_not_opened)?;
    if !is_there {
        let note = Note::Made { store: path };
        let _said = eprintln!(rt; "tipd: {note}");
    }
    Ok(conn)
}

/// Why a file is not opened.
fn why_not_opened(error: Error) -> ServeFault {
    match error {
        Error::SqliteFailure(ErrorCode::OutOfMemory) => ServeFault::Memory,
        _ => ServeFault::Store,
    }
}
