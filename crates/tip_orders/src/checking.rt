//! A check of a configuration, or of a store: files are read, and nothing is changed. No socket is opened, and no epoch is taken.
use crate::settings::{SettingFault, settings_in};
use sqlite::{Alter, Connection, Error, ErrorCode};
use std::alloc::{AllocError, Global};
use std::fs;
use std::io::{self, Write};
use std::process::ExitCode;
use thiserror::Error as ThisError;
use tip_checking::{Contents, Known, Tally, list_epochs, report};
use tip_settings::{Config, RealmConfig};
use tip_sql::has_tables;

/// Why a configuration or a store is not what a start needs, before its rows are looked at.
#[derive(Clone, Copy, Debug, ThisError)]
enum CheckFault {
    #[error(transparent)]
    Setting(SettingFault),
    #[error("the file is not there")]
    Absent,
    #[error("the file is empty")]
    Empty,
    #[error("its log, FILE-wal, is not there: right behind sqlite3, and for a copy that it made; else what only the log had is lost")]
    NoLog,
    #[error("another process has it open")]
    Locked,
    #[error("it can't be opened to be read and written, or is no database")]
    Unopened,
    #[error("it can't be read")]
    Unread,
    #[error("its tables are not `realm` and `txn` as tipd makes them, or there are more")]
    Tables,
    #[error("cannot write")]
    Write,
    #[error("out of memory")]
    Memory,
}

impl From<AllocError> for CheckFault {
    fn from(_: AllocError) -> CheckFault {
        CheckFault::Memory
    }
}

/// The exit status where the words of the command line are not what they should be.
const MISUSE: u8 = 2;

/// Checks a configuration, with what its store has, or a store alone.
pub fn check(rt: &HostRuntime, config: Option<&str>, store: Option<&str>) -> ExitCode {
    match (config, store) {
        (Some(path), None) => check_config(rt, path),
        (None, Some(path)) => end_check(rt, path, tell_store(rt, path)),
        _ => {
            let _said = eprintln!(rt;
                "tipd: check takes --config FILE or --store FILE, one of them"
            );
            ExitCode::from(MISUSE)
        }
    }
}

/// Checks a configuration. What is wrong with its store is said of the store.
fn check_config(rt: &HostRuntime, path: &str) -> ExitCode {
    match settings_in(rt, path) {
        Ok(config) => end_check(rt, config.store.as_str(), tell_config(rt, &config)),
        Err(fault) => end_check(rt, path, Err(CheckFault::Setting(fault))),
    }
}

/// Success where nothing was found; else the status tells, and a fault is said.
fn end_check(rt: &HostRuntime, path: &str, checked: Result<bool, CheckFault>) -> ExitCode {
    match checked {
        Ok(true) => ExitCode::SUCCESS,
        Ok(false) => ExitCode::FAILURE,
        Err(fault) => {
            let _said = eprintln!(rt; "tipd: {path}: {fault}");
            ExitCode::FAILURE
        }
    }
}

/// Tells the epochs of the store in a file, and all that would keep it from starting or give identifiers twice. Whether nothing
/// would?
fn tell_store(rt: &HostRuntime, path: &str) -> Result<bool, CheckFault> {
    let alloc = rt.alloc();
    let contents = contents_of(rt, path)?;
    let mut told = String::new(alloc);
    list_epochs(&contents.realms, &mut told)?;
    let is_right = report(alloc, &contents, &mut told)?;
    tell(rt, &told)?;
    Ok(is_right)
}

/// Tells each realm of a configuration with what is stored of it, the realms of its store that it does not host, and what is wrong
/// there. Whether nothing is?
fn tell_config(rt: &HostRuntime, config: &Config) -> Result<bool, CheckFault> {
    let alloc = rt.alloc();
    let mut told = String::new(alloc);
    let contents = stored_for(rt, config, &mut told)?;
    for realm in &config.realms {
        tell_realm(alloc, realm, &contents, &mut told)?;
    }
    for realm in &contents.realms {
        tell_unhosted(alloc, realm, config, &contents, &mut told)?;
    }
    let is_right = report(alloc, &contents, &mut told)?;
    tell(rt, &told)?;
    Ok(is_right)
}

/// What the store of a configuration has. One in memory, or one that is yet to be made, has nothing.
fn stored_for(
    rt: &HostRuntime,
    config: &Config,
    told: &mut String,
) -> Result<Contents, CheckFault> {
    let store = config.store.as_str();
    if store == ":memory:" {
        writeln!(told, "store in memory: nothing outlives the process")?;
        return Ok(Contents::none(rt.alloc()));
    }
    match contents_of(rt, store) {
        Err(CheckFault::Absent | CheckFault::Empty) => {
            writeln!(told, "store {store} is made at the first start")?;
            Ok(Contents::none(rt.alloc()))
        }
        Ok(contents) => {
            writeln!(told, "store {store}")?;
            Ok(contents)
        }
        Err(fault) => Err(fault),
    }
}

/// What the store in a file has.
fn contents_of(rt: &HostRuntime, path: &str) -> Result<Contents, CheckFault> {
    match fs::metadata(rt, path) {
        Ok(found) if found.len() > 0 => {}
        Ok(_) => return Err(CheckFault::Empty),
        Err(_) => return Err(CheckFault::Absent),
    }
    let mut log = String::new(rt.alloc());
    write!(log, "{path}-wal")?;
    if fs::metadata(rt, log.as_str()).is_err() {
        return Err(CheckFault::NoLog);
    }
    let conn = Connection::open(rt, path).map_err(why_not_opened)?;
    contents_in(rt.alloc(), conn)
}

/// What a database has, if it has our tables.
fn contents_in<S: Alter + Drop>(
    alloc: Global,
    mut conn: Connection<S>,
) -> Result<Contents, CheckFault> {
    if !has_tables(&conn) {
        return Err(CheckFault::Tables);
    }
    Contents::of(alloc, &mut conn).map_err(why_not_read)
}

fn why_not_opened(error: Error) -> CheckFault {
    match error {
        Error::SqliteFailure(ErrorCode::OutOfMemory) => CheckFault::Memory,
        Error::SqliteFailure(ErrorCode::DatabaseBusy) => CheckFault::Locked,
        _ => CheckFault::Unopened,
    }
}

fn why_not_read(error: Error) -> CheckFault {
    match error {
        Error::SqliteFailure(ErrorCode::OutOfMemory) => CheckFault::Memory,
        _ => CheckFault::Unread,
    }
}

/// A realm of the configuration, and what is stored of it.
fn tell_realm(
    alloc: Global,
    realm: &RealmConfig,
    contents: &Contents,
    told: &mut String,
) -> Result<(), AllocError> {
    let name = realm.name.as_str();
    let tally = Tally::of(alloc, contents, name)?;
    let (listen, address) = (realm.listen.as_str(), realm.address.as_str());
    write!(
        told,
        "realm {name} listen {listen} address {address} branches"
    )?;
    for (_, label) in realm.branches.as_slice() {
        write!(told, " {}", label.as_str())?;
    }
    writeln!(told, " {tally}")
}

/// A realm of the store, if the configuration does not host it.
fn tell_unhosted(
    alloc: Global,
    realm: &Known,
    config: &Config,
    contents: &Contents,
    told: &mut String,
) -> Result<(), AllocError> {
    let name = realm.name.as_str();
    if config
        .realms
        .iter()
        .any(|hosted| hosted.name.as_str() == name)
    {
        return Ok(());
    }
    let tally = Tally::of(alloc, contents, name)?;
    writeln!(told, "unhosted {name} {tally}")
}

fn tell(rt: &HostRuntime, told: &str) -> Result<(), CheckFault> {
    let mut output = io::writer(rt);
    output
        .write_all(told.as_bytes())
        .map_err(|_| CheckFault::Write)
}
