//! The start of the server.
ghost use Rattle.tip_branch.specs.Always.{Always};

use crate::connections::Connections;
use crate::rows::dealt_to_all;
use crate::served::Served;
use crate::server::Server;
use std::alloc::{AllocError, Global};
use std::io::Write;
use std::sync::Arc;
use std::thread::JoinHandle;
use tip_branch::Branch;
use tip_core::Core;
use tip_duties::{Duties, Heading, ServeFault, declarations, has_row_ahead};
use tip_host::Host;
use tip_notices::{Doubts, Inbox, Log, Watcher};
use tip_recovery::Recovery;
use tip_rows::RowLog;
use tip_settings::{Config, RealmConfig};
use tip_shared::Shared;
use tip_sockets::{Callers, Door, Entrance, Runtime, start_accepting};
use tip_stored::{LoadFault, Recovering, StoredCore};
use tip_threads::{ControlPort, start_controls};

/// What the threads hand to the top body, and what is in doubt.
#[derive(Drop)]
pub struct Shelves {
    pub inbox: Arc<Inbox>,
    pub doubts: Arc<Doubts>,
}

impl Shelves {
    /// Empty ones, for these realms.
    pub fn new(alloc: Global, realms: &[RealmConfig]) -> Result<Shelves, AllocError> {
        Ok(Shelves {
            inbox: Arc::new(alloc, Inbox::new(alloc, realms.len())?)?,
            doubts: Arc::new(alloc, Doubts::new(alloc, realms)?)?,
        })
    }

    /// Who fills them by what the store tells.
    pub fn watcher<R: Drop>(&self, rt: R, alloc: Global) -> Result<Watcher<R>, AllocError> {
        Ok(Watcher {
            rt,
            alloc,
            doubts: Arc::try_clone(&self.doubts)?,
            inbox: Arc::try_clone(&self.inbox)?,
        })
    }
}

/// That a store may start: no row of a realm is ahead of it.
pub fn check<S: RowLog>(alloc: Global, store: &mut S, config: &Config) -> Result<(), ServeFault> {
    let mut names = Vec::new(alloc);
    for realm in config.realms.iter() {
        names.push(realm.name.copy()?)?;
    }
    match has_row_ahead(store, &names) {
        Ok(false) => Ok(()),
        Err(tip_rows::LoadFault::Memory) => Err(ServeFault::Memory),
        _ => Err(ServeFault::Store),
    }
}

/// The realms of a configuration, loaded from a store.
pub fn load<S: RowLog + Drop>(
    alloc: Global,
    store: S,
    core: Core,
    config: &Config,
) -> Result<Recovering<S>, ServeFault>
    requires { Always }
{
    let specs = declarations(alloc, &config.realms)?;
    match StoredCore::load(alloc, store, core, specs) {
        Ok(recovering) => Ok(recovering),
        Err((LoadFault::Memory, _)) => Err(ServeFault::Memory),
        Err((LoadFault::BadRealm, _)) => Err(ServeFault::Config),
        Err(_) => Err(ServeFault::Store),
    }
}

/// A server whose realms have started, and what is to be done for the rows of each.
#[derive(Drop)]
pub struct Started<'a, S> {
    pub server: Server<'a, S>,
    pub duties: Vec<Duties>,
}

/// The realms start, with these boxes for their rows.
pub fn start<'a, S: RowLog + Drop + Send + 'static>(
    alloc: Global,
    recovering: Recovering<S>,
    config: &'a Config,
    sessions: Option<u32>,
    pool: Vec<Box<dyn Branch + Send>>,
    shelves: Shelves,
) -> Result<Started<'a, S>, ServeFault> {
    let duties = duties_of(alloc, recovering.realms())?;
    let realms = served_all(alloc, &config.realms, recovering.realms())?;
    let shared = open_shared(alloc, recovering, pool)?;
    let log = Arc::new(alloc, Log::new())?;
    let Shelves { inbox, doubts } = shelves;
    let callers = Callers::new(alloc, Arc::try_clone(&inbox)?, Arc::try_clone(&log)?);
    let server = Server {
        alloc,
        realms,
        shared,
        inbox,
        log,
        doubts,
        connections: Connections::new(alloc),
        callers,
        sessions,
        ended: 0,
        is_short: false,
        full: None,
        held: None,
    };
    Ok(Started { server, duties })
}

/// What is to be done for the rows of each realm.
fn duties_of(alloc: Global, realms: &[Recovery]) -> Result<Vec<Duties>, AllocError> {
    let mut duties = Vec::with_capacity(alloc, realms.len())?;
    for recovery in realms {
        duties.push(Duties::of(alloc, recovery.rows())?)?;
    }
    Ok(duties)
}

/// A host over these realms, with these boxes for their rows, behind its lock.
fn open_shared<S: RowLog + Drop>(
    alloc: Global,
    recovering: Recovering<S>,
    pool: Vec<Box<dyn Branch + Send>>,
) -> Result<Arc<Shared<S>>, ServeFault> {
    let host = open_host(alloc, adopted(alloc, recovering, pool)?)?;
    match Shared::new(alloc, host) {
        Ok(shared) => Ok(Arc::new(alloc, shared)?),
        Err(_) => Err(ServeFault::Memory),
    }
}

/// These realms, with these boxes for their rows.
fn adopted<S: RowLog + Drop>(
    alloc: Global,
    mut recovering: Recovering<S>,
    mut pool: Vec<Box<dyn Branch + Send>>,
) -> Result<Recovering<S>, ServeFault> {
    let boxes = dealt_to_all(alloc, &mut pool, recovering.realms())?;
    if recovering.adopt_all(boxes) {
        Ok(recovering)
    } else {
        Err(ServeFault::Memory)
    }
}

/// A host over these realms.
fn open_host<S: RowLog + Drop>(
    alloc: Global,
    recovering: Recovering<S>,
) -> Result<Host<S>, ServeFault> {
    match Host::open(alloc, recovering) {
        Ok(host) => Ok(host),
        Err(_) => Err(ServeFault::Memory),
    }
}

/// The realms, each as it starts.
fn served_all<'a>(
    alloc: Global,
    configs: &'a [RealmConfig],
    realms: &[Recovery],
) -> Result<Vec<Served<'a>>, ServeFault> {
    let mut all = Vec::with_capacity(alloc, realms.len())?;
    for (config, recovery) in configs.iter().zip(realms) {
        all.push(Served::new(alloc, config, recovery.epoch())?)?;
    }
    Ok(all)
}

impl<'a, S: RowLog + Drop + Send + 'static> Server<'a, S>
where
    S::Medium: Send,
{
    /// Says where connections come in, does what a start does for the rows of each realm, and says in between that it is ready. It
    /// gives the doors at which connections are accepted; where there is no thread for one, the server is to end.
    pub fn begin<R, W>(
        &mut self,
        rt: &R,
        config: &'a Config,
        entrances: Vec<Entrance<'a>>,
        duties: Vec<Duties>,
        out: &mut W,
    ) -> Result<Vec<Door<'a>>, ServeFault>
    where
        R: Runtime,
        W: Write,
    {
        say_listening(self.alloc, config, out)?;
        let mut calls = Vec::new(self.alloc);
        for (realm, Duties { resumes, dials }) in duties.into_iter().enumerate() {
            self.say_doubts(rt, realm, None);
            self.resume(rt, realm, resumes);
            calls.push(dials)?;
        }
        say(self.alloc, out, Heading::Ready)?;
        for (realm, dials) in calls.into_iter().enumerate() {
            let _called = self.call(rt, realm, dials);
        }
        self.open_doors(rt, entrances)
    }

    /// Starts the threads that accept connections.
    fn open_doors<R: Runtime>(
        &mut self,
        rt: &R,
        entrances: Vec<Entrance<'a>>,
    ) -> Result<Vec<Door<'a>>, ServeFault> {
        let mut doors = Vec::with_capacity(self.alloc, entrances.len())?;
        for entrance in entrances {
            let place = entrance.place;
            match self.start_accepting(rt, entrance) {
                Ok(thread) => doors.push(Door { place, thread })?,
                Err(AllocError) => self.is_short = true,
            }
        }
        Ok(doors)
    }

    /// Starts the thread that accepts the connections that come in at a place.
    fn start_accepting<R: Runtime>(
        &self,
        rt: &R,
        entrance: Entrance<'a>,
    ) -> Result<JoinHandle<()>, AllocError>
        requires { Always }
    {
        let Entrance {
            realm,
            listener,
            is_control,
            ..
        } = entrance;
        if is_control {
            start_controls(rt, self.alloc, self.control_port(realm)?, listener)
        } else {
            start_accepting(rt, Arc::try_clone(&self.inbox)?, realm, listener)
        }
    }

    /// What the threads of a realm's control port share.
    fn control_port(&self, realm: usize) -> Result<Arc<ControlPort<S>>, AllocError>
        requires { Always }
    {
        let Some(served) = self.realms.get(realm) else {
            return Err(AllocError);
        };
        let port = ControlPort::new(
            Arc::try_clone(&self.shared)?,
            Arc::try_clone(&self.inbox)?,
            Arc::try_clone(&served.slots)?,
            realm,
            served.config.limits,
        );
        Ok(Arc::new(self.alloc, port)?)
    }
}

/// Says where the connections of each realm are accepted.
fn say_listening<W: Write>(alloc: Global, config: &Config, out: &mut W) -> Result<(), ServeFault> {
    for realm in config.realms.iter() {
        let heading = Heading::Listening {
            name: &realm.name,
            place: realm.listen.as_str(),
        };
        say(alloc, out, heading)?;
    }
    Ok(())
}

/// Says one line on standard output, at once.
pub fn say<W: Write>(alloc: Global, out: &mut W, heading: Heading<'_>) -> Result<(), ServeFault> {
    let line = format!(in alloc; "{heading}\n")?;
    if out.write_all(line.as_bytes()).is_err() || out.flush().is_err() {
        return Err(ServeFault::Write);
    }
    Ok(())
}
