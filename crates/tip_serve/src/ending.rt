//! The end of the server.
ghost use Rattle.tip_branch.specs.Always.{Always};

use crate::served::Served;
use crate::server::Server;
use crate::starting::say;
use std::alloc::{AllocError, Global};
use std::io::Write;
use std::sync::{Arc, Wait};
use std::thread::Threads;
use tip_duties::{Heading, ServeFault, entries_of};
use tip_honest::Entry;
use tip_journal::{Pass, Reported, Retired};
use tip_rows::RowLog;
use tip_settings::RealmConfig;
use tip_shared::{CloseFault, Closed, Shared};

impl<'a, S: RowLog + Drop + Send + 'static> Server<'a, S>
where
    S::Medium: Send,
{
    /// The host is stopped, and all threads but those that accept are ended.
    pub fn stop<R: Wait + Threads + Eprint>(&mut self, rt: &R)
        requires { Always }
    {
        self.shared.stop(rt);
        self.inbox.close(rt);
        for served in self.realms.iter() {
            served.slots.close(rt);
        }
        self.connections.shut_all();
        for place in 0..self.connections.len() {
            self.join(rt, place);
        }
        self.callers.join_all(rt);
        for _ in rt.forever() {
            let Some(news) = self.inbox.take_news(rt) else {
                return;
            };
            self.log.note(rt, self.alloc, news.note());
        }
    }

    /// Says how many entries each realm has, once the audit has found all right.
    pub fn report<W: Write>(self, out: &mut W) -> Result<(), ServeFault> {
        let alloc = self.alloc;
        let Last {
            realms,
            shared,
            is_short,
        } = self.last();
        if is_short {
            return Err(ServeFault::Memory);
        }
        let Audit { configs, passes } = audit_of(alloc, realms)?;
        let counts = close(alloc, shared, passes)?;
        for (place, realm) in configs.iter().enumerate() {
            let heading = Heading::Entries {
                name: &realm.name,
                entries: counts.of(place),
            };
            say(alloc, out, heading)?;
        }
        Ok(())
    }

    /// What is left to be audited. All else is let go.
    fn last(self) -> Last<'a, S>
        requires { Always }
    {
        let Server {
            realms,
            shared,
            is_short,
            ..
        } = self;
        Last {
            realms,
            shared,
            is_short,
        }
    }
}

/// What is left of a server that has stopped.
#[derive(Drop)]
struct Last<'a, S> {
    realms: Vec<Served<'a>>,
    shared: Arc<Shared<S>>,
    is_short: bool,
}

/// What is audited, and for whom.
#[derive(Drop)]
struct Audit<'a> {
    configs: Vec<&'a RealmConfig>,
    passes: Vec<Pass<Entry>>,
}

/// The passes of these realms.
fn audit_of(alloc: Global, realms: Vec<Served<'_>>) -> Result<Audit<'_>, AllocError> {
    let mut configs = Vec::new(alloc);
    let mut all = Vec::new(alloc);
    for served in realms {
        let Served {
            config,
            own,
            mut passes,
            ..
        } = served;
        all.append(&mut passes)?;
        all.push(own)?;
        configs.push(config)?;
    }
    Ok(Audit {
        configs,
        passes: all,
    })
}

/// How many entries the journals had: those that were kept to the end, and those of each realm that were let go before.
#[derive(Drop)]
struct Counts {
    report: Vec<Reported>,
    retired: Vec<Retired>,
}

impl Counts {
    /// How many a realm had, over all of its starts.
    fn of(&self, realm: usize) -> u64 {
        let kept = entries_of(&self.report, realm);
        match self.retired.get(realm) {
            Some(retired) => kept.saturating_add(retired.entries()),
            None => kept,
        }
    }
}

/// The host is audited and closed: how many entries its journals had.
fn close<S: RowLog + Drop>(
    alloc: Global,
    shared: Arc<Shared<S>>,
    passes: Vec<Pass<Entry>>,
) -> Result<Counts, ServeFault> {
    let Some(shared) = Arc::into_inner(shared) else {
        return Err(ServeFault::Audit);
    };
    match shared.close(alloc, passes) {
        Ok(closed) => {
            let Closed {
                report,
                retired,
                ..
            } = closed;
            Ok(Counts { report, retired })
        }
        Err((CloseFault::Memory, _, _)) => Err(ServeFault::Memory),
        Err(_) => Err(ServeFault::Audit),
    }
}
