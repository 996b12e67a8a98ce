//! A store that is watched.
ghost use Rattle.std.specs.Prelude.{◌≡◌};

use crate::watch::Watch;
use tip_line::Realm;
use tip_rows::{Key, LoadFault, Loaded, RaiseFault, Refused, Row, RowLog};

/// A store that does what the one below it does, and tells what becomes of its rows.
#[derive(Drop)]
pub struct Watched<L: RowLog, W> {
    log: L,
    watch: W,
}

impl<L: RowLog, W> Watched<L, W> {
    pub fn over(log: L, watch: W) -> Watched<L, W>
        ensures { result.log ≡ log }
    {
        Watched { log, watch }
    }
}

impl<L: RowLog, W: Watch> RowLog for Watched<L, W> {
    type Medium = L::Medium;

    ghost medium = { λ watched. L.medium watched.log };

    ghost keeping = { record {
      stands = λ watched. L.keeping.stands watched.log;
      may_leave = λ watched. L.keeping.may_leave watched.log;
      is_true = λ watched. L.keeping.is_true watched.log;
      faults = λ watched. L.keeping.faults watched.log;
      is_due = λ watched. L.keeping.is_due watched.log;
    } };

    fn know(&mut self, realm: &Realm) -> Result<(), Refused> {
        self.log.know(realm)
    }

    fn raise_epochs(&mut self) -> Result<(), RaiseFault> {
        self.log.raise_epochs()
    }

    fn raise_epoch(&mut self, realm: &Realm) -> Result<(), RaiseFault> {
        self.log.raise_epoch(realm)
    }

    fn put(&mut self, realm: &Realm, key: Key, row: &Row) -> Result<(), Refused> {
        let put = self.log.put(realm, key, row);
        match put {
            Ok(()) => self.watch.put(realm, key, row),
            Err(Refused) => self.watch.refused(realm, key),
        }
        put
    }

    fn remove(&mut self, realm: &Realm, key: Key) -> Result<(), Refused> {
        let removed = self.log.remove(realm, key);
        match removed {
            Ok(()) => self.watch.removed(realm, key),
            Err(Refused) => self.watch.refused(realm, key),
        }
        removed
    }

    fn load(&mut self, realm: &Realm) -> Result<Loaded, LoadFault> {
        let loaded = self.log.load(realm);
        if let Ok(found) = &loaded {
            self.watch.loaded(realm, &found.rows);
        }
        loaded
    }

    fn realms(&mut self) -> Result<Vec<Realm>, LoadFault> {
        self.log.realms()
    }

    fn faults(&self) -> u64 {
        self.log.faults()
    }

    ghost true_while_faithful = { λ watched. L.true_while_faithful watched.log };

    ghost leaves_some = { λ watched. L.leaves_some watched.log };
}
