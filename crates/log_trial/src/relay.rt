//! A log over another.
ghost use Rattle.std.specs.Prelude.{◌≡◌};

use tip_line::Realm;
use tip_rows::{Key, LoadFault, Loaded, RaiseFault, Refused, Row, RowLog};

/// A log that hands each call on.
#[derive(Drop)]
pub struct Relay<L: RowLog> {
    log: L,
}

impl<L: RowLog> Relay<L> {
    pub fn over(log: L) -> Relay<L>
        ensures { result.log ≡ log }
    {
        Relay { log }
    }
}

impl<L: RowLog> RowLog for Relay<L> {
    type Medium = L::Medium;

    ghost medium = { λ relay. L.medium relay.log };

    ghost keeping = { record {
      stands = λ relay. L.keeping.stands relay.log;
      may_leave = λ relay. L.keeping.may_leave relay.log;
      is_true = λ relay. L.keeping.is_true relay.log;
      faults = λ relay. L.keeping.faults relay.log;
      is_due = λ relay. L.keeping.is_due relay.log;
    } };

    fn know(&mut self, realm: &Realm) -> Result<(), Refused> {
        self.log.know(realm)
    }

    fn raise_epochs(&mut self) -> Result<(), RaiseFault> {
        self.log.raise_epochs()
    }

    fn raise_epoch(&mut self, realm: &Realm) -> Result<(), RaiseFault> {
        self.log.raise_epoch(realm)
    }

    fn put(&mut self, realm: &Realm, key: Key, row: &Row) -> Result<(), Refused> {
        self.log.put(realm, key, row)
    }

    fn remove(&mut self, realm: &Realm, key: Key) -> Result<(), Refused> {
        self.log.remove(realm, key)
    }

    fn load(&mut self, realm: &Realm) -> Result<Loaded, LoadFault> {
        self.log.load(realm)
    }

    fn realms(&mut self) -> Result<Vec<Realm>, LoadFault> {
        self.log.realms()
    }

    fn faults(&self) -> u64 {
        self.log.faults()
    }

    ghost true_while_faithful = { λ relay. L.true_while_faithful relay.log };

    ghost leaves_some = { λ relay. L.leaves_some relay.log };
}
