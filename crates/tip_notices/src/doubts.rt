//! The transactions in doubt, as the store shows them.
use crate::inbox::{Inbox, News};
use crate::log::Log;
use std::alloc::{AllocError, Global};
use std::collections::BTreeMap;
use std::sync::{Arc, Mutex, Wait};
use tip_duties::Note;
use tip_line::{Address, Id, Realm};
use tip_rows::{Key, Row};
use tip_settings::RealmConfig;
use tip_watched::Watch;

/// The connection on which transactions were made.
#[derive(Clone, Copy, PartialEq, Eq, PartialOrd, Ord)]
pub struct Maker {
    pub epoch: u32,
    pub connection: u32,
}

/// A transaction in doubt.
#[derive(Drop)]
struct Doubt {
    key: Key,
    superior: Address,
    /// Whether the operator was told of it.
    is_said: bool,
}

/// The transactions in doubt of a realm, by the connection on which each was made.
#[derive(Drop)]
struct RealmDoubts {
    realm: Realm,
    made_on: BTreeMap<Maker, Vec<Doubt>>,
}

/// A transaction in doubt, of which the operator is to be told.
#[derive(Drop)]
struct Unsaid {
    transaction: Id,
    superior: Address,
}

/// The transactions in doubt. The operator is told of those alone whose superior has gone.
#[derive(Drop)]
pub struct Doubts {
    alloc: Global,
    realms: Mutex<Vec<RealmDoubts>>,
}

impl Maker {
    fn of(key: Key) -> Maker {
        Maker {
            epoch: key.epoch(),
            connection: key.connection(),
        }
    }
}

impl RealmDoubts {
    fn keep(&mut self, alloc: Global, key: Key, superior: &Address) -> Result<(), AllocError> {
        let made = self
            .made_on
            .entry(Maker::of(key))?
            .or_insert(Vec::new(alloc));
        if made.iter().all(|doubt| doubt.key != key) {
            let superior = superior.copy()?;
            made.push(Doubt {
                key,
                superior,
                is_said: false,
            })?;
        }
        Ok(())
    }

    fn end(&mut self, key: Key) -> bool {
        let maker = Maker::of(key);
        let Some(made) = self.made_on.get_mut(&maker) else {
            return false;
        };
        let Some(place) = made.iter().position(|doubt| doubt.key == key) else {
            return false;
        };
        let doubt = made.swap_remove(place);
        if made.is_empty() {
            self.made_on.remove(&maker);
        }
        doubt.is_said
    }
}

impl Doubts {
    /// None is in doubt yet, in realms of these names.
    pub fn new(alloc: Global, realms: &[RealmConfig]) -> Result<Doubts, AllocError> {
        let mut all = Vec::new(alloc);
        for realm in realms {
            all.push(RealmDoubts {
                realm: realm.name.copy()?,
                made_on: BTreeMap::new(alloc),
            })?;
        }
        Ok(Doubts {
            alloc,
            realms: Mutex::new(all),
        })
    }

    /// A transaction is in doubt.
    fn keep<R: Wait>(
        &self,
        rt: &R,
        realm: &Realm,
        key: Key,
        superior: &Address,
    ) -> Result<(), AllocError> {
        let mut realms = self.realms.lock(rt);
        match realms.iter_mut().find(|doubts| doubts.realm == *realm) {
            Some(doubts) => doubts.keep(self.alloc, key, superior),
            None => Ok(()),
        }
    }

    /// A transaction is not in doubt any more; whether the operator was told that it was.
    fn end<R: Wait>(&self, rt: &R, realm: &Realm, key: Key) -> bool {
        let mut realms = self.realms.lock(rt);
        match realms.iter_mut().find(|doubts| doubts.realm == *realm) {
            Some(doubts) => doubts.end(key),
            None => false,
        }
    }

    /// Tells the operator of those that he was not told of: of a realm, or of one connection of it.
    pub fn say<R: Wait + Eprint>(&self, rt: &R, log: &Log, realm: &Realm, maker: Option<Maker>) {
        let Ok(unsaid) = self.take_unsaid(rt, realm, maker) else {
            return;
        };
        for doubt in unsaid.iter() {
            let note = Note::InDoubt {
                transaction: &doubt.transaction,
                superior: &doubt.superior,
            };
            log.note(rt, self.alloc, note);
        }
    }

    /// Those of a realm, or of one connection of it, of which the operator is to be told now.
    fn take_unsaid<R: Wait>(
        &self,
        rt: &R,
        realm: &Realm,
        maker: Option<Maker>,
    ) -> Result<Vec<Unsaid>, AllocError> {
        let mut unsaid = Vec::new(self.alloc);
        let mut realms = self.realms.lock(rt);
        let Some(doubts) = realms.iter_mut().find(|doubts| doubts.realm == *realm) else {
            return Ok(unsaid);
        };
        match maker {
            Some(maker) => {
                if let Some(made) = doubts.made_on.get_mut(&maker) {
                    say_all(self.alloc, realm, made, &mut unsaid)?;
                }
            }
            None => {
                for made in doubts.made_on.values_mut() {
                    say_all(self.alloc, realm, made, &mut unsaid)?;
                }
            }
        }
        Ok(unsaid)
    }
}

/// Those of these of which the operator was not told are to be told now.
fn say_all(
    alloc: Global,
    realm: &Realm,
    made: &mut [Doubt],
    unsaid: &mut Vec<Unsaid>,
) -> Result<(), AllocError> {
    for doubt in made.iter_mut().filter(|doubt| !doubt.is_said) {
        let transaction = id_of(alloc, realm, doubt.key)?;
        let superior = doubt.superior.copy()?;
        unsaid.push(Unsaid {
            transaction,
            superior,
        })?;
        doubt.is_said = true;
    }
    Ok(())
}

/// Keeps the transactions in doubt by what the store tells, and tells the top body what an operator must know of rows.
/// Where memory is wanting a transaction is left out.
#[derive(Drop)]
pub struct Watcher<R> {
    pub rt: R,
    pub alloc: Global,
    pub doubts: Arc<Doubts>,
    pub inbox: Arc<Inbox>,
}

impl<R: Wait> Watcher<R> {
    fn see(&self, realm: &Realm, key: Key, row: &Row) {
        match row {
            Row::Prepared { address, .. } => {
                let _kept = self.doubts.keep(&self.rt, realm, key, address);
            }
            Row::Committed { .. } => self.end(realm, key, true),
        }
    }

    /// A transaction has its outcome: the operator is told where it was said to be in doubt.
    fn end(&self, realm: &Realm, key: Key, is_committed: bool) {
        if self.doubts.end(&self.rt, realm, key)
            && let Ok(transaction) = id_of(self.alloc, realm, key)
        {
            self.inbox.tell(
                &self.rt,
                News::Decided {
                    transaction,
                    is_committed,
                },
            );
        }
    }
}

impl<R: Wait> Watch for Watcher<R> {
    fn loaded(&mut self, realm: &Realm, rows: &[(Key, Row)]) {
        for (key, row) in rows {
            self.see(realm, *key, row);
        }
    }

    fn put(&mut self, realm: &Realm, key: Key, row: &Row) {
        self.see(realm, key, row);
    }

    fn removed(&mut self, realm: &Realm, key: Key) {
        self.end(realm, key, false);
    }

    fn refused(&mut self, realm: &Realm, key: Key) {
        if let Ok(transaction) = id_of(self.alloc, realm, key) {
            self.inbox
                .tell(&self.rt, News::StoreRefused { transaction });
        }
    }
}

fn id_of(alloc: Global, realm: &Realm, key: Key) -> Result<Id, AllocError> {
    Id::of(alloc, realm, key.epoch(), key.connection(), key.number())
}
