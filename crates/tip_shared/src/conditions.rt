//! Conditions on which the threads of connections wait.
use std::alloc::{AllocError, Global};
use std::sync::Condvar;
use tip_host::{Seat, Spoken};
use tip_machine::Head;

/// For each realm, as many conditions as it may have connections. The two threads of a connection wait on one, so that an event
/// wakes those that it speaks to and, where numbers have come round, at most as many again.
#[derive(Drop)]
pub(crate) struct Conditions {
    realms: Vec<Vec<Condvar>>,
}

impl Conditions {
    pub(crate) fn of(alloc: Global, heads: &[Head]) -> Result<Conditions, AllocError> {
        let mut realms = Vec::with_capacity(alloc, heads.len())?;
        for head in heads {
            realms.push(so_many(alloc, head.limits.connections)?)?;
        }
        Ok(Conditions { realms })
    }

    /// The condition of a connection; None where its realm is not there.
    pub(crate) fn at(&self, seat: Seat) -> Option<&Condvar> {
        let own = self.realms.get(seat.realm)?;
        if own.is_empty() {
            return None;
        }
        own.get(seat.number as usize % own.len())
    }

    pub(crate) fn wake(&self, seat: Seat) {
        if let Some(condition) = self.at(seat) {
            condition.notify_all();
        }
    }

    /// Wakes the connections of a realm that are spoken to.
    pub(crate) fn wake_spoken(&self, realm: usize, spoken: &Spoken) {
        if spoken.has_more() {
            return self.wake_realm(realm);
        }
        for number in spoken.numbers() {
            self.wake(Seat {
                realm,
                epoch: 0,
                number: *number,
            });
        }
    }

    pub(crate) fn wake_realm(&self, realm: usize) {
        if let Some(own) = self.realms.get(realm) {
            for condition in own {
                condition.notify_all();
            }
        }
    }

    pub(crate) fn wake_all(&self) {
        for own in &self.realms {
            for condition in own {
                condition.notify_all();
            }
        }
    }
}

fn so_many(alloc: Global, count: u32) -> Result<Vec<Condvar>, AllocError> {
    let mut conditions = Vec::with_capacity(alloc, count as usize)?;
    for _ in 0..count {
        conditions.push(Condvar::new())?;
    }
    Ok(conditions)
}
