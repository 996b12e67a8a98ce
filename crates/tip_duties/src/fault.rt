//! Why the server ended.
ghost use Rattle.std.specs.Prelude.{◌≡◌};
ghost use Rattle.tip_duties.specs.Faults.{status_of};

use std::alloc::{AllocError, AllocFailed};
use thiserror::Error;
use tip_line::Realm;

/// Why the server did not start, or ended otherwise than it was asked to.
#[derive(Debug, Drop, Error)]
pub enum ServeFault {
    /// The octets are no configuration, or its realms may not be hosted together.
    #[error("configuration refused")]
    Config,
    /// The store refused to be opened or to start, or has a row that is ahead of its realm.
    #[error("store refused")]
    Store,
    #[error("cannot listen for {name}")]
    Listen { name: Realm },
    #[error("cannot read")]
    Read,
    #[error("cannot write")]
    Write,
    /// Memory, or a thread that the server can't do without.
    #[error("out of memory")]
    Memory,
    /// The passes do not have the journals' entries, or what is stored is not what the store has answered.
    #[error("audit failed")]
    Audit,
}

impl ServeFault {
    /// The exit status of the process: 2 for a fault of the configuration, 1 for the others.
    pub fn status(&self) -> u8
        ensures { result ≡ status_of self.now }
    {
        match self {
            ServeFault::Config => 2,
            ServeFault::Store
            | ServeFault::Listen { .. }
            | ServeFault::Read
            | ServeFault::Write
            | ServeFault::Memory
            | ServeFault::Audit => 1,
        }
    }
}

impl From<AllocError> for ServeFault {
    ghost use Rattle.std.specs.Prelude.{◌≡◌};
    ghost use Rattle.tip_duties.specs.declared.fault.ServeFault.TheVariants.{Memory};

    ghost from_gives = { λ _ fault. fault ≡ Memory };

    fn from(_: AllocError) -> ServeFault {
        ServeFault::Memory
    }
}

impl<T: Drop> From<AllocFailed<T>> for ServeFault {
    ghost use Rattle.std.specs.Prelude.{◌≡◌};
    ghost use Rattle.tip_duties.specs.declared.fault.ServeFault.TheVariants.{Memory};

    ghost from_gives = { λ _ fault. fault ≡ Memory };

    fn from(_: AllocFailed<T>) -> ServeFault {
        ServeFault::Memory
    }
}
