//! Why a script ends behind a line that is understood.
ghost use Rattle.std.specs.Prelude.{◌≡◌};

use std::alloc::{AllocError, AllocFailed};
use tip_stored::{LoadFault, RenewFault};

/// Why a line that is understood ends its script. What was printed before stands.
#[derive(Clone, Copy, PartialEq, Eq)]
pub enum ActFault {
    Memory,
    /// The store refused, and nobody had asked it to; or what is stored is no row, or an epoch is at its end.
    Store,
}

impl From<AllocError> for ActFault {
    ghost use Rattle.tip_actor.specs.declared.fault.ActFault.TheVariants.{Memory};

    ghost from_gives = { λ _ fault. fault ≡ Memory };

    fn from(_: AllocError) -> ActFault {
        ActFault::Memory
    }
}

impl<T: Drop> From<AllocFailed<T>> for ActFault {
    ghost use Rattle.tip_actor.specs.declared.fault.ActFault.TheVariants.{Memory};

    ghost from_gives = { λ _ fault. fault ≡ Memory };

    fn from(_: AllocFailed<T>) -> ActFault {
        ActFault::Memory
    }
}

impl From<LoadFault> for ActFault {
    ghost use Rattle.tip_actor.specs.Faults.{of_load_fault};

    ghost from_gives = { λ fault result. result ≡ of_load_fault fault };

    fn from(fault: LoadFault) -> ActFault {
        match fault {
            LoadFault::Memory => ActFault::Memory,
            LoadFault::Refused | LoadFault::EpochEnd | LoadFault::BadRow | LoadFault::BadRealm =>
                ActFault::Store,
        }
    }
}

impl From<RenewFault> for ActFault {
    ghost use Rattle.tip_actor.specs.Faults.{of_renew_fault};

    ghost from_gives = { λ fault result. result ≡ of_renew_fault fault };

    fn from(fault: RenewFault) -> ActFault {
        match fault {
            RenewFault::Memory => ActFault::Memory,
            RenewFault::Stopped
            | RenewFault::NoRealm
            | RenewFault::NotRead
            | RenewFault::BadRow
            | RenewFault::EpochEnd
            | RenewFault::NotInDoubt
            | RenewFault::Unadopted
            | RenewFault::NotRaised => ActFault::Store,
        }
    }
}
