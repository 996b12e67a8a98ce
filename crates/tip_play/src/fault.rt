//! Why a script is not played to its end.
ghost use Rattle.std.specs.Prelude.{◌≡◌};
ghost use Rattle.tip_play.specs.Faults.{status_of};

use script_lines::LineFault;
use std::alloc::{AllocError, AllocFailed};
use thiserror::Error;
use tip_actor::ActFault;
use tip_writing::WriteFault;

/// Why a script was not played to its end. What was written before stands.
#[derive(Clone, Copy, Debug, PartialEq, Eq, Error)]
pub enum PlayFault {
    /// The line of this number, counted from 1.
    #[error("script line {line} is not understood")]
    Script { line: u64 },
    /// The input was not read, or has more lines than have numbers.
    #[error("cannot read")]
    Read,
    #[error("cannot write")]
    Write,
    #[error("out of memory")]
    Memory,
    /// The store refused to start the realms, or a change of their rows.
    #[error("store refused")]
    Store,
}

impl PlayFault {
    /// The exit status of the process: 2 for a fault of the script, 1 for the others.
    pub fn status(self) -> u8
        ensures { result ≡ status_of self }
    {
        match self {
            PlayFault::Script { .. } => 2,
            PlayFault::Read | PlayFault::Write | PlayFault::Memory | PlayFault::Store => 1,
        }
    }
}

impl From<AllocError> for PlayFault {
    ghost use Rattle.tip_play.specs.declared.fault.PlayFault.TheVariants.{Memory};

    ghost from_gives = { λ _ fault. fault ≡ Memory };

    fn from(_: AllocError) -> PlayFault {
        PlayFault::Memory
    }
}

impl<T: Drop> From<AllocFailed<T>> for PlayFault {
    ghost use Rattle.tip_play.specs.declared.fault.PlayFault.TheVariants.{Memory};

    ghost from_gives = { λ _ fault. fault ≡ Memory };

    fn from(_: AllocFailed<T>) -> PlayFault {
        PlayFault::Memory
    }
}

impl From<LineFault> for PlayFault {
    ghost use Rattle.tip_play.specs.Faults.{of_line};

    ghost from_gives = { λ fault result. result ≡ of_line fault };

    fn from(fault: LineFault) -> PlayFault {
        match fault {
            LineFault::Read => PlayFault::Read,
            LineFault::Memory => PlayFault::Memory,
        }
    }
}

impl From<WriteFault> for PlayFault {
    ghost use Rattle.tip_play.specs.declared.fault.PlayFault.TheVariants.{Write};

    ghost from_gives = { λ _ fault. fault ≡ Write };

    fn from(_: WriteFault) -> PlayFault {
        PlayFault::Write
    }
}

impl From<ActFault> for PlayFault {
    ghost use Rattle.tip_play.specs.Faults.{of_act_fault};

    ghost from_gives = { λ fault result. result ≡ of_act_fault fault };

    fn from(fault: ActFault) -> PlayFault {
        match fault {
            ActFault::Memory => PlayFault::Memory,
            ActFault::Store => PlayFault::Store,
        }
    }
}
