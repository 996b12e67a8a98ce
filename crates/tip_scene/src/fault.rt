//! Why a line of a script is not done.
ghost use Rattle.std.specs.Prelude.{◌≡◌};

use std::alloc::{AllocError, AllocFailed};
use tip_actor::ActFault;
use tip_line::WordFault;
use tip_rows::LabelFault;

/// Why a line of a script is not done.
#[derive(Clone, Copy, PartialEq, Eq)]
pub enum LineFault {
    /// It says nothing, or what may not stand here.
    NotUnderstood,
    Memory,
    /// As `ActFault::Store` says.
    Store,
}

impl From<AllocError> for LineFault {
    ghost use Rattle.tip_scene.specs.declared.fault.LineFault.TheVariants.{Memory};

    ghost from_gives = { λ _ fault. fault ≡ Memory };

    fn from(_: AllocError) -> LineFault {
        LineFault::Memory
    }
}

impl<T: Drop> From<AllocFailed<T>> for LineFault {
    ghost use Rattle.tip_scene.specs.declared.fault.LineFault.TheVariants.{Memory};

    ghost from_gives = { λ _ fault. fault ≡ Memory };

    fn from(_: AllocFailed<T>) -> LineFault {
        LineFault::Memory
    }
}

impl From<ActFault> for LineFault {
    ghost use Rattle.tip_scene.specs.Faults.{of_act_fault};

    ghost from_gives = { λ fault result. result ≡ of_act_fault fault };

    fn from(fault: ActFault) -> LineFault {
        match fault {
            ActFault::Memory => LineFault::Memory,
            ActFault::Store => LineFault::Store,
        }
    }
}

impl From<WordFault> for LineFault {
    ghost use Rattle.tip_scene.specs.Faults.{line_fault_of};

    ghost from_gives = { λ fault result. result ≡ line_fault_of fault };

    fn from(fault: WordFault) -> LineFault {
        match fault {
            WordFault::NotWord => LineFault::NotUnderstood,
            WordFault::Memory => LineFault::Memory,
        }
    }
}

impl From<LabelFault> for LineFault {
    ghost use Rattle.tip_scene.specs.Faults.{of_label_fault};

    ghost from_gives = { λ fault result. result ≡ of_label_fault fault };

    fn from(fault: LabelFault) -> LineFault {
        match fault {
            LabelFault::BadLabel => LineFault::NotUnderstood,
            LabelFault::Memory => LineFault::Memory,
        }
    }
}
