//! The refusal that each fault of a public call is.
ghost use Rattle.std.specs.Prelude.{◌≡◌};

use crate::closing::CloseFault;
use crate::host::{HostFault, OpenFault};
use tip_line::Refusal;

impl From<OpenFault> for Refusal {
    ghost use Rattle.tip_host.specs.Refusals.{refusal_of_opening};

    ghost from_gives = { λ fault refusal. refusal ≡ refusal_of_opening fault };

    fn from(fault: OpenFault) -> Refusal {
        match fault {
            OpenFault::Unadopted => Refusal::Unadopted,
            OpenFault::Memory => Refusal::Memory,
        }
    }
}

impl From<HostFault> for Refusal {
    ghost use Rattle.tip_host.specs.Refusals.{refusal_of_step};

    ghost from_gives = { λ fault refusal. refusal ≡ refusal_of_step fault };

    fn from(fault: HostFault) -> Refusal {
        match fault {
            HostFault::Stopped => Refusal::Stopped,
            HostFault::PassMismatch => Refusal::PassMismatch,
            HostFault::NotOut => Refusal::Stranger,
            HostFault::Memory => Refusal::Memory,
        }
    }
}

impl From<CloseFault> for Refusal {
    ghost use Rattle.tip_host.specs.Refusals.{refusal_of_closing};

    ghost from_gives = { λ fault refusal. refusal ≡ refusal_of_closing fault };

    fn from(fault: CloseFault) -> Refusal {
        match fault {
            CloseFault::Read(fault) => Refusal::from(fault),
            CloseFault::NotStored => Refusal::Store,
        }
    }
}
