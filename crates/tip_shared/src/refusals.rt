//! The refusal that each fault of a public call is.
ghost use Rattle.std.specs.Prelude.{◌≡◌};

use crate::closing::CloseFault;
use tip_line::Refusal;

impl From<CloseFault> for Refusal {
    ghost use Rattle.tip_shared.specs.Refusals.{refusal_of};

    ghost from_gives = { λ fault refusal. refusal ≡ refusal_of fault };

    fn from(fault: CloseFault) -> Refusal {
        match fault {
            CloseFault::PassMismatch => Refusal::PassMismatch,
            CloseFault::Memory => Refusal::Memory,
            CloseFault::Host(fault) => Refusal::from(fault),
        }
    }
}
