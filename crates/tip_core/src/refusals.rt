//! The refusal that each fault of a public call is.
ghost use Rattle.std.specs.Prelude.{◌≡◌};

use crate::starts::StartFault;
use tip_line::Refusal;

impl From<StartFault> for Refusal {
    ghost use Rattle.tip_core.specs.Refusals.{refusal_of};

    ghost from_gives = { λ fault refusal. refusal ≡ refusal_of fault };

    fn from(fault: StartFault) -> Refusal {
        match fault {
            StartFault::SameName => Refusal::BadRealm,
            StartFault::NoEpoch => Refusal::BadRealm,
            StartFault::Memory => Refusal::Memory,
        }
    }
}
