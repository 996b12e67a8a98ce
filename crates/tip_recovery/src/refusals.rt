//! The refusal that each fault of a public call is.
ghost use Rattle.std.specs.Prelude.{◌≡◌};

use crate::unfinished::AdoptFault;
use tip_line::Refusal;

impl From<AdoptFault> for Refusal {
    ghost use Rattle.tip_recovery.specs.Refusals.{refusal_of};

    ghost from_gives = { λ fault refusal. refusal ≡ refusal_of fault };

    fn from(fault: AdoptFault) -> Refusal {
        match fault {
            AdoptFault::NotInDoubt => Refusal::NotInDoubt,
            AdoptFault::WrongCount => Refusal::WrongCount,
        }
    }
}
