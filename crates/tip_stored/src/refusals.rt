//! The refusal that each fault of a public call is.
ghost use Rattle.std.specs.Prelude.{◌≡◌};

use crate::loading::LoadFault;
use crate::renewing::RenewFault;
use crate::stored_core::StepFault;
use tip_line::Refusal;

impl From<StepFault> for Refusal {
    ghost use Rattle.tip_stored.specs.Refusals.{refusal_of_step};

    ghost from_gives = { λ fault refusal. refusal ≡ refusal_of_step fault };

    fn from(fault: StepFault) -> Refusal {
        match fault {
            StepFault::Stopped => Refusal::Stopped,
            StepFault::Memory => Refusal::Memory,
        }
    }
}

impl From<LoadFault> for Refusal {
    ghost use Rattle.tip_stored.specs.Refusals.{refusal_of_load};

    ghost from_gives = { λ fault refusal. refusal ≡ refusal_of_load fault };

    fn from(fault: LoadFault) -> Refusal {
        match fault {
            LoadFault::Refused => Refusal::Refused,
            LoadFault::EpochEnd => Refusal::EpochEnd,
            LoadFault::BadRow => Refusal::BadRow,
            LoadFault::Memory => Refusal::Memory,
            LoadFault::BadRealm => Refusal::BadRealm,
        }
    }
}

impl From<RenewFault> for Refusal {
    ghost use Rattle.tip_stored.specs.Refusals.{refusal_of_renewal};

    ghost from_gives = { λ fault refusal. refusal ≡ refusal_of_renewal fault };

    fn from(fault: RenewFault) -> Refusal {
        match fault {
            RenewFault::Stopped => Refusal::Stopped,
            RenewFault::NoRealm => Refusal::NoRealm,
            RenewFault::NotRead => Refusal::Refused,
            RenewFault::BadRow => Refusal::BadRow,
            RenewFault::EpochEnd => Refusal::EpochEnd,
            RenewFault::NotInDoubt => Refusal::NotInDoubt,
            RenewFault::Unadopted => Refusal::Unadopted,
            RenewFault::NotRaised => Refusal::Refused,
            RenewFault::Memory => Refusal::Memory,
        }
    }
}
