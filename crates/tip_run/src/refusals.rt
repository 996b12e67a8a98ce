//! The refusal that each fault of a public call is.
ghost use Rattle.std.specs.Prelude.{◌≡◌};

use crate::halt::RunFault;
use tip_line::Refusal;

impl From<RunFault> for Refusal {
    ghost use Rattle.tip_run.specs.Refusals.{refusal_of};

    ghost from_gives = { λ fault refusal. refusal ≡ refusal_of fault };

    fn from(fault: RunFault) -> Refusal {
        match fault {
            RunFault::Load(fault) => Refusal::from(fault),
            RunFault::Renew(fault) => Refusal::from(fault),
            RunFault::Boxes => Refusal::WrongCount,
            RunFault::Memory => Refusal::Memory,
        }
    }
}
