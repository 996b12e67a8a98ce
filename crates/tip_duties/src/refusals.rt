//! The refusal that each fault of a public call is.
ghost use Rattle.std.specs.Prelude.{◌≡◌};

use crate::fault::ServeFault;
use tip_line::Refusal;

impl From<ServeFault> for Refusal {
    ghost use Rattle.tip_duties.specs.Refusals.{refusal_of};

    ghost from_gives = { λ fault refusal. refusal ≡ refusal_of fault };

    fn from(fault: ServeFault) -> Refusal {
        match fault {
            ServeFault::Config => Refusal::Config,
            ServeFault::Store => Refusal::Store,
            ServeFault::Listen { .. } => Refusal::Listen,
            ServeFault::Read => Refusal::ReadFault,
            ServeFault::Write => Refusal::WriteFault,
            ServeFault::Memory => Refusal::Memory,
            ServeFault::Audit => Refusal::PassMismatch,
        }
    }
}
