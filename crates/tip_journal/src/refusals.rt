//! The refusal that each fault of a public call is.
ghost use Rattle.std.specs.Prelude.{◌≡◌};

use crate::auditing::AuditFault;
use crate::retiring::RetireFault;
use tip_line::Refusal;

impl From<AuditFault> for Refusal {
    ghost use Rattle.tip_journal.specs.Refusals.{refusal_of_audit};

    ghost from_gives = { λ fault refusal. refusal ≡ refusal_of_audit fault };

    fn from(fault: AuditFault) -> Refusal {
        match fault {
            AuditFault::PassMismatch => Refusal::PassMismatch,
            AuditFault::Memory => Refusal::Memory,
        }
    }
}

impl From<RetireFault> for Refusal {
    ghost use Rattle.tip_journal.specs.Refusals.{refusal_of_retirement};

    ghost from_gives = { λ fault refusal. refusal ≡ refusal_of_retirement fault };

    fn from(fault: RetireFault) -> Refusal {
        match fault {
            RetireFault::NotEnded => Refusal::Busy,
            RetireFault::PassMismatch => Refusal::PassMismatch,
            RetireFault::Memory => Refusal::Memory,
        }
    }
}
