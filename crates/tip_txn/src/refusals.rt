//! The refusal that each fault of a public call is.
ghost use Rattle.std.specs.Prelude.{◌≡◌};

use crate::txn::EnlistFault;
use tip_line::Refusal;

impl From<EnlistFault> for Refusal {
    ghost use Rattle.tip_txn.specs.Refusals.{refusal_of};

    ghost from_gives = { λ fault refusal. refusal ≡ refusal_of fault };

    fn from(fault: EnlistFault) -> Refusal {
        match fault {
            EnlistFault::NotActive => Refusal::NotActive,
            EnlistFault::Twice => Refusal::Twice,
        }
    }
}
