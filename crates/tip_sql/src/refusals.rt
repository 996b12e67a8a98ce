//! The refusal that each fault of a public call is.
ghost use Rattle.std.specs.Prelude.{◌≡◌};

use crate::opening::OverFault;
use tip_line::Refusal;

impl From<OverFault> for Refusal {
    ghost use Rattle.tip_sql.specs.Refusals.{refusal_of};

    ghost from_gives = { λ fault refusal. refusal ≡ refusal_of fault };

    fn from(fault: OverFault) -> Refusal {
        match fault {
            OverFault::Refused => Refusal::Refused,
            OverFault::BadSchema => Refusal::BadSchema,
        }
    }
}
