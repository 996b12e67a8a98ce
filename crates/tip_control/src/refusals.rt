//! The refusal that each fault of a public call is.
use crate::fault::{AskFault, RequestFault};
use tip_line::Refusal;

impl From<RequestFault> for Refusal {
    ghost use Rattle.std.specs.Prelude.{◌≡◌};
    ghost use Rattle.tip_control.specs.Refusals.{refusal_of_request};

    ghost from_gives = { λ fault refusal. refusal ≡ refusal_of_request fault };

    fn from(fault: RequestFault) -> Refusal {
        match fault {
            RequestFault::Unknown => Refusal::Unknown,
            RequestFault::Missing => Refusal::Missing,
            RequestFault::NotWord => Refusal::NotWord,
            RequestFault::Memory => Refusal::Memory,
        }
    }
}

impl From<AskFault> for Refusal {
    ghost use Rattle.std.specs.Prelude.{◌≡◌};
    ghost use Rattle.tip_control.specs.Refusals.{refusal_of_question};

    ghost from_gives = { λ fault refusal. refusal ≡ refusal_of_question fault };

    fn from(fault: AskFault) -> Refusal {
        match fault {
            AskFault::Closed => Refusal::Closed,
            AskFault::Read => Refusal::ReadFault,
            AskFault::Write => Refusal::WriteFault,
            AskFault::Memory => Refusal::Memory,
        }
    }
}
