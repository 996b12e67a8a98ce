//! The refusal that each fault of a public call is.
ghost use Rattle.std.specs.Prelude.{◌≡◌};

use crate::fault::{AskFault, SendFault};
use tip_line::Refusal;

impl From<AskFault> for Refusal {
    ghost use Rattle.tip_asking.specs.Refusals.{refusal_of_question};

    ghost from_gives = { λ fault refusal. refusal ≡ refusal_of_question fault };

    fn from(fault: AskFault) -> Refusal {
        match fault {
            AskFault::Dialogue(fault) => Refusal::from(fault),
            AskFault::Answered(_) => Refusal::Unexpected,
            AskFault::Write => Refusal::WriteFault,
            AskFault::Memory => Refusal::Memory,
        }
    }
}

impl From<SendFault> for Refusal {
    ghost use Rattle.tip_asking.specs.Refusals.{refusal_of_sending};

    ghost from_gives = { λ fault refusal. refusal ≡ refusal_of_sending fault };

    fn from(fault: SendFault) -> Refusal {
        match fault {
            SendFault::Ask(fault) => Refusal::from(fault),
            SendFault::NoCommand => Refusal::Unknown,
            SendFault::Input => Refusal::ReadFault,
            SendFault::Memory => Refusal::Memory,
        }
    }
}
