//! Why a question is not answered, or an input not said.
ghost use Rattle.std.specs.Prelude.{◌≡◌};
ghost use Rattle.tip_asking.specs.Sending.{send_status_of};

use std::alloc::AllocError;
use thiserror::Error;
use tip_client::ClientFault;
use tip_line::ResponseName;
use tip_writing::WriteFault;

/// Why a question was not answered to its end. What was said and told before stands.
#[derive(Clone, Copy, Debug, Error)]
pub enum AskFault {
    /// Nothing that may be a response came, or a command could not be said.
    #[error("{0}")]
    Dialogue(ClientFault),
    /// A response behind which the dialogue does not go on: ERROR, or NEEDTLS.
    #[error("the manager answers {}", .0.as_str())]
    Answered(ResponseName),
    /// The answer could not be told.
    #[error("cannot write")]
    Write,
    #[error("out of memory")]
    Memory,
}

impl AskFault {
    /// The exit status of the process.
    pub fn status(self) -> u8
        ensures { result ≡ 1 }
    {
        match self {
            AskFault::Dialogue(_) | AskFault::Answered(_) | AskFault::Write | AskFault::Memory => 1,
        }
    }
}

impl From<AllocError> for AskFault {
    ghost use Rattle.tip_asking.specs.declared.fault.AskFault.TheVariants.{Memory};

    ghost from_gives = { λ _ fault. fault ≡ Memory };

    fn from(_: AllocError) -> AskFault {
        AskFault::Memory
    }
}

impl From<ClientFault> for AskFault {
    ghost use Rattle.tip_asking.specs.declared.fault.AskFault.TheVariants.{Dialogue};

    ghost from_gives = { λ fault result. result ≡ Dialogue fault };

    fn from(fault: ClientFault) -> AskFault {
        AskFault::Dialogue(fault)
    }
}

impl From<WriteFault> for AskFault {
    ghost use Rattle.tip_asking.specs.declared.fault.AskFault.TheVariants.{Write};

    ghost from_gives = { λ _ fault. fault ≡ Write };

    fn from(_: WriteFault) -> AskFault {
        AskFault::Write
    }
}

/// Why not all commands of an input were said and answered. What was said and told before stands.
#[derive(Clone, Copy, Debug, Error)]
pub enum SendFault {
    #[error("{0}")]
    Ask(AskFault),
    /// A line of the input is no command.
    #[error("what was given is no command")]
    NoCommand,
    /// A read of the input failed, or 4,294,967,295 were made.
    #[error("cannot read")]
    Input,
    #[error("out of memory")]
    Memory,
}

impl SendFault {
    /// The exit status of the process: 2 where the input is wrong.
    pub fn status(self) -> u8
        ensures { result ≡ send_status_of self }
    {
        match self {
            SendFault::NoCommand => 2,
            SendFault::Ask(_) | SendFault::Input | SendFault::Memory => 1,
        }
    }
}

impl From<AskFault> for SendFault {
    ghost use Rattle.tip_asking.specs.declared.fault.SendFault.TheVariants.{Ask};

    ghost from_gives = { λ fault result. result ≡ Ask fault };

    fn from(fault: AskFault) -> SendFault {
        SendFault::Ask(fault)
    }
}

impl From<AllocError> for SendFault {
    ghost use Rattle.tip_asking.specs.declared.fault.SendFault.TheVariants.{Memory};

    ghost from_gives = { λ _ fault. fault ≡ Memory };

    fn from(_: AllocError) -> SendFault {
        SendFault::Memory
    }
}
