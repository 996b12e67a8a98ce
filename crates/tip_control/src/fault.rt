//! Why a line is no request, and why a question is not answered.
use std::alloc::AllocError;
use thiserror::Error;
use tip_line::WordFault;
use tip_writing::WriteFault;

/// Why a line is no request.
#[derive(Clone, Copy, Debug, PartialEq, Eq, Error)]
pub enum RequestFault {
    #[error("no request that is known")]
    Unknown,
    #[error("too few words")]
    Missing,
    #[error("no word of the kind that is asked for")]
    NotWord,
    #[error("out of memory")]
    Memory,
}

impl From<WordFault> for RequestFault {
    ghost use Rattle.std.specs.Prelude.{◌≡◌};
    ghost use Rattle.tip_control.specs.Requests.{of_word_fault};

    ghost from_gives = { λ fault result. result ≡ of_word_fault fault };

    fn from(fault: WordFault) -> RequestFault {
        match fault {
            WordFault::NotWord => RequestFault::NotWord,
            WordFault::Memory => RequestFault::Memory,
        }
    }
}

/// Why a question to a control port is not answered to its end. What was told before stands.
#[derive(Clone, Copy, Debug, PartialEq, Eq, Error)]
pub enum AskFault {
    /// The port was closed before the answer's end.
    #[error("closed before the answer's end")]
    Closed,
    #[error("cannot read")]
    Read,
    #[error("cannot write")]
    Write,
    #[error("out of memory")]
    Memory,
}

impl From<AllocError> for AskFault {
    ghost use Rattle.std.specs.Prelude.{◌≡◌};
    ghost use Rattle.tip_control.specs.declared.fault.AskFault.TheVariants.{Memory};

    ghost from_gives = { λ _ fault. fault ≡ Memory };

    fn from(_: AllocError) -> AskFault {
        AskFault::Memory
    }
}

impl From<WriteFault> for AskFault {
    ghost use Rattle.std.specs.Prelude.{◌≡◌};
    ghost use Rattle.tip_control.specs.declared.fault.AskFault.TheVariants.{Write};

    ghost from_gives = { λ _ fault. fault ≡ Write };

    fn from(_: WriteFault) -> AskFault {
        AskFault::Write
    }
}
