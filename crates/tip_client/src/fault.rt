//! Why a dialogue stops.
ghost use Rattle.std.specs.Prelude.{◌≡◌};

use std::alloc::{AllocError, AllocFailed};
use thiserror::Error;
use tip_line::Refusal;
use tip_writing::WriteFault;

/// Why not all commands were said and answered. What was written before stands.
#[derive(Clone, Copy, Debug, PartialEq, Eq, Error)]
pub enum ClientFault {
    /// What came is no response that its command may have.
    #[error("no response that the command may have")]
    Unexpected,
    /// The input ended before the response.
    #[error("closed before the response")]
    Closed,
    /// A read failed, or 4,294,967,295 were made.
    #[error("cannot read")]
    Read,
    /// A write failed, or the writer took nothing.
    #[error("cannot write")]
    Write,
    #[error("out of memory")]
    Memory,
}

impl From<AllocError> for ClientFault {
    ghost use Rattle.tip_client.specs.declared.fault.ClientFault.TheVariants.{Memory};

    ghost from_gives = { λ _ fault. fault ≡ Memory };

    fn from(_: AllocError) -> ClientFault {
        ClientFault::Memory
    }
}

impl<T: Drop> From<AllocFailed<T>> for ClientFault {
    ghost use Rattle.tip_client.specs.declared.fault.ClientFault.TheVariants.{Memory};

    ghost from_gives = { λ _ fault. fault ≡ Memory };

    fn from(_: AllocFailed<T>) -> ClientFault {
        ClientFault::Memory
    }
}

impl From<WriteFault> for ClientFault {
    ghost use Rattle.tip_client.specs.declared.fault.ClientFault.TheVariants.{Write};

    ghost from_gives = { λ _ fault. fault ≡ Write };

    fn from(_: WriteFault) -> ClientFault {
        ClientFault::Write
    }
}

impl From<ClientFault> for Refusal {
    ghost use Rattle.tip_client.specs.Faults.{refusal_of};

    ghost from_gives = { λ fault result. result ≡ refusal_of fault };

    fn from(fault: ClientFault) -> Refusal {
        match fault {
            ClientFault::Unexpected => Refusal::Unexpected,
            ClientFault::Closed => Refusal::Closed,
            ClientFault::Read => Refusal::ReadFault,
            ClientFault::Write => Refusal::WriteFault,
            ClientFault::Memory => Refusal::Memory,
        }
    }
}
