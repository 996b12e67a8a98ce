//! Why rows are not listed.
ghost use Rattle.std.specs.Prelude.{◌≡◌};

use std::alloc::AllocError;
use thiserror::Error;
use tip_line::Refusal;
use tip_rows::LoadFault;
use tip_writing::WriteFault;

/// Why what is stored was not listed, or not written.
#[derive(Clone, Copy, Debug, PartialEq, Eq, Error)]
pub enum RowsFault {
    /// The store can't be opened or read, or has other tables.
    #[error("store refused")]
    Refused,
    /// What is stored is no row, epoch or name.
    #[error("store refused")]
    BadRow,
    #[error("cannot write")]
    Write,
    #[error("out of memory")]
    Memory,
}

impl RowsFault {
    /// The exit status of the process.
    pub fn status(self) -> u8
        ensures { result ≡ 1 }
    {
        match self {
            RowsFault::Refused | RowsFault::BadRow | RowsFault::Write | RowsFault::Memory => 1,
        }
    }
}

impl From<AllocError> for RowsFault {
    ghost use Rattle.tip_listing.specs.declared.fault.RowsFault.TheVariants.{Memory};

    ghost from_gives = { λ _ fault. fault ≡ Memory };

    fn from(_: AllocError) -> RowsFault {
        RowsFault::Memory
    }
}

impl From<LoadFault> for RowsFault {
    ghost use Rattle.tip_listing.specs.Listing.{fault_of};

    ghost from_gives = { λ fault result. result ≡ fault_of fault };

    fn from(fault: LoadFault) -> RowsFault {
        match fault {
            LoadFault::Refused => RowsFault::Refused,
            LoadFault::BadRow => RowsFault::BadRow,
            LoadFault::Memory => RowsFault::Memory,
        }
    }
}

impl From<WriteFault> for RowsFault {
    ghost use Rattle.tip_listing.specs.declared.fault.RowsFault.TheVariants.{Write};

    ghost from_gives = { λ _ fault. fault ≡ Write };

    fn from(_: WriteFault) -> RowsFault {
        RowsFault::Write
    }
}

impl From<RowsFault> for Refusal {
    ghost use Rattle.tip_listing.specs.Listing.{refusal_of};

    ghost from_gives = { λ fault result. result ≡ refusal_of fault };

    fn from(fault: RowsFault) -> Refusal {
        match fault {
            RowsFault::Refused => Refusal::Refused,
            RowsFault::BadRow => Refusal::BadRow,
            RowsFault::Write => Refusal::WriteFault,
            RowsFault::Memory => Refusal::Memory,
        }
    }
}
