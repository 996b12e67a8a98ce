//! Every refusal of the transaction manager, with the number by which it is reported.
ghost use Rattle.std.specs.Prelude.{◌≡◌};
ghost use Rattle.tip_line.specs.Refusal.{entry_of, number_of};

use crate::fault::{ParseFault, WordFault};
use crate::lines::Cause;
use std::alloc::AllocError;
use std::fmt;

/// Why something was refused. `Display` gives the number and the name, as `21 Full`.
#[derive(Clone, Copy, PartialEq, Eq)]
pub enum Refusal {
    Memory = 1,
    TooLong = 2,
    Octet = 3,
    Unknown = 4,
    Missing = 5,
    Number = 6,
    NotWord = 7,
    BadRow = 10,
    Refused = 11,
    BadSchema = 12,
    Twice = 13,
    NotActive = 14,
    EpochEnd = 15,
    NotFresh = 16,
    NotReady = 17,
    NoRealm = 20,
    Full = 21,
    Stale = 22,
    Busy = 23,
    Frozen = 24,
    Stranger = 25,
    Known = 26,
    NotInDoubt = 30,
    WrongCount = 31,
    Unadopted = 32,
    Stopped = 33,
    PassMismatch = 34,
    BadRealm = 35,
    BadLabel = 36,
    ReadFault = 40,
    WriteFault = 41,
    TurnLimit = 42,
    HostStopped = 43,
    Unexpected = 50,
    Closed = 51,
    Script = 60,
    Config = 61,
    Store = 62,
    Listen = 63,
}

impl Refusal {
    /// The number by which it is reported.
    pub fn number(self) -> u32
        ensures { result ≡ number_of self }
    {
        self as u32
    }

    fn name(self) -> &'static str
        ensures { result.now ≡ (entry_of self).1 }
    {
        match self {
            Refusal::Memory => "Memory",
            Refusal::TooLong => "TooLong",
            Refusal::Octet => "Octet",
            Refusal::Unknown => "Unknown",
            Refusal::Missing => "Missing",
            Refusal::Number => "Number",
            Refusal::NotWord => "NotWord",
            Refusal::BadRow => "BadRow",
            Refusal::Refused => "Refused",
            Refusal::BadSchema => "BadSchema",
            Refusal::Twice => "Twice",
            Refusal::NotActive => "NotActive",
            Refusal::EpochEnd => "EpochEnd",
            Refusal::NotFresh => "NotFresh",
            Refusal::NotReady => "NotReady",
            Refusal::NoRealm => "NoRealm",
            Refusal::Full => "Full",
            Refusal::Stale => "Stale",
            Refusal::Busy => "Busy",
            Refusal::Frozen => "Frozen",
            Refusal::Stranger => "Stranger",
            Refusal::Known => "Known",
            Refusal::NotInDoubt => "NotInDoubt",
            Refusal::WrongCount => "WrongCount",
            Refusal::Unadopted => "Unadopted",
            Refusal::Stopped => "Stopped",
            Refusal::PassMismatch => "PassMismatch",
            Refusal::BadRealm => "BadRealm",
            Refusal::BadLabel => "BadLabel",
            Refusal::ReadFault => "ReadFault",
            Refusal::WriteFault => "WriteFault",
            Refusal::TurnLimit => "TurnLimit",
            Refusal::HostStopped => "HostStopped",
            Refusal::Unexpected => "Unexpected",
            Refusal::Closed => "Closed",
            Refusal::Script => "Script",
            Refusal::Config => "Config",
            Refusal::Store => "Store",
            Refusal::Listen => "Listen",
        }
    }
}

impl fmt::Display for Refusal {
    ghost use Rattle.std.specs.Prelude.{Some};
    ghost use Rattle.tip_line.specs.Refusal.{printed};

    ghost output = { λ r. Some (printed r) };

    fn fmt<W: fmt::Write>(&self, f: &mut fmt::Formatter<W>) -> fmt::Result {
        let (number, name) = (self.number(), self.name());
        write!(f, "{number} {name}")
    }
}

impl From<AllocError> for Refusal {
    ghost use Rattle.std.specs.Prelude.{◌≡◌};
    ghost use Rattle.tip_line.specs.declared.refusal.Refusal.TheVariants.{Memory};

    ghost from_gives = { λ _ r. r ≡ Memory };

    fn from(_: AllocError) -> Refusal {
        Refusal::Memory
    }
}

impl From<Cause> for Refusal {
    ghost use Rattle.std.specs.Prelude.{◌≡◌};
    ghost use Rattle.tip_line.specs.Refusal.{of_cause};

    ghost from_gives = { λ cause r. r ≡ of_cause cause };

    fn from(cause: Cause) -> Refusal {
        match cause {
            Cause::TooLong => Refusal::TooLong,
            Cause::Octet => Refusal::Octet,
        }
    }
}

impl From<WordFault> for Refusal {
    ghost use Rattle.std.specs.Prelude.{◌≡◌};
    ghost use Rattle.tip_line.specs.Refusal.{of_word_fault};

    ghost from_gives = { λ fault r. r ≡ of_word_fault fault };

    fn from(fault: WordFault) -> Refusal {
        match fault {
            WordFault::NotWord => Refusal::NotWord,
            WordFault::Memory => Refusal::Memory,
        }
    }
}

impl From<ParseFault> for Refusal {
    ghost use Rattle.std.specs.Prelude.{◌≡◌};
    ghost use Rattle.tip_line.specs.Refusal.{of_parse_fault};

    ghost from_gives = { λ fault r. r ≡ of_parse_fault fault };

    fn from(fault: ParseFault) -> Refusal {
        match fault {
            ParseFault::Octet => Refusal::Octet,
            ParseFault::TooLong => Refusal::TooLong,
            ParseFault::Unknown => Refusal::Unknown,
            ParseFault::Missing => Refusal::Missing,
            ParseFault::Number => Refusal::Number,
            ParseFault::Memory => Refusal::Memory,
        }
    }
}
