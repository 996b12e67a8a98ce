//! Why a text is refused, and the numbers of all refusals.
use thiserror::Error;

/// Why octets are no word.
#[derive(Clone, Copy, Debug, PartialEq, Eq, Error)]
pub enum WordFault {
    #[error("no word of the kind that is asked for")]
    NotWord,
    #[error("out of memory")]
    Memory,
}

/// Why a text is no command, or no response, in the order in which this is found.
#[derive(Clone, Copy, Debug, PartialEq, Eq, Error)]
pub enum ParseFault {
    #[error("an octet that no line may have")]
    Octet,
    #[error("a word of more than 1,024 octets")]
    TooLong,
    #[error("no name that is known")]
    Unknown,
    #[error("too few words")]
    Missing,
    #[error("a version that is no number of 1 to 9 digits")]
    Number,
    #[error("out of memory")]
    Memory,
}
