//! Why octets are no configuration.
use crate::limit::Limit;
use std::alloc::{AllocError, AllocFailed};
use thiserror::Error;

/// What is wanted of a realm's table, and is not so.
#[derive(Clone, Copy, Debug, Error)]
pub enum Wanted {
    #[error("`name` is not 1 to 16 letters from a to z")]
    Name,
    #[error("`listen` is not a text")]
    Listen,
    #[error("`address` is not 1 to 1024 octets from `!` to `~`, other than `-`")]
    Address,
    #[error("`control` is not a text")]
    Control,
    #[error("`votes` is not 1 to 8 letters of y, n, r and l")]
    Votes,
    #[error("`labels` is not a label for each branch, no two the same")]
    Labels,
    #[error(transparent)]
    Limit(Limit),
}

/// Why a table is no realm.
#[derive(Clone, Copy)]
pub(crate) enum RealmFault {
    Memory,
    Wrong(Wanted),
}

/// Why octets are no configuration: the first of what is wrong.
#[derive(Clone, Copy, Debug, Error)]
pub enum ConfigFault {
    #[error("out of memory")]
    Memory,
    /// The octets are no text in UTF-8, or no document of TOML.
    #[error("line {line}: not TOML")]
    Syntax {
        /// Lines count from 1.
        line: usize,
    },
    #[error("`store` is not a text")]
    Store,
    #[error("`realm` is not an array of tables, one or more")]
    Realms,
    #[error("realm {place}: {wanted}")]
    Realm {
        /// The realm's place among the realms, from 1.
        place: usize,
        wanted: Wanted,
    },
}

impl From<Limit> for RealmFault {
    ghost use Rattle.std.specs.Prelude.{◌≡◌};
    ghost use Rattle.tip_settings.specs.declared.fault.RealmFault.TheVariants.{Wrong};
    ghost use Rattle.tip_settings.specs.declared.fault.Wanted.TheVariants as wanted;

    ghost from_gives = { λ limit fault. fault ≡ Wrong (wanted.Limit limit) };

    fn from(limit: Limit) -> RealmFault {
        RealmFault::Wrong(Wanted::Limit(limit))
    }
}

impl From<AllocError> for RealmFault {
    ghost use Rattle.std.specs.Prelude.{◌≡◌};
    ghost use Rattle.tip_settings.specs.declared.fault.RealmFault.TheVariants.{Memory};

    ghost from_gives = { λ _ fault. fault ≡ Memory };

    fn from(_: AllocError) -> RealmFault {
        RealmFault::Memory
    }
}

impl<T: Drop> From<AllocFailed<T>> for RealmFault {
    ghost use Rattle.std.specs.Prelude.{◌≡◌};
    ghost use Rattle.tip_settings.specs.declared.fault.RealmFault.TheVariants.{Memory};

    ghost from_gives = { λ _ fault. fault ≡ Memory };

    fn from(_: AllocFailed<T>) -> RealmFault {
        RealmFault::Memory
    }
}

impl From<AllocError> for ConfigFault {
    ghost use Rattle.std.specs.Prelude.{◌≡◌};
    ghost use Rattle.tip_settings.specs.declared.fault.ConfigFault.TheVariants.{Memory};

    ghost from_gives = { λ _ fault. fault ≡ Memory };

    fn from(_: AllocError) -> ConfigFault {
        ConfigFault::Memory
    }
}

impl<T: Drop> From<AllocFailed<T>> for ConfigFault {
    ghost use Rattle.std.specs.Prelude.{◌≡◌};
    ghost use Rattle.tip_settings.specs.declared.fault.ConfigFault.TheVariants.{Memory};

    ghost from_gives = { λ _ fault. fault ≡ Memory };

    fn from(_: AllocFailed<T>) -> ConfigFault {
        ConfigFault::Memory
    }
}
