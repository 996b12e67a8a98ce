//! The limits of a realm, by their keys.
ghost use Rattle.std.specs.Prelude.{◌≡◌};
ghost use Rattle.tip_settings.specs.Limits.{alone, key_of};

use thiserror::Error;
use tip_machine::Limits;

/// A limit of a realm.
#[derive(Clone, Copy, Debug, PartialEq, Eq, Error)]
pub enum Limit {
    #[error("`connections` is not a whole number from 1 to 4096")]
    Connections,
    #[error("`transactions` is not a whole number from 1 to 4096")]
    Transactions,
    #[error("`boxes` is not a whole number from 0 to 4096")]
    Boxes,
    #[error("`entries` is not a whole number from 1 to 10000000")]
    Entries,
}

impl Limit {
    /// The key at which it stands.
    pub(crate) fn key(self) -> &'static str
        ensures { result.now ≡ key_of self }
    {
        match self {
            Limit::Connections => "connections",
            Limit::Transactions => "transactions",
            Limit::Boxes => "boxes",
            Limit::Entries => "entries",
        }
    }

    /// The least limits that a realm may have, but for this one: they are allowed where it is.
    pub(crate) fn alone(self, number: u32) -> Limits
        ensures { result ≡ alone self number }
    {
        let least = Limits {
            connections: 1,
            transactions: 1,
            boxes: 0,
            entries: 1,
        };
        match self {
            Limit::Connections => Limits {
                connections: number,
                ..least
            },
            Limit::Transactions => Limits {
                transactions: number,
                ..least
            },
            Limit::Boxes => Limits {
                boxes: number,
                ..least
            },
            Limit::Entries => Limits {
                entries: number,
                ..least
            },
        }
    }
}
