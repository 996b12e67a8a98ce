//! What is wrong with a realm of a store.
ghost use Rattle.std.specs.Prelude.{◌≡◌, Some, string_bytes};
ghost use Rattle.sqlite.specs.declared.types.Value.TheVariants.{Int};
ghost use Rattle.tip_sql.specs.Reading.{number_in};
ghost use Rattle.tip_checking.specs.Findings.{wrong_epoch, wrong_realm};

use crate::contents::Known;
use thiserror::Error;
use tip_line::is_realm;

/// Why a realm keeps its store from starting.
#[derive(Clone, Copy, Debug, PartialEq, Eq, Error)]
pub enum WrongRealm {
    #[error("its name is not 1 to 16 letters from a to z")]
    Name,
    #[error("its epoch is not 0 to 4294967295")]
    Epoch,
    #[error("it has had its last epoch, 4294967295")]
    LastEpoch,
}

/// What is wrong with a realm; None where nothing is.
pub fn wrong_realm(realm: &Known) -> Option<WrongRealm>
    ensures { result ≡ wrong_realm realm.now }
{
    if !is_realm(realm.name.as_bytes()) {
        return Some(WrongRealm::Name);
    }
    wrong_epoch(number_in(realm.epoch))
}

/// What is wrong with the epoch of a realm that is to rise.
fn wrong_epoch(epoch: Option<u32>) -> Option<WrongRealm>
    ensures { result ≡ wrong_epoch epoch }
{
    match epoch {
        None => Some(WrongRealm::Epoch),
        Some(u32::MAX) => Some(WrongRealm::LastEpoch),
        Some(_) => None,
    }
}

/// A number of a table, if it has 32 bits.
pub(crate) fn number_in(number: i64) -> Option<u32>
    ensures { result ≡ number_in (Int number) }
{
    u32::try_from(number).ok()
}
