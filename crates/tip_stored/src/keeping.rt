//! The rows in the store.
ghost use Rattle.std.specs.Prelude.{◌≡◌, true, Some, option_map};
ghost use Rattle.tip_machine.specs.Steps.{fits};
ghost use Rattle.tip_stored.specs.Keeping.{Keeps};

use tip_line::Realm;
use tip_machine::{Change, Outcome};
use tip_rows::{Refused, RowLog};

/// Asks the store for the change of a realm's rows, if one is wanted. What became of it is what the store says.
pub fn keep<S: RowLog>(store: &mut S, realm: &Realm, change: Option<&Change>) -> Outcome
    ensures keeps { Keeps S.keeping realm.now
        (option_map (λ c. c.now) change.entry) result store.old store.new }
    ensures fits { fits (option_map (λ c. c.now) change.entry) result ≡ true }
{
    match change {
        Some(change) => make(store, realm, change),
        None => Outcome::NoChange,
    }
}

/// Asks the store for one change.
fn make<S: RowLog>(store: &mut S, realm: &Realm, change: &Change) -> Outcome
    ensures keeps { Keeps S.keeping realm.now
        (Some change.now) result store.old store.new }
    ensures fits { fits (Some change.now) result ≡ true }
{
    let done = match change {
        Change::Put { key, row } => store.put(realm, *key, row),
        Change::Remove { key } => store.remove(realm, *key),
    };
    match done {
        Ok(()) => Outcome::Stored,
        Err(Refused) => Outcome::Refused,
    }
}
