//! Who can ask a store to refuse the next change of a realm.
ghost use Rattle.std.specs.Prelude.{◌≡◌, Bool, List, ℕ, true, is_some, if◌then◌else◌};
ghost use Rattle.std.specs.Str.{bytes_eq};
ghost use Rattle.tip_rows.specs.Logs.{Log};

use tip_line::Realm;
use tip_rows::{MemRows, RowLog};

/// Who asks a store of this kind to refuse the next change of a realm, if anybody can.
pub trait Refuser<S: RowLog> {
    /// Whether it can.
    ghost may: { Bool };

    fn may_refuse(&self) -> bool
        ensures { result ≡ may };

    /// The next change of this realm is to be refused.
    fn refuse_next(&self, store: &mut S, realm: &Realm)
        ensures stands { may ≡ true → (log : Log) → S.keeping.stands store.old log →
            S.keeping.stands store.new log }
        ensures due { may ≡ true → (log : Log) → S.keeping.stands store.old log → (r : List ℕ) →
            S.keeping.is_due store.new r
            ≡ (if bytes_eq realm.now r then is_some (log.epochs r) else S.keeping.is_due store.old
            r) }
        ensures truth { S.keeping.is_true store.new → S.keeping.is_true store.old };
}

/// A script asks rows in memory to refuse.
#[derive(Clone, Copy)]
pub struct ByScript;

impl Refuser<MemRows> for ByScript {
    ghost use Rattle.std.specs.Prelude.{true};

    ghost may = { true };

    fn may_refuse(&self) -> bool {
        true
    }

    fn refuse_next(&self, store: &mut MemRows, realm: &Realm) {
        store.refuse_next(realm);
    }
}

/// A store refuses of itself alone.
#[derive(Clone, Copy)]
pub struct ByItself;

impl<S: RowLog> Refuser<S> for ByItself {
    ghost use Rattle.std.specs.Prelude.{false};

    ghost may = { false };

    fn may_refuse(&self) -> bool {
        false
    }

    fn refuse_next(&self, _store: &mut S, _realm: &Realm) {}
}
