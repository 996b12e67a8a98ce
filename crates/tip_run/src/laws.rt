//! Laws of a host that begins over a store, each carried by a function that does nothing.
ghost use Rattle.std.specs.Prelude.{◌≡◌, ℕ, None, Some, true, List, slice_get};
ghost use Rattle.tip_branch.specs.declared.branch.Badge.{Badge};
ghost use Rattle.tip_host.specs.Hosts.{Host};
ghost use Rattle.tip_recovery.specs.Adopting.{Unfinished, adopted_all, adopting, are_for_all, is_named, refusal_of};
ghost use Rattle.tip_rows.specs.Keys.{Key};
ghost use Rattle.tip_rows.specs.Logs.{IsPart, Log};
ghost use Rattle.tip_rows.specs.declared.row.Row.{Row};
ghost use Rattle.tip_stored.specs.declared.realm_spec.RealmSpec.{RealmSpec};
ghost use Rattle.tip_table.specs.Lists.{changed};
ghost use Rattle.tip_run.specs.Giving.{AreGiven};
ghost use Rattle.tip_run.specs.Starts.{HasStarted, IsBegun};

use tip_rows::RowLog;

/// A host that begins over a store has each of its realms where a run of its machine may begin: in the epoch after the stored one,
/// with the stored rows, where these are as tipd writes them; and its journal begins with them.
pub fn a_host_that_begins_has_each_realm_at_its_start<S: RowLog>()
    ensures { (specs : List RealmSpec) (store : S) (new : Host S) (log : Log) (place : ℕ)
        (spec : RealmSpec) (epoch : ℕ) (rows : List (Key × Row)) →
        IsBegun S.keeping specs store new →
        S.keeping.is_true new.stored.store → S.keeping.stands store log →
        slice_get specs place ≡ Some spec →
        IsPart log spec.name epoch rows → HasStarted S.keeping spec epoch rows new place }
{}

/// Adoption, of one row or of all, leaves each row as it was read, with no boxes or one for each of its branches.
pub fn boxes_are_given_one_for_each_branch()
    ensures one { (id : List ℕ) (boxes : List Badge) (read rows : List Unfinished) →
        AreGiven read rows → refusal_of id boxes rows ≡ None →
        AreGiven read (changed (is_named id) (adopting boxes) rows) }
    ensures all { (lots : List (List Badge)) (read rows : List Unfinished) → AreGiven read rows →
        are_for_all lots rows ≡ true → AreGiven read (adopted_all lots rows) }
{}
