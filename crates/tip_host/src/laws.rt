//! Laws of a host, each carried by a function that does nothing.
ghost use Rattle.std.specs.Prelude.{List, Option};
ghost use Rattle.tip_branch.specs.Notes.{PartyNotes};
ghost use Rattle.tip_honest.specs.Honesty.{Journal};
ghost use Rattle.tip_honest.specs.Hosts.{HasHonestRun};
ghost use Rattle.tip_journal.specs.Retiring.{none_retired};
ghost use Rattle.tip_machine.specs.States.{State};
ghost use Rattle.tip_rows.specs.Keys.{Key};
ghost use Rattle.tip_rows.specs.declared.row.Row.{Row};
ghost use Rattle.tip_host.specs.Books.{HasRunBehind};

/// Where no journal of a realm was let go, those that are kept are all that its honest run leaves.
pub fn what_was_never_let_go_is_kept()
    ensures { (state : Option State) (out : List PartyNotes) (rows : List (Key × Row))
        (kept : Option (List Journal)) → HasRunBehind none_retired state out rows kept →
        HasHonestRun state out rows kept }
{}
