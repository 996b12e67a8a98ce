//! Laws of a realm's runs, each carried by a function that does nothing.
ghost use Rattle.std.specs.Prelude.{◌≡◌, ◌<◌, ◌||◌, not, ℕ, ◌++◌, List, [], Some, filter, is_none, is_some, true};
ghost use Rattle.tip_branch.specs.declared.branch.Badge.{Badge};
ghost use Rattle.tip_rows.specs.Keys.{Key};
ghost use Rattle.tip_rows.specs.Logs.{row_at};
ghost use Rattle.tip_txn.specs.declared.answer.Phase.TheVariants.{Committed};
ghost use Rattle.tip_machine.specs.Agreement.Traces.{at_each, shown_in, traced};
ghost use Rattle.tip_machine.specs.Agreement.{IsAgreed, is_asked, is_backed, is_denied, is_kept, is_made_in, is_one, row_in, was_committed, were_willing};
ghost use Rattle.tip_machine.specs.Answers.{identifier};
ghost use Rattle.tip_machine.specs.Given.{are_numbered};
ghost use Rattle.tip_machine.specs.Honest.{can_start, is_honest, is_run};
ghost use Rattle.tip_machine.specs.Invariants.Bounds.{is_spelled};
ghost use Rattle.tip_machine.specs.Invariants.{IsSound, are_keyed};
ghost use Rattle.tip_machine.specs.Moves.{Move, World, led_to, moved};
ghost use Rattle.tip_machine.specs.Outputs.{Output};
ghost use Rattle.tip_machine.specs.Starting.{IsStart, are_adopted, is_starting};
ghost use Rattle.tip_machine.specs.States.{State, transaction_of};
ghost use Rattle.tip_machine.specs.Steps.{step};
ghost use Rattle.tip_machine.specs.Types.{Event, Transaction};
ghost use Rattle.tip_machine.specs.declared.event.Outcome.{Outcome};
ghost use Rattle.tip_machine.specs.declared.head.Head.{Head};
ghost use Rattle.tip_agreement.specs.Successors.{GoesOver, declaration_of, started_over};
ghost use Rattle.tip_agreement.specs.Telling.{is_told_of};
ghost use Rattle.tip_agreement.specs.Truth.{IsTrueTo, has_committed_row};

/// The invariants hold where a run begins.
pub fn a_start_has_the_invariants()
    ensures { (world : World) → IsStart world → IsSound world }
{}

/// Each move of an honest run keeps the invariants: an event and whatever becomes of its change, any party that
/// is out, which comes back as its branches can answer or is lost, a restart of the process and a renewal of the realm.
pub fn each_move_keeps_the_invariants()
    ensures { (move : Move) (world : World) → IsSound world → is_honest move world ≡ true →
        IsSound (moved move world).world }
{}

/// So the invariants hold wherever an honest run leads, from a world that has them and from a start.
pub fn a_run_keeps_the_invariants()
    ensures kept { (world : World) (moves : List Move) → IsSound world → is_run world moves ≡ true →
        IsSound (led_to world moves) }
    ensures reached { (world : World) (moves : List Move) → IsStart world →
        is_run world moves ≡ true → IsSound (led_to world moves) }
{}

/// Whatever happens, the numbers of connections rise, and keys of transactions stay apart, each of them given.
pub fn numbers_and_keys_are_kept()
    ensures { (state : State) (event : Event) (outcome : Outcome) → are_numbered state ≡ true →
        are_keyed state ≡ true → (are_numbered (step state event outcome).state ≡ true)
        × (are_keyed (step state event outcome).state ≡ true) }
{}

/// A realm that starts is true to its word: it has given none.
pub fn a_start_is_true_to_its_word()
    ensures { (world : World) → IsStart world → IsTrueTo [] world }
{}

/// Each move of an honest run leaves a realm true to its word: what the branches of each transaction were told
/// so far, and what a party that is out will tell them, fits what has become of the transaction.
pub fn each_move_leaves_a_realm_true_to_its_word()
    ensures { (move : Move) (world : World) (shown : List Output) → IsSound world →
        IsTrueTo shown world → is_honest move world ≡ true →
        IsTrueTo (shown ++ (moved move world).shown) (moved move world).world }
{}

/// So agreement, the first of its sentences: in an honest run from a start no branch of a transaction is told to commit where a
/// branch is told to abort, whatever the store answers and other managers say, over restarts and renewals,
/// lost parties and lost connections.
pub fn no_branch_commits_where_one_aborts()
    ensures { (world : World) (moves : List Move) (id : List ℕ) → IsStart world →
        is_run world moves ≡ true → is_one world.state.head.name id (traced world moves) ≡ true }
{}

/// A committed row stands, and a transaction is committed, only where that row was stored in the run, or stood at its start.
pub fn a_committed_row_was_stored()
    ensures row { (world : World) (moves : List Move) (key : Key) → IsStart world →
        is_run world moves ≡ true → is_spelled key ≡ true →
        has_committed_row key (led_to world moves) ≡ true →
        was_committed world.state.head.name (identifier world.state.head.name key) world
        (shown_in (traced world moves)) ≡ true }
    ensures phase { (world : World) (moves : List Move) (key : Key) (transaction : Transaction) →
        IsStart world → is_run world moves ≡ true → is_spelled key ≡ true →
        transaction_of key (led_to world moves).state ≡ Some transaction →
        transaction.phase ≡ Committed → was_committed world.state.head.name
        (identifier world.state.head.name key) world (shown_in (traced world moves)) ≡ true }
{}

/// So agreement, the second of its sentences: in an honest run from a start a branch of a transaction is told to commit only once
/// the committed row of the transaction was stored, in this event or before, or where that row stood at the start.
pub fn a_commit_is_told_once_its_row_was_stored()
    ensures { (world : World) (moves : List Move) (id : List ℕ) → IsStart world →
        is_run world moves ≡ true →
        at_each (is_backed world.state.head.name id world) (traced world moves) ≡ true }
{}

/// What has a row, in doubt or committed, is not denied: in an honest run from a start a QUERY for its identifier is never answered
/// QUERIEDNOTFOUND.
pub fn what_has_a_row_is_not_denied()
    ensures { (world : World) (moves : List Move) (id : List ℕ) → IsStart world →
        is_run world moves ≡ true → at_each (λ before moment. not
        (is_denied world.state.head.name id moment)
        || is_none (row_in world.state.head.name id moment.world.rows)) (traced world moves)
        ≡ true }
{}

/// So agreement, the third of its sentences: in an honest run from a start a committed row is removed only where, in that start, each
/// subordinate in it has acknowledged and each branch in it has answered `commit` with Done; and what was committed is answered
/// QUERIEDNOTFOUND only where its row is gone.
pub fn a_committed_row_is_kept_until_all_have_done()
    ensures { (world : World) (moves : List Move) (id : List ℕ) → IsStart world →
        is_run world moves ≡ true →
        at_each (is_kept world.state.head.name id world) (traced world moves) ≡ true }
{}

/// So agreement, the fourth of its sentences: in an honest run from a start, of a transaction that was made in the run, a branch is
/// told to commit only where, in the start in which it was made, each branch of the realm had voted yes or read-only, and each part
/// had answered, none with no and none lost.
pub fn a_commit_is_told_where_all_were_willing()
    ensures { (world : World) (moves : List Move) (id : List ℕ) → IsStart world →
        is_run world moves ≡ true →
        at_each (is_asked world.state.head.name id world) (traced world moves) ≡ true }
{}

/// What has a row when an honest run is over had it when the run began, or was asked in it: in the start in which it was made each
/// branch of the realm had voted yes or read-only, and each part had answered, none with no and none was lost.
pub fn what_has_a_row_was_asked()
    ensures { (world : World) (moves : List Move) (key : Key) → IsStart world →
        is_run world moves ≡ true → is_spelled key ≡ true → is_some (row_at key (led_to world moves).rows) ≡ true →
        let id = identifier world.state.head.name key in
        is_some (row_in world.state.head.name id world.rows) || were_willing world.state.head.name id
        (filter (is_made_in world.state.head.name id) (traced world moves)) world.state.head.branches ≡ true }
{}

/// AGREEMENT, all four of its sentences: in an honest run from a start no transaction is half committed, whatever
/// the store answers and other managers say, over restarts and renewals, lost parties and lost connections.
pub fn a_run_is_agreed()
    ensures { (world : World) (moves : List Move) (id : List ℕ) → IsStart world →
        is_run world moves ≡ true → IsAgreed world (traced world moves) id }
{}

/// AGREEMENT across realms: of an identifier one realm alone tells its branches, so what all realms tell of it is what that realm
/// tells.
pub fn one_realm_tells_of_an_identifier()
    ensures { (one other : World) (moves others : List Move) (id : List ℕ) → IsStart one →
        is_run one moves ≡ true → IsStart other → is_run other others ≡ true →
        is_told_of id one moves ≡ true → is_told_of id other others ≡ true →
        one.state.head.name ≡ other.state.head.name }
{}

/// A run keeps the realm's declaration.
pub fn a_run_keeps_the_declaration()
    ensures { (world : World) (moves : List Move) →
        declaration_of (led_to world moves).state.head ≡ declaration_of world.state.head }
{}

/// ACROSS PROCESSES: an honest run goes on in the next process, where it starts the realm from the rows that were left, declared as
/// before. So what both processes tell is told in one run, which began with the first.
pub fn a_run_goes_on_in_the_next_process()
    ensures { (start : World) (moves : List Move) (boxes : Key → List Badge) →
        is_run start moves ≡ true → can_start boxes (led_to start moves) ≡ true →
        GoesOver start moves boxes }
{}

/// The rows that an honest run leaves are rows that a run may begin with, in any later epoch and however the realm is declared then:
/// by rising key, of earlier epochs, and no two in doubt of one transaction of one superior.
pub fn what_a_run_leaves_may_begin_a_run()
    ensures { (start : World) (moves : List Move) (head : Head) (boxes : Key → List Badge) →
        IsStart start → is_run start moves ≡ true → is_starting head ≡ true →
        (led_to start moves).state.head.epoch < head.epoch →
        are_adopted boxes (led_to start moves).rows ≡ true →
        IsStart (started_over head boxes (led_to start moves)) }
{}
