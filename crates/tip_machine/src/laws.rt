//! Laws of the machine, each carried by a function that does nothing.
ghost use Rattle.std.specs.Prelude.{◌≡◌, ◌≤◌, ◌<◌, [], ℕ, List, Option, IsSome, Some, None, map, true, false};
ghost use Rattle.std.specs.List.{All};
ghost use Rattle.tip_branch.specs.Notes.{ComesBack, PartyNotes};
ghost use Rattle.tip_txn.specs.Decisions.{Decides};
ghost use Rattle.tip_txn.specs.Parts.{answers_of};
ghost use Rattle.tip_txn.specs.declared.part.Participant.{Participant};
ghost use Rattle.tip_line.specs.Ids.{IsGiven};
ghost use Rattle.tip_line.specs.declared.command.CommandName.TheVariants as command;
ghost use Rattle.tip_rows.specs.Keys.{Key};
ghost use Rattle.tip_machine.specs.Changes.{refuse, reply};
ghost use Rattle.tip_machine.specs.Commands.{pull, query, reconnect};
ghost use Rattle.tip_machine.specs.Counts.{HasCounts};
ghost use Rattle.tip_machine.specs.Failing.{closed};
ghost use Rattle.tip_machine.specs.Given.{are_numbered, was_given};
ghost use Rattle.tip_machine.specs.Moves.{Move, World, fresh, led_to};
ghost use Rattle.tip_machine.specs.Order.{IsAmong, concerned};
ghost use Rattle.tip_machine.specs.Requests.{push_part, resume};
ghost use Rattle.tip_machine.specs.Responses.{pursue};
ghost use Rattle.tip_machine.specs.Returns.{Back, back_of, can_answer, is_done};
ghost use Rattle.tip_machine.specs.Starting.{IsStart, is_starting};
ghost use Rattle.tip_machine.specs.States.{State, Work, connection_of, identified_by, started, transaction_of};
ghost use Rattle.tip_machine.specs.Steps.{attempt, chosen, entered, step, wants, ChangesTheEntriesAlone, IsForgotten, IsNext, IsOfKey, SendsOne, TellsOfOne, TouchesOne};
ghost use Rattle.tip_machine.specs.Transactions.{decision};
ghost use Rattle.tip_machine.specs.Types.{Connection, Event};
ghost use Rattle.tip_machine.specs.declared.answer.Said.TheVariants as said;
ghost use Rattle.tip_line.specs.declared.refusal.Refusal.TheVariants.{NotActive};
ghost use Rattle.tip_machine.specs.declared.answer.Sent.{Sent};
ghost use Rattle.tip_machine.specs.declared.connection.Purpose.TheVariants as purpose;
ghost use Rattle.tip_machine.specs.declared.event.Outcome.{Outcome};
ghost use Rattle.tip_machine.specs.declared.event.Seat.{Seat};
ghost use Rattle.tip_machine.specs.declared.head.Head.{Head};

/// What is refused has not happened: at most the journal has an entry more, nothing is told, no party goes out, and no change is
/// wanted.
#[tactic(auto, using(crate::proofs::Stepping::quiet, crate::proofs::Stepping::silent, crate::proofs::Stepping::wants_none))]
pub fn a_refusal_changes_the_entries_alone()
    ensures state { (state : State) (event : Event) (outcome : Outcome) →
        IsSome (step state event outcome).answer.refusal →
        ChangesTheEntriesAlone state (step state event outcome).state }
    ensures silent { (state : State) (event : Event) (outcome : Outcome) →
        IsSome (step state event outcome).answer.refusal →
        ((step state event outcome).answer.sent ≡ [])
        × ((step state event outcome).answer.work ≡ None) }
    ensures unwanted { (state : State) (event : Event) (outcome : Outcome) →
        IsSome (step state event outcome).answer.refusal → wants state event ≡ None }
{}

/// A new connection has the next number of its start, the count of numbers never falls, and numbers rise in the order made.
#[tactic(auto, using(crate::proofs::Stepping::numbered, crate::proofs::Stepping::rising))]
pub fn numbers_of_connections_rise()
    ensures numbered { (state : State) (event : Event) (outcome : Outcome) (seat : Seat) →
        (step state event outcome).answer.opened ≡ Some seat →
        IsNext state seat × ((step state event outcome).state.head.given ≡ seat.number) }
    ensures rising { (state : State) (event : Event) (outcome : Outcome) →
        state.head.given ≤ (step state event outcome).state.head.given }
    ensures none { (state : State) → state.connections ≡ [] → are_numbered state ≡ true }
    ensures stays { (state : State) (event : Event) (outcome : Outcome) →
        are_numbered state ≡ true → are_numbered (step state event outcome).state ≡ true }
{}

/// A realm's counts stay below its entries: an event takes one, gives at most one connection, and makes at most one transaction.
/// So once an event has its entry, no more transactions were made on any connection than there were entries before.
#[tactic(auto, using(crate::proofs::Counting::counts_start, crate::proofs::Counting::counts_stay, crate::proofs::Counting::entered_below))]
pub fn counts_stay_below_the_entries()
    ensures start { (head : Head) → 0 < head.epoch → head.given ≤ head.entries →
        HasCounts (started head) }
    ensures stays { (state : State) (event : Event) (outcome : Outcome) → HasCounts state →
        HasCounts (step state event outcome).state }
    ensures entered { (number : ℕ) (state : State) (connection : Connection) → HasCounts state →
        connection_of number (entered state).state ≡ Some connection →
        (connection.made < (entered state).state.head.entries) × (0 < connection.number) }
{}

/// A step changes at most one transaction, and only connections that are on it, the one that its event names, and a new one;
/// only these are told anything; what they are told, the party that goes out or is let go, and the row that is stored or
/// removed are of that transaction.
#[tactic(auto, using(crate::proofs::Others::touches))]
pub fn at_most_one_transaction_changes()
    ensures { (state : State) (event : Event) (outcome : Outcome) →
        (key : Key) × TouchesOne key event state (step state event outcome).state
        × TellsOfOne key event state (step state event outcome).answer.sent
        × SendsOne key state (step state event outcome).answer
        × IsOfKey key (wants state event) outcome }
{}

/// Of the connections that are on a transaction, as they were when the event came, it tells those alone that are on one that it
/// concerns. So nobody else's turn needs to be known.
#[tactic(auto, using(crate::proofs::Concerning::tells_those))]
pub fn an_event_tells_those_whom_it_concerns()
    ensures { (state : State) (event : Event) (outcome : Outcome) → are_numbered state ≡ true →
        All (λ (sent : Sent). IsAmong (concerned state event) state sent.connection)
        (chosen (attempt event (entered state)) outcome).answer.sent }
{}

/// An identifier is never made twice: a new transaction has a key that was not given before, that is given then, and that
/// stays so wherever moves lead, over restarts and renewals too, and in each state of a later epoch.
#[tactic(auto, using(crate::proofs::Identifiers::new_was_not_given, crate::proofs::Identifiers::new_is_given, crate::proofs::Identifiers::given_later, crate::proofs::Making::led_given))]
pub fn an_identifier_is_never_made_twice()
    ensures new { (state : State) (event : Event) (outcome : Outcome) (key : Key) →
        transaction_of key state ≡ None →
        IsSome (transaction_of key (step state event outcome).state) → was_given state key ≡ false }
    ensures given { (state : State) (event : Event) (outcome : Outcome) (key : Key) →
        are_numbered state ≡ true → transaction_of key state ≡ None →
        IsSome (transaction_of key (step state event outcome).state) →
        was_given (step state event outcome).state key ≡ true }
    ensures stays { (world : World) (moves : List Move) (key : Key) →
        was_given world.state key ≡ true → was_given (led_to world moves).state key ≡ true }
    ensures later { (old new : State) (key : Key) → old.head.epoch < new.head.epoch →
        was_given old key ≡ true → was_given new key ≡ true }
{}

/// The decision that the machine computes is the decision of two-phase commit over the set of answers.
#[tactic(auto, using(crate::proofs::Deciding::decides))]
pub fn the_decision_is_that_of_two_phase_commit()
    ensures { (parts : List Participant) →
        Decides (answers_of parts) (decision (map (λ part. part.answer) parts)) }
{}

/// An identifier that a realm gives is of one realm and of one transaction there: no two spell the same.
pub fn an_identifier_is_of_one_realm_and_transaction()
    ensures { (text this that : List ℕ) (epoch connection number epoch' connection' number' : ℕ) →
        IsGiven text this epoch connection number → IsGiven text that epoch' connection' number' →
        (this ≡ that) × (epoch ≡ epoch') × (connection ≡ connection') × (number ≡ number') }
{}

/// A party that is computed from what its branches answer comes back as its errand leaves it.
#[tactic(auto, using(crate::proofs::Returning::comes_back))]
pub fn a_party_comes_back_as_its_errand_leaves_it()
    ensures { (party : PartyNotes) (back : Back) → All (λ m. m.call ≡ None) party.members →
        can_answer party.errand back party.members ≡ true → is_done back ≡ true →
        ComesBack party (back_of party back) }
{}

/// A transaction that is aborted is answered as one that never was: presumed abort.
#[tactic(auto, using(crate::proofs::Forgotten::queried, crate::proofs::Forgotten::pulled, crate::proofs::Forgotten::reconnected, crate::proofs::Forgotten::pushed, crate::proofs::Forgotten::resumed, crate::proofs::Forgotten::dialled_to_ask, crate::proofs::Forgotten::dialled_to_reconnect))]
pub fn an_aborted_transaction_is_as_one_that_never_was()
    ensures query { (id : List ℕ) (connection : Connection) (work : Work) →
        IsForgotten id work.state →
        query id connection work ≡ reply connection.number command.Query said.QueriedNotFound work }
    ensures pull { (id subordinate : List ℕ) (connection : Connection) (work : Work) →
        IsForgotten id work.state → pull id subordinate connection work
        ≡ reply connection.number command.Pull said.NotPulled work }
    ensures reconnect { (id : List ℕ) (connection : Connection) (work : Work) →
        IsForgotten id work.state → reconnect id connection work
        ≡ reply connection.number command.Reconnect said.NotReconnected work }
    ensures push { (id : List ℕ) (peer : Option (List ℕ)) (number : ℕ) (work : Work) →
        IsForgotten id work.state →
        push_part (identified_by id work.state) peer number work ≡ refuse NotActive work }
    ensures resume { (id : List ℕ) (work : Work) → IsForgotten id work.state →
        resume (identified_by id work.state) work ≡ resume None work }
    ensures dial_to_query { (id : List ℕ) (connection : Connection) (work : Work) →
        IsForgotten id work.state →
        pursue (purpose.Query id) connection work ≡ closed connection work }
    ensures dial_to_reconnect { (id : List ℕ) (place : ℕ) (connection : Connection) (work : Work) →
        IsForgotten id work.state →
        pursue (purpose.Reconnect id place) connection work ≡ closed connection work }
{}

/// A realm that has stored nothing starts, whatever it declares that it may.
#[tactic(auto, using(crate::proofs::Begun::fresh_starts))]
pub fn a_realm_without_rows_starts()
    ensures { (head : Head) → is_starting head ≡ true → IsStart (fresh head) }
{}
