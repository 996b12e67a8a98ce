//! Laws of a realm's journals, each carried by a function that does nothing.
ghost use Rattle.std.specs.Prelude.{◌≡◌, ◌++◌, ◌∷◌, [], ℕ, true, List};
ghost use Rattle.tip_branch.specs.Notes.{PartyNotes};
ghost use Rattle.tip_branch.specs.declared.branch.Badge.{Badge};
ghost use Rattle.tip_journal.specs.Journal.{begun};
ghost use Rattle.tip_rows.specs.Keys.{Key};
ghost use Rattle.tip_rows.specs.Logs.{is_rising};
ghost use Rattle.tip_machine.specs.Agreement.Traces.{traced};
ghost use Rattle.tip_machine.specs.Agreement.{IsAgreed};
ghost use Rattle.tip_machine.specs.Honest.{can_start, is_honest};
ghost use Rattle.tip_machine.specs.Moves.{Move, World, loaded, moved, picked};
ghost use Rattle.tip_machine.specs.Recovery.{Loaded, restarted};
ghost use Rattle.tip_machine.specs.Returns.{Back, can_answer};
ghost use Rattle.tip_machine.specs.Starting.{IsStart};
ghost use Rattle.tip_machine.specs.States.{State};
ghost use Rattle.tip_machine.specs.Types.{Event};
ghost use Rattle.tip_machine.specs.declared.event.Outcome.{Outcome};
ghost use Rattle.tip_honest.specs.Honesty.{AreHonest, IsFirst, Journal, MayBeOver, StandsForLast, are_boxed, noted, rows_of};
ghost use Rattle.tip_honest.specs.Hosts.{AreAllHonest, HasCome, IsLost, IsRenewed, Known};

/// Where a realm begins, the journal that begins with it is honest.
pub fn a_first_journal_is_honest()
    ensures { (world : World) (first : IsFirst world) → AreHonest world
        (begun world.state.head.epoch (loaded first.boxes world.rows) ∷ []) }
{}

/// So is the journal of a realm that recovery makes of rows that rise, with a box for each of their branches.
pub fn a_realm_begins_honest()
    ensures { (state : State) (start : List Loaded) → is_rising (rows_of start) ≡ true →
        are_boxed start ≡ true → state ≡ restarted state.head start → state.head.given ≡ 0 →
        state.head.entries ≡ 0 →
        AreHonest (record { state = state; rows = rows_of start; errands = [] })
        (begun state.head.epoch start ∷ []) }
{}

/// An honest move more leaves honest journals: whatever errand comes back or is lost, the oldest or another.
pub fn a_move_more_leaves_honest_journals()
    ensures { (world : World) (journals : List Journal) (move : Move) →
        AreHonest world journals → is_honest move world ≡ true →
        AreHonest (moved move world).world (noted move world journals) }
{}

/// A realm stands where its last journal leads, from where that began.
pub fn a_realm_stands_where_its_journal_leads()
    ensures { (world : World) (journals : List Journal) → AreHonest world journals →
        StandsForLast world.state journals }
{}

/// Whatever parties that are out have called by now, whether or not they get back to tell it, is covered: an errand
/// that is out may be over, as its branches can answer, and the journals are honest still.
pub fn an_errand_that_is_out_may_be_over()
    ensures { (world : World) (journals : List Journal) (place : ℕ) (party : PartyNotes)
        (rest : List PartyNotes) (back : Back) → AreHonest world journals →
        picked place world.errands ≡ party ∷ rest →
        can_answer party.errand back party.members ≡ true →
        MayBeOver world journals place back }
{}

/// AGREEMENT of honest journals: where the first of them begins as a run may begin, no transaction of the realm is half
/// committed.
pub fn honest_journals_agree()
    ensures { (world : World) (journals : List Journal) (is : AreHonest world journals) →
        IsStart is.start → (id : List ℕ) → IsAgreed is.start (traced is.start is.moves) id }
{}

/// The journals of a process, and behind them those of the next one, which has started from the rows that the first has
/// left.
pub fn the_next_process_goes_on()
    ensures { (world : World) (journals : List Journal) (boxes : Key → List Badge) (world' : World)
        (journals' : List Journal) → AreHonest world journals → can_start boxes world ≡ true →
        (next : AreHonest world' journals') →
        next.start ≡ (moved (Move.Restart boxes) world).world →
        loaded next.first.boxes next.start.rows ≡ loaded boxes world.rows →
        AreHonest world' (journals ++ journals') }
{}

/// A HOST STAYS HONEST: at each event, whichever errand it brings back, at each loss and at each renewal of a realm,
/// where all realms were honest all are.
pub fn a_host_stays_honest()
    ensures event { (old new : Known) (place : ℕ) (event : Event) (outcome : Outcome)
        (state : State) → AreAllHonest old → HasCome old new place event outcome state →
        AreAllHonest new }
    ensures loss { (old new : Known) (place : ℕ) → AreAllHonest old → IsLost old new place →
        AreAllHonest new }
    ensures renewal { (old new : Known) (place : ℕ) (state : State) (start : List Loaded) →
        AreAllHonest old → IsRenewed old new place state start → AreAllHonest new }
{}
