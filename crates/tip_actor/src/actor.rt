//! A realm of a script at work.
ghost use Rattle.std.specs.Prelude.{◌≡◌, ◌++◌, ℕ, List, [], true, false, OnOk, IfOk, string_bytes, is_some, IfErr, Some};
ghost use Rattle.std.specs.Option.{option_to_list};
ghost use Rattle.tip_machine.specs.States.{State};
ghost use Rattle.tip_machine.specs.declared.event.Outcome.TheVariants.{Refused};
ghost use Rattle.tip_branch.specs.Always.{Always};
ghost use Rattle.tip_stored.specs.Errands.{goes_uncalled};
ghost use Rattle.tip_actor.specs.Halting.{AllStay, Halts, around};
ghost use Rattle.tip_actor.specs.Acting.{Acting, Reading, after_sent, answer_in, happens, lost_on, refuses, still_due, with_opened};
ghost use Rattle.tip_actor.specs.Standing.{Acts, AreReadings, IsActing, IsDone, IsServed, Serves};

use crate::fault::ActFault;
use crate::readers::Readers;
use crate::refusing::Refuser;
use std::alloc::{AllocError, Global};
use std::collections::VecDeque;
use tip_core::Happened;
use tip_line::Realm;
use tip_machine::{Event, Item, Outcome, Seat, Sent};
use tip_rows::RowLog;
use tip_stored::{PartyOut, StepFault, StoredCore};
use tip_transcript::{print, print_brought};

/// A realm, who reads what comes on its connections, and its parties that are out.
#[derive(Drop)]
pub struct Actor<P = PartyOut> {
    pub name: Realm,
    /// Those of the connections that it has given since its start.
    pub readers: Readers,
    /// The oldest first.
    pub errands: VecDeque<P>,
    /// The realm's next change of rows is to be refused.
    pub is_due: bool,
}

impl Actor<PartyOut> {
    /// A realm at its start, with the parties that are out.
    // A function that takes nothing that can hold boxes must not give out what can.
    pub fn new(alloc: Global, name: Realm, errands: VecDeque<PartyOut>) -> Actor<PartyOut>
        requires { Always }
        ensures name { result.name ≡ name }
        ensures readers { result.readers.items ≡ [] }
        ensures errands { result.errands ≡ errands }
        ensures due { result.is_due ≡ false }
    {
        Actor {
            name,
            readers: Readers::new(alloc),
            errands,
            is_due: false,
        }
    }

    /// One event of the realm, which has this place in the stored core; what it shows is printed. It says whether the event was
    /// refused.
    pub fn happen<S: RowLog>(
        &mut self,
        alloc: Global,
        stored_core: &mut StoredCore<S>,
        place: usize,
        event: Event,
        printed: &mut String,
    ) -> Result<bool, ActFault>
        requires always { Always }
        requires running { stored_core.old.is_stopped ≡ false }
        ensures truth { S.keeping.is_true stored_core.new.store →
            S.keeping.is_true stored_core.old.store }
        ensures running { stored_core.new.is_stopped ≡ false }
        ensures acts { OnOk result (Acts S.keeping stored_core.old stored_core.new
            place self.old self.new (string_bytes printed.old) (string_bytes printed.new)
            (happens event)) }
        ensures refused { (acting : Acting) →
            IsActing S.keeping stored_core.old place self.old acting →
            IfOk result (λ refused. refused ≡ is_some (answer_in acting event).refusal) }
        ensures halts { (acting : Acting) →
            IsActing S.keeping stored_core.old place self.old acting →
            Halts S.keeping stored_core.old.store stored_core.new.store self.old.name
            (around (Some (happens event acting)) acting) }
    {
        let mut calls = String::new(alloc);
        print_brought(&mut calls, self.name.as_str(), &event)?;
        let happened = step(stored_core, alloc, place, event, self.is_due)?;
        print(printed, alloc, &self.name, &calls, &happened)?;
        let is_refused = happened.answer.refusal.is_some();
        self.learn(happened)?;
        Ok(is_refused)
    }

    /// The next change of its rows is to be refused, where its store can be asked for that.
    pub fn refuse<S: RowLog, R: Refuser<S>>(&mut self, refuser: &R, stored_core: &mut StoredCore<S>)
        requires { Always }
        ensures truth { S.keeping.is_true stored_core.new.store →
            S.keeping.is_true stored_core.old.store }
        ensures running { stored_core.new.is_stopped ≡ stored_core.old.is_stopped }
        ensures refuses { R.may ≡ true → (place : ℕ) (printed : List ℕ) (acting : Acting) →
            IsActing S.keeping stored_core.old place self.old acting →
            IsDone S.keeping stored_core.old stored_core.new place self.old self.new
            printed printed (refuses acting) }
    {
        refuser.refuse_next(&mut stored_core.store, &self.name);
        self.is_due = true;
    }

    /// Takes in what an event has come to: a refusal that was due is over, what was read on closed connections is gone, a new
    /// connection has a reader, and a party is out.
    fn learn(&mut self, happened: Happened) -> Result<(), AllocError>
        requires { goes_uncalled happened.answer.work ≡ true }
        ensures name { self.new.name ≡ self.old.name }
        ensures due { OnOk result (self.new.is_due ≡ still_due self.old.is_due happened.change) }
        ensures readings { (readings : List Reading) → AreReadings self.old.readers.items readings →
            OnOk result (AreReadings self.new.readers.items (with_opened happened.answer.opened
            (after_sent happened.answer.sent readings))) }
        ensures errands { OnOk result (self.new.errands.items
            ≡ self.old.errands.items ++ option_to_list happened.answer.work) }
    {
        self.is_due = self.is_due && happened.change.is_none();
        self.forget_closed(happened.answer.sent.as_slice());
        self.give(happened.answer.opened)?;
        self.send(PartyOut::of(happened.into_work()))
    }

    /// A party goes out, if one does.
    fn send(&mut self, work: Option<PartyOut>) -> Result<(), AllocError>
        ensures same { (self.new.name ≡ self.old.name) × (self.new.readers ≡ self.old.readers)
            × (self.new.is_due ≡ self.old.is_due) }
        ensures errands { OnOk result
            (self.new.errands.items ≡ self.old.errands.items ++ option_to_list work) }
    {
        if let Some(party) = work {
            self.errands.push_back(party)?;
        }
        Ok(())
    }

    /// A reader for the connection of this seat, if one was given.
    fn give(&mut self, opened: Option<Seat>) -> Result<(), AllocError>
        ensures same { (self.new.name ≡ self.old.name) × (self.new.errands ≡ self.old.errands)
            × (self.new.is_due ≡ self.old.is_due) }
        ensures readings { (readings : List Reading) → AreReadings self.old.readers.items readings →
            OnOk result (AreReadings self.new.readers.items (with_opened opened readings)) }
    {
        if let Some(seat) = opened {
            self.readers.open(seat)?;
        }
        Ok(())
    }

    /// What was read on connections that are closed is gone.
    fn forget_closed(&mut self, all: &[Sent])
        ensures same { (self.new.name ≡ self.old.name) × (self.new.errands ≡ self.old.errands)
            × (self.new.is_due ≡ self.old.is_due) }
        ensures readings { (readings : List Reading) → AreReadings self.old.readers.items readings →
            AreReadings self.new.readers.items (after_sent all.now readings) }
    {
        for sent in all {
            if let Item::Close = sent.item {
                self.forget(sent.connection);
            }
        }
    }

    /// What was read on a connection is gone.
    pub(crate) fn forget(&mut self, connection: u32)
        ensures same { (self.new.name ≡ self.old.name) × (self.new.errands ≡ self.old.errands)
            × (self.new.is_due ≡ self.old.is_due) }
        ensures readings { (readings : List Reading) → AreReadings self.old.readers.items readings →
            AreReadings self.new.readers.items (lost_on connection readings) }
    {
        self.readers.forget(connection);
    }
}

/// One event of a realm by the stored core, whose store refuses its change only where that is due: another refusal ends the script.
fn step<S: RowLog>(
    stored_core: &mut StoredCore<S>,
    alloc: Global,
    place: usize,
    event: Event,
    is_due: bool,
) -> Result<Happened, ActFault>
    requires { stored_core.old.is_stopped ≡ false }
    ensures truth { S.keeping.is_true stored_core.new.store →
        S.keeping.is_true stored_core.old.store }
    ensures running { stored_core.new.is_stopped ≡ false }
    ensures uncalled { IfOk result
        (λ happened. goes_uncalled happened.answer.work ≡ true) }
    ensures serves { (state : State) →
        IsServed S.keeping stored_core.old place state is_due →
        IfOk result (λ happened. Serves S.keeping stored_core.old stored_core.new
        place state is_due event happened) }
    ensures stays { IfErr result
        (λ fault. AllStay S.keeping stored_core.old.store stored_core.new.store) }
{
    let happened = match stored_core.step(alloc, place, event) {
        Ok(happened) => happened,
        Err((StepFault::Memory, _)) => return Err(ActFault::Memory),
        Err((StepFault::Stopped, _)) => unreachable!(),
    };
    if is_unforeseen(happened.outcome, is_due) {
        return Err(ActFault::Store);
    }
    Ok(happened)
}

/// Whether a change was refused though that was not due.
fn is_unforeseen(outcome: Outcome, is_due: bool) -> bool
    ensures yes { result ≡ true → outcome ≡ Refused }
    ensures no { result ≡ false → outcome ≡ Refused → is_due ≡ true }
{
    match outcome {
        Outcome::Refused => !is_due,
        Outcome::NoChange | Outcome::Stored => false,
    }
}
