//! The parties of a realm that are out.
ghost use Rattle.std.specs.Prelude.{◌≡◌, ◌++◌, ◌&&◌, false, if◌then◌else◌, Some, None, IfOk, OnOk, string_bytes};
ghost use Rattle.std.specs.List.{list_all};
ghost use Rattle.tip_branch.specs.declared.member.Errand.TheVariants as Errand;
ghost use Rattle.tip_machine.specs.Returns.{event_of};
ghost use Rattle.tip_branch.specs.Always.{Always};
ghost use Rattle.tip_actor.specs.Acting.{Acting, drops_from, goes_for};
ghost use Rattle.tip_actor.specs.Halting.{Halts, around};
ghost use Rattle.tip_actor.specs.Promises.{answers_of, are_foretold, is_promised};
ghost use Rattle.tip_actor.specs.Standing.{IsActing, IsDone, Tells};

use crate::actor::Actor;
use crate::fault::ActFault;
use std::alloc::{AllocError, Global};
use tip_branch::{Errand, Member, Plan};
use tip_machine::Event;
use tip_rows::RowLog;
use tip_stored::{PartyOut, StoredCore};
use tip_transcript::{print_drops, print_idle};

impl Actor<PartyOut> {
    /// The realm's oldest errand is done, and its party comes back. It says whether that can be told in a script, where each branch
    /// has promised what it answers.
    pub fn go<S: RowLog>(
        &mut self,
        alloc: Global,
        stored_core: &mut StoredCore<S>,
        place: usize,
        printed: &mut String,
    ) -> Result<bool, ActFault>
        requires always { Always }
        requires running { stored_core.old.is_stopped ≡ false }
        ensures truth { S.keeping.is_true stored_core.new.store →
            S.keeping.is_true stored_core.old.store }
        ensures running { stored_core.new.is_stopped ≡ false }
        ensures tells { (acting : Acting) →
            IsActing S.keeping stored_core.old place self.old acting →
            IfOk result (λ told. Tells S.keeping stored_core.old stored_core.new place
            self.old self.new (string_bytes printed.old) (string_bytes printed.new) told
            (goes_for acting.world.errands acting)) }
        ensures untold { IfOk result
            (λ told. told ≡ false → stored_core.new ≡ stored_core.old) }
        ensures halts { (acting : Acting) →
            IsActing S.keeping stored_core.old place self.old acting →
            Halts S.keeping stored_core.old.store stored_core.new.store self.old.name
            (around (goes_for acting.world.errands acting) acting) }
    {
        let Some(party) = self.errands.pop_front() else {
            print_idle(printed, self.name.as_str())?;
            return Ok(true);
        };
        let Some(event) = foretold(party) else {
            return Ok(false);
        };
        self.happen(alloc, stored_core, place, event, printed)?;
        Ok(true)
    }

    /// The realm's oldest errand is lost.
    pub fn lose<S: RowLog>(
        &mut self,
        stored_core: &StoredCore<S>,
        place: usize,
        printed: &mut String,
    ) -> Result<(), AllocError>
        requires { Always }
        ensures { (acting : Acting) →
            IsActing S.keeping stored_core.now place self.old acting →
            OnOk result (IsDone S.keeping stored_core.now stored_core.now place
            self.old self.new (string_bytes printed.old) (string_bytes printed.new)
            (drops_from acting.world.errands acting)) }
    {
        match self.errands.pop_front() {
            Some(party) => print_drops(printed, self.name.as_str(), party.party()),
            None => print_idle(printed, self.name.as_str()),
        }
    }
}

/// A party as it comes back from its errand, where all that is answered is promised.
#[tactic(auto, using(crate::proofs::Promised::foretelling))]
fn foretold(party: PartyOut) -> Option<Event>
    ensures { result
        ≡ (if are_foretold party then Some (event_of party (answers_of party)) else None) }
{
    if is_foretold(&party) {
        Some(party.done())
    } else {
        None
    }
}

/// Whether all that a party will answer is promised.
fn is_foretold(party: &PartyOut) -> bool
    ensures { result ≡ are_foretold party.now }
{
    let party = party.party().party();
    are_promised(party.errand(), party.members())
}

/// Whether all that will be answered to this errand is promised.
fn are_promised(errand: Errand, members: &[Member]) -> bool
    ensures { result ≡ list_all (is_promised errand) members.now }
{
    members.iter().all(|member| is_promised(errand, member))
}

/// Whether what a member answers to this errand is promised.
fn is_promised(errand: Errand, member: &Member) -> bool
    ensures { result ≡ is_promised errand member.now }
{
    match errand {
        Errand::Vote => member.standing.badge.plan.vote().is_some(),
        Errand::Commit => commits_as_promised(member),
        Errand::Idle | Errand::Abort => true,
    }
}

/// Whether what a member answers to a commit is promised.
fn commits_as_promised(member: &Member) -> bool
    ensures { result ≡ is_promised Errand.Commit member.now }
{
    let plan = member.standing.badge.plan;
    plan.answer(member.standing.told.commits).is_some()
        && (plan != Plan::Late || member.vote.is_some())
}
