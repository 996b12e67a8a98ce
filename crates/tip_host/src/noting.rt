//! Entries of an event, made beforehand.
ghost use Rattle.std.specs.Prelude.{◌≡◌, ◌<◌, ◌+◌, ◌^◌, ℕ, true, false, IfOk, IfSome, OnOk, Some, is_some, length, nat_lt, slice_get};
ghost use Rattle.std.specs.Option.{option_map_or};
ghost use Rattle.tip_branch.specs.Always.{Always};
ghost use Rattle.tip_core.specs.Hosted.{realm as realm_at};
ghost use Rattle.tip_journal.specs.Journals.{epoch_at, last_number, room};
ghost use Rattle.tip_machine.specs.States.{State};
ghost use Rattle.tip_machine.specs.Types.{Event as AnEvent};
ghost use Rattle.tip_host.specs.Entries.{Enters, bare, takes_entry};
ghost use Rattle.tip_host.specs.Notings.{AreOf};

use crate::opening::Opening;
use std::alloc::{AllocError, Global};
use tip_core::Core;
use tip_honest::{Entry, PlainEvent};
use tip_journal::{Journals, Noted, Pass};
use tip_machine::{Event, Head, Outcome};

/// An event without boxes, which the journal and the pass will own together.
#[derive(Drop)]
pub(crate) struct Noting {
    journal: PlainEvent,
    pass: PlainEvent,
}

/// What an event needs for its entry, if it takes one: a copy of it, and a place in the journal and in the pass.
pub(crate) fn prepare(
    alloc: Global,
    core: &Core,
    journals: &mut Journals<Opening, Entry>,
    pass: &mut Pass<Entry>,
    realm: usize,
    event: &Event,
) -> Result<Option<Noting>, AllocError>
    requires here { (state : State) → realm_at core.now realm ≡ Some state →
        realm < length journals.old }
    ensures takes { IfOk result (λ noting. is_some noting ≡ takes_entry (realm_at core.now realm)) }
    ensures of { IfOk result (AreOf event.now) }
    ensures room { IfOk result
        (λ noting. is_some noting ≡ true → (0 < room journals.new realm) × (0 < pass.new.free)) }
    ensures few { IfOk result (λ noting. is_some noting ≡ true → (state : State) →
        realm_at core.now realm ≡ Some state → state.head.entries + 1 < 2 ^ 32) }
    ensures journals { bare journals.new ≡ bare journals.old }
    ensures pass { pass.new.noted ≡ pass.old.noted }
{
    if !takes_entry(core, realm) {
        return Ok(None);
    }
    let noting = noted(alloc, event)?;
    make_room(journals, pass, realm)?;
    Ok(Some(noting))
}

/// An event without boxes, with two owners.
fn noted(alloc: Global, event: &Event) -> Result<Noting, AllocError>
    ensures { IfOk result (λ noting. AreOf event.now (Some noting)) }
{
    let journal = PlainEvent::of(alloc, event)?;
    let pass = journal.share()?;
    Ok(Noting { journal, pass })
}

/// A place in the journal of a realm and in a pass.
fn make_room(
    journals: &mut Journals<Opening, Entry>,
    pass: &mut Pass<Entry>,
    realm: usize,
) -> Result<(), AllocError>
    requires { realm < length journals.old }
    ensures room { OnOk result ((0 < room journals.new realm) × (0 < pass.new.free)) }
    ensures journals { bare journals.new ≡ bare journals.old }
    ensures pass { pass.new.noted ≡ pass.old.noted }
{
    reserve(journals, realm)?;
    pass.reserve()
}

/// A place in the journal of a realm.
fn reserve(journals: &mut Journals<Opening, Entry>, realm: usize) -> Result<(), AllocError>
    requires { realm < length journals.old }
    ensures room { OnOk result (0 < room journals.new realm) }
    ensures same { bare journals.new ≡ bare journals.old }
{
    journals.reserve(realm)
}

/// Whether an event of a realm takes an entry.
pub(crate) fn takes_entry(core: &Core, realm: usize) -> bool
    ensures takes { result ≡ takes_entry (realm_at core.now realm) }
    ensures few { result ≡ true → (state : State) → realm_at core.now realm ≡ Some state →
        state.head.entries + 1 < 2 ^ 32 }
{
    has_room(core.heads(), realm)
}

/// Whether a realm may have a further entry.
fn has_room(heads: &[Head], realm: usize) -> bool
    ensures takes { result ≡ option_map_or (λ head. nat_lt head.entries head.limits.entries)
        (slice_get heads.now realm) false }
    ensures few { result ≡ true →
        IfSome (slice_get heads.now realm) (λ head. head.entries + 1 < 2 ^ 32) }
{
    match heads.get(realm) {
        Some(head) => head.entries < most_entries(head),
        None => false,
    }
}

fn most_entries(head: &Head) -> u32
    ensures { result ≡ head.now.limits.entries }
{
    head.limits.entries
}

/// The entry stands in the journal and in the pass, with its number, if it takes one.
pub(crate) fn enter(
    journals: &mut Journals<Opening, Entry>,
    pass: &mut Pass<Entry>,
    realm: usize,
    noting: Option<Noting>,
    outcome: Outcome,
) -> Option<u32>
    requires room { is_some noting ≡ true → (0 < room journals.old realm) × (0 < pass.old.free) }
    requires few { is_some noting ≡ true → last_number journals.old realm + 1 < 2 ^ 32 }
    ensures { (event : AnEvent) → AreOf event noting →
        Enters (is_some noting) (bare journals.old) (bare journals.new) pass.old.noted
        pass.new.noted realm (record { event = event; outcome = outcome }) result }
{
    let noting = noting?;
    let epoch = epoch_of(journals, realm);
    let number = journals.add(
        realm,
        Entry {
            event: noting.journal,
            outcome,
        },
    );
    pass.add(Noted {
        realm,
        epoch,
        number,
        entry: Entry {
            event: noting.pass,
            outcome,
        },
    });
    Some(number)
}

/// The epoch of a realm's journal.
fn epoch_of(journals: &Journals<Opening, Entry>, realm: usize) -> u32
    ensures { result ≡ epoch_at journals.now realm }
{
    match journals.current(realm) {
        Some(journal) => journal.epoch(),
        None => 0,
    }
}
