//! One event at a host: what it needs beforehand, and what is written of it.
ghost use Rattle.std.specs.Prelude.{◌≡◌, ◌≢◌, ◌+◌, ◌++◌, ◌<◌, ◌^◌, ℕ, true, is_some, length, IfOk, IfSome, IsSome, OnOk, Some};
ghost use Rattle.std.specs.Option.{option_to_list};
ghost use Rattle.tip_branch.specs.Always.{Always};
ghost use Rattle.tip_core.specs.Hosted.{realm as realm_at};
ghost use Rattle.tip_journal.specs.Journals.{last_number, room};
ghost use Rattle.tip_kept.specs.Keeping.{room_at, rows_at};
ghost use Rattle.tip_machine.specs.Moves.{rows_after};
ghost use Rattle.tip_machine.specs.States.{State};
ghost use Rattle.tip_machine.specs.Types.{Event as AnEvent};
ghost use Rattle.tip_outbox.specs.Waiting.{IsSettled};
ghost use Rattle.tip_stored.specs.Errands.{goes_uncalled};
ghost use Rattle.tip_table.specs.Kept.{of, places};
ghost use Rattle.tip_host.specs.Books.{HasSpace, IsSeen, Writes, left_in};
ghost use Rattle.tip_host.specs.Hosts.{IsOf};
ghost use Rattle.tip_host.specs.Entries.{Enters, bare};
ghost use Rattle.tip_host.specs.Notings.{AreOf, IsReadyFor};

use crate::books::Books;
use crate::noting::{Noting, enter, prepare};
use crate::reply::Reply;
use crate::unlinked::Unlinked;
use std::alloc::{AllocError, Global};
use tip_branch::PartyNote;
use tip_core::{Core, Happened, Room};
use tip_honest::Entry;
use tip_journal::Pass;
use tip_kept::KeptRows;
use tip_machine::{Change, Event, Outcome};
use tip_stored::PartyOut;
use tip_table::Table;

/// What an event needs beforehand: its entry, if it takes one, and the change of the stored rows that it wants, if any.
#[derive(Drop)]
pub(crate) struct Prepared {
    noting: Option<Noting>,
    change: Option<Change>,
}

/// All that an event needs before its change is asked of the store, which its room says.
pub(crate) fn make_ready(
    alloc: Global,
    core: &Core,
    books: &mut Books,
    pass: &mut Pass<Entry>,
    realm: usize,
    event: &Event,
    room: &Room,
) -> Result<Prepared, AllocError>
    requires here { (state : State) → realm_at core.now realm ≡ Some state →
        realm < length books.old.journals }
    ensures noting { IfOk result (λ ready. IsReadyFor event.now (realm_at core.now realm)
        books.new.journals pass.new realm ready.noting) }
    ensures change { IfOk result (λ ready. ready.change ≡ room.now.change) }
    ensures space { OnOk result (HasSpace books.new realm) }
    ensures seen { IsSeen books.old books.new }
    ensures pass { pass.new.noted ≡ pass.old.noted }
{
    books.outboxes.settle()?;
    books.work.reserve()?;
    books.rows.reserve(realm)?;
    let change = wanted(alloc, room)?;
    let noting = prepare(alloc, core, &mut books.journals, pass, realm, event)?;
    Ok(Prepared { noting, change })
}

/// The change that an event wants, copied.
fn wanted(alloc: Global, room: &Room) -> Result<Option<Change>, AllocError>
    ensures { IfOk result (λ change. change ≡ room.now.change) }
{
    Ok(match room.wants() {
        Some(Change::Put { key, row }) => Some(Change::Put {
            key: *key,
            row: row.copy(alloc)?,
        }),
        Some(Change::Remove { key }) => Some(Change::Remove { key: *key }),
        None => None,
    })
}

/// What an event came to is written down: its entry, its lines, its change where the store has made it, who goes out, and who
/// was out at a place and has come back.
pub(crate) fn finish(
    books: &mut Books,
    pass: &mut Pass<Entry>,
    realm: usize,
    ready: Prepared,
    back: Option<usize>,
    happened: Happened,
) -> Reply
    requires always { Always }
    requires room { is_some ready.noting ≡ true →
        (0 < room books.old.journals realm) × (0 < pass.old.free) }
    requires few { is_some ready.noting ≡ true →
        last_number books.old.journals realm + 1 < 2 ^ 32 }
    requires lines { IsSettled books.old.outboxes }
    requires work { 0 < books.old.work.free }
    requires rows { IfSome ready.change (λ _. 0 < room_at books.old.rows realm) }
    requires back { IfSome back (λ place. IsSome (places books.old.out place)) }
    requires uncalled { goes_uncalled happened.answer.work ≡ true }
    ensures is { IsOf realm result happened.answer }
    ensures change { result.change ≡ happened.change }
    ensures outcome { result.outcome ≡ happened.outcome }
    ensures writes { Writes books.old books.new realm ready.change happened.outcome back
        happened.answer }
    ensures enters { (event : AnEvent) → AreOf event ready.noting →
        Enters (is_some ready.noting) (bare books.old.journals) (bare books.new.journals)
        pass.old.noted pass.new.noted realm
        (record { event = event; outcome = happened.outcome }) result.entry }
{
    let Prepared { noting, change } = ready;
    let outcome = happened.outcome;
    let entry = enter(&mut books.journals, pass, realm, noting, outcome);
    keep(&mut books.rows, realm, change, outcome);
    take_back(&mut books.out, back);
    let (reply, lines, work) = Reply::of(realm, happened, entry);
    books.outboxes.send(realm, lines);
    go_out(&mut books.work, realm, PartyOut::of(work));
    reply
}

/// A change of a realm's rows is kept where the store has made it.
fn keep(rows: &mut KeptRows, realm: usize, change: Option<Change>, outcome: Outcome)
    requires { IfSome change (λ _. 0 < room_at rows.old realm) }
    ensures own { rows_at rows.new realm ≡ rows_after change outcome (rows_at rows.old realm) }
    ensures others { (other : ℕ) → other ≢ realm →
        rows_at rows.new other ≡ rows_at rows.old other }
    ensures count { length rows.new ≡ length rows.old }
{
    if let (Some(change), Outcome::Stored) = (change, outcome) {
        rows.make(realm, change);
    }
}

/// Who was taken out and stands at a place has come back.
fn take_back(out: &mut Table<Unlinked<PartyNote>>, back: Option<usize>)
    requires { IfSome back (λ place. IsSome (places out.old place)) }
    ensures { (realm : ℕ) → of out.new realm ≡ left_in back out.old realm }
{
    if let Some(place) = back {
        out.remove(place);
    }
}

/// Who goes out, if anybody does, waits to be taken. It takes room that is there.
fn go_out(work: &mut Table<Unlinked<PartyOut>>, realm: usize, party: Option<PartyOut>)
    requires always { Always }
    requires room { 0 < work.old.free }
    ensures own { of work.new realm ≡ of work.old realm ++ option_to_list party }
    ensures others { (other : ℕ) → other ≢ realm → of work.new other ≡ of work.old other }
{
    if let Some(party) = party {
        work.add(realm, Unlinked::from_item(party));
    }
}
