//! A stored core with what is kept of its realms beside it.
ghost use Rattle.std.specs.Prelude.{◌≡◌, ◌≢◌, ◌↔◌, ℕ, [], None, true, false, drop, length, map, slice_get, IfErr, IfOk, IfSome, OnErr, OnOk, IsTrue, Err, option_map};
ghost use Rattle.std.specs.Option.{option_map_or};
ghost use Rattle.tip_branch.specs.Always.{Always};
ghost use Rattle.tip_core.specs.Hosted.{HaveNames, may_take_in, realm as realm_at, standing_in};
ghost use Rattle.tip_core.specs.Usages.{is_owed, is_with_superior, usage_of};
ghost use Rattle.tip_stored.specs.Loading.{spec_of};
ghost use Rattle.tip_stored.specs.Recovering.{all_adopted};
ghost use Rattle.tip_stored.specs.declared.stored_core.StepFault.TheVariants as StepFault;
ghost use Rattle.tip_journal.specs.Audit.{AreAudited, report_of};
ghost use Rattle.tip_journal.specs.Fits.{Fits};
ghost use Rattle.tip_kept.specs.Keeping.{rows_at};
ghost use Rattle.tip_machine.specs.Honest.{brings_no_party};
ghost use Rattle.tip_machine.specs.States.{State};
ghost use Rattle.tip_recovery.specs.Adopting.{stored_of};
ghost use Rattle.tip_host.specs.Books.{HasRunBehind, out_of, retired_at};
ghost use Rattle.tip_host.specs.Hosts.{Serves, Stays, is_frozen, waiting_at};
ghost use Rattle.tip_host.specs.Entries.{bare};
ghost use Rattle.tip_host.specs.Openings.{IsOpened};
ghost use Rattle.tip_outbox.specs.Waiting.{waiting};
ghost use Rattle.tip_host.specs.Seats.{is_now, within};
ghost use Rattle.tip_host.specs.Works.{BringsAt, standing_at};
ghost use Rattle.tip_host.specs.declared.host.HostFault.TheVariants.{NotOut, PassMismatch, Stopped};
ghost use Rattle.tip_host.specs.declared.host.OpenFault.TheVariants.{Unadopted};

use crate::books::Books;
use crate::host_event::HostEvent;
use crate::noting::takes_entry;
use crate::opening::{Opening, open_all};
use crate::reply::Reply;
use crate::seat::Seat;
use crate::serving::{finish, make_ready};
use std::alloc::{AllocError, Global};
use std::marker::Model;
use thiserror::Error;
use tip_core::{Core, Standing, Usage};
use tip_honest::Entry;
use tip_journal::{AuditFault, Journals, Pass, Reported, Retired, audit, fits};
use tip_line::{Address, Id};
use tip_machine::{Event, Head, Item};
use tip_outbox::Outboxes;
use tip_rows::{Key, RowLog};
use tip_stored::{RealmSpec, Recovering, StepFault, StoredCore};
use tip_table::Table;

/// Why a host is not opened.
#[derive(Clone, Copy, Debug, PartialEq, Eq, Error)]
pub enum OpenFault {
    #[error("a row with branches was not adopted")]
    Unadopted,
    #[error("out of memory")]
    Memory,
}

/// Why an event did not happen.
#[derive(Clone, Copy, Debug, PartialEq, Eq, Error)]
pub enum HostFault {
    #[error("the host is stopped")]
    Stopped,
    #[error("the pass is not of this host")]
    PassMismatch,
    #[error("the party is not out of this realm")]
    NotOut,
    #[error("out of memory")]
    Memory,
}

impl From<StepFault> for HostFault {
    ghost use Rattle.tip_host.specs.Hosts.{fault_of};

    ghost from_gives = { λ why fault. fault ≡ fault_of why };

    fn from(fault: StepFault) -> HostFault {
        match fault {
            StepFault::Stopped => HostFault::Stopped,
            StepFault::Memory => HostFault::Memory,
        }
    }
}

/// What a host leaves that has ended.
#[derive(Drop)]
pub struct Ended<S> {
    pub store: S,
    /// Of each realm, one for each of its starts, but for those that were let go.
    pub journals: Journals<Opening, Entry>,
    /// Of each realm, how many were let go.
    pub retired: Vec<Retired>,
}

/// A stored core, and what is kept of its realms beside it: their journals, how their rows are stored, who is out, and what waits
/// to go out on each connection.
#[derive(Drop)]
pub struct Host<S> {
    pub(crate) stored: StoredCore<S, Core>,
    pub(crate) books: Books,
}

impl<S> Model for Host<S> {
    ghost use Rattle.std.specs.Coded.{codes};
    ghost use Rattle.tip_host.specs.Books.{IsHonest};
    ghost use Rattle.tip_host.specs.Hosts.{Host};
    ghost use Rattle.tip_outbox.specs.contracts.outboxes.Outboxes as e;

    ghost Value = { Host S };

    ghost coded = { Prim.hlevel (codes, e.the_row.coded) };

    ghost view = { λ d. record { stored = d.stored; books = d.books } };

    ghost invariant = { λ d. IsHonest d.stored.core d.books };
}

impl<S: RowLog + Drop> Host<S> {
    /// The stored core begins, each realm with a journal that says with which rows and boxes it begins. At a fault all is handed
    /// back.
    pub fn open(
        alloc: Global,
        recovering: Recovering<S>,
    ) -> Result<Host<S>, (OpenFault, Recovering<S>)>
        requires { Always }
        ensures opened { IfOk result (IsOpened recovering) }
        ensures unadopted { IfErr result
            (λ fault. fault.0 ≡ Unadopted → all_adopted recovering.realms ≡ false) }
        ensures back { IfErr result (λ fault. fault.1 ≡ recovering) }
    {
        let Ok((journals, rows, retired)) = open_all(alloc, recovering.realms()) else {
            return Err((OpenFault::Memory, recovering));
        };
        let books = Books {
            journals,
            retired,
            outboxes: Outboxes::new(alloc),
            rows,
            work: Table::new(alloc),
            out: Table::new(alloc),
        };
        match recovering.begin() {
            Ok(stored) => Ok(Host { stored, books }),
            Err((_, recovering)) => Err((OpenFault::Unadopted, recovering)),
        }
    }

    /// A pass for whoever makes events here. It takes no memory.
    pub fn pass(&self, alloc: Global) -> Pass<Entry>
        ensures { result.noted ≡ [] }
    {
        Pass::new(alloc)
    }

    /// One event of a realm. Its lines wait in the outboxes, its entry stands in the realm's journal and in this pass, and the party
    /// that goes out waits to be taken. A fault hands the event back, and nothing has happened.
    pub fn step(
        &mut self,
        alloc: Global,
        pass: &mut Pass<Entry>,
        event: HostEvent,
    ) -> Result<Reply, (HostFault, HostEvent)>
        requires { Always }
        ensures serves { IfOk result
            (λ reply. Serves S.keeping self.old self.new pass.old.noted pass.new.noted event.realm
            event.event None reply) }
        ensures nobody { OnOk result (brings_no_party event.event ≡ true) }
        ensures stays { OnErr result (Stays self.old self.new) }
        ensures pass { OnErr result (pass.new.noted ≡ pass.old.noted) }
        ensures realm { IfErr result (λ fault. fault.1.realm ≡ event.realm) }
        ensures back { IfErr result (λ fault. fault.1.event ≡ event.event) }
        ensures stopped { self.new.stored.is_stopped ≡ self.old.stored.is_stopped }
        ensures running { OnOk result (self.old.stored.is_stopped ≡ false) }
        ensures stopping { IfErr result
            (λ fault. (fault.0 ≡ Stopped) ↔ (self.old.stored.is_stopped ≡ true)) }
        ensures sent { IfErr result (λ fault. fault.0 ≢ NotOut) }
        ensures matching { IfErr result (λ fault. fault.0 ≢ PassMismatch) }
    {
        let (realm, event) = event.into_parts();
        match self.happen(alloc, pass, realm, event, None) {
            Ok(reply) => Ok(reply),
            Err((fault, event)) => Err((fault.into(), HostEvent::of_parts(realm, event))),
        }
    }

    /// One event of a realm, which brings nobody, or who was taken out and stands at a place.
    pub(crate) fn happen(
        &mut self,
        alloc: Global,
        pass: &mut Pass<Entry>,
        realm: usize,
        event: Event,
        back: Option<usize>,
    ) -> Result<Reply, (StepFault, Event)>
        requires always { Always }
        requires brings { BringsAt self.old.books.out realm event back }
        ensures serves { IfOk result
            (λ reply. Serves S.keeping self.old self.new pass.old.noted pass.new.noted realm event
            (standing_at self.old.books.out back) reply) }
        ensures stays { OnErr result (Stays self.old self.new) }
        ensures pass { OnErr result (pass.new.noted ≡ pass.old.noted) }
        ensures back { IfErr result (λ fault. fault.1 ≡ event) }
        ensures out { OnErr result (self.new.books.out ≡ self.old.books.out) }
        ensures stopped { self.new.stored.is_stopped ≡ self.old.stored.is_stopped }
        ensures running { OnOk result (self.old.stored.is_stopped ≡ false) }
        ensures stopping { IfErr result
            (λ fault. (fault.0 ≡ StepFault.Stopped) ↔ (self.old.stored.is_stopped ≡ true)) }
    {
        let room = match self.stored.room(alloc, realm, &event) {
            Ok(room) => room,
            Err(fault) => return Err((fault, event)),
        };
        let core = &self.stored.core;
        let Ok(ready) = make_ready(alloc, core, &mut self.books, pass, realm, &event, &room) else {
            return Err((StepFault::Memory, event));
        };
        let happened = self.stored.happen(realm, event, room);
        Ok(finish(&mut self.books, pass, realm, ready, back, happened))
    }

    /// The oldest line or closing that waits for a connection is taken out. None waits for a connection of an earlier start.
    pub fn take_out(&mut self, seat: Seat) -> Option<Item>
        ensures taken { result ≡ slice_get (waiting_at seat self.old) 0 }
        ensures left { waiting_at seat self.new ≡ drop 1 (waiting_at seat self.old) }
        ensures others { (place other : ℕ) → (place ≡ seat.realm → other ≢ seat.number) →
            waiting self.new.books.outboxes place other
            ≡ waiting self.old.books.outboxes place other }
        ensures stale { is_now seat (realm_at self.old.stored.core seat.realm) ≡ false →
            self.new ≡ self.old }
        ensures rest { self.new ≡ record self.old
            { books = record self.old.books { outboxes = self.new.books.outboxes } } }
    {
        if !self.is_now(seat) {
            return None;
        }
        self.books.outboxes.take(seat.realm, seat.number)
    }

    /// How a connection stands: whether it is there, and what becomes of a line that comes now.
    pub fn standing(&self, seat: Seat) -> Standing
        ensures { result
            ≡ standing_in (within seat) (realm_at self.now.stored.core seat.realm) }
    {
        self.stored.core.standing(seat.realm, seat.within())
    }

    /// Whether a line may be taken on a connection now.
    pub fn may_take(&self, seat: Seat) -> bool
        ensures { result ≡ may_take_in (within seat) (realm_at self.now.stored.core seat.realm) }
    {
        self.stored.core.may_take(seat.realm, seat.within())
    }

    /// How much of its limits a realm takes up, and how far its transactions have come; None where it is not hosted.
    pub fn usage(&self, realm: usize) -> Option<Usage>
        ensures { result ≡ option_map usage_of (realm_at self.now.stored.core realm) }
    {
        self.stored.core.usage(realm)
    }

    /// Whether the superior of a realm's transaction is on a connection.
    pub fn is_with_superior(&self, realm: usize, key: Key) -> bool
        ensures { result ≡ is_with_superior key (realm_at self.now.stored.core realm) }
    {
        self.stored.core.is_with_superior(realm, key)
    }

    /// Whether a realm's transaction still owes the commit to the subordinate of an address and identifier.
    pub fn is_owed(&self, realm: usize, key: Key, address: &Address, id: &Id) -> bool
        ensures { result ≡ is_owed key address.now id.now (realm_at self.now.stored.core realm) }
    {
        self.stored.core.is_owed(realm, key, address, id)
    }

    /// Whether a realm takes no entry more before it starts again; a realm that is not hosted is not frozen.
    pub fn is_frozen(&self, realm: usize) -> bool
        ensures { result ≡ is_frozen (realm_at self.now.stored.core realm) }
    {
        self.epoch(realm).is_some() && !takes_entry(&self.stored.core, realm)
    }

    /// How many lines and closings wait to go out on a connection.
    pub fn waiting(&self, seat: Seat) -> usize
        ensures { result ≡ length (waiting_at seat self.now) }
    {
        if !self.is_now(seat) {
            return 0;
        }
        self.books.outboxes.count(seat.realm, seat.number)
    }

    /// Whether a seat is of its realm's present start.
    fn is_now(&self, seat: Seat) -> bool
        ensures { result ≡ is_now seat (realm_at self.now.stored.core seat.realm) }
    {
        self.epoch(seat.realm) == Some(seat.epoch)
    }

    /// What is known of each realm, in the order of declaration.
    pub fn heads(&self) -> &[Head]
        requires { Always }
        ensures { (place : ℕ) → slice_get result.now place
            ≡ option_map (λ state. state.head) (realm_at self.now.stored.core place) }
    {
        self.stored.core.heads()
    }

    /// Each realm as it was declared, to be loaded again.
    pub fn declarations(&self, alloc: Global) -> Result<Vec<RealmSpec>, AllocError>
        requires { Always }
        ensures { IfOk result (λ specs. (place : ℕ) → slice_get specs.items place
            ≡ option_map (λ state. spec_of state.head) (realm_at self.now.stored.core place)) }
    {
        self.stored.declarations(alloc)
    }

    /// Whether it was stopped.
    pub fn is_stopped(&self) -> bool
        ensures { result ≡ self.now.stored.is_stopped }
    {
        self.stored.is_stopped
    }

    /// The epoch of a realm; None where it is not hosted.
    pub fn epoch(&self, realm: usize) -> Option<u32>
        ensures { result
            ≡ option_map (λ state. state.head.epoch) (realm_at self.now.stored.core realm) }
    {
        Some(self.stored.core.heads().get(realm)?.epoch)
    }

    /// Whether the last entry that a pass has of a realm's current epoch stands in the realm's journal.
    pub fn fits(&self, pass: &Pass<Entry>, realm: usize) -> bool
        ensures { IsTrue result ↔ Fits self.now.books.journals pass.now.noted realm }
    {
        fits(&self.books.journals, pass, realm)
    }

    /// Whether these passes have the entries of all journals that are kept, each in one pass, once; and then how many each journal
    /// has, by declaration, then by epoch.
    pub fn audit(&self, alloc: Global, passes: &[Pass<Entry>]) -> Result<Vec<Reported>, AuditFault>
        ensures audited { OnOk result (AreAudited self.now.books.journals passes.now) }
        ensures report { IfOk result (λ report. report.items ≡ report_of self.now.books.journals) }
        ensures mismatch { result ≡ Err AuditFault.PassMismatch →
            ¬ AreAudited self.now.books.journals passes.now }
    {
        audit(alloc, &self.books.journals, passes)
    }

    /// From now on each step is refused.
    pub fn stop(&mut self)
        ensures { self.new
            ≡ record self.old { stored = record self.old.stored { is_stopped = true } } }
    {
        self.stored.is_stopped = true;
    }

    /// HONEST RUNS of a host that ends, stopped or not, whoever came back in whatever order: the journals of each realm, those that
    /// were let go before and those that are kept, are what one honest run of its own machine leaves, which leads to its state, to
    /// its stored rows, as the store has answered, and to its parties that are out; so no transaction of it is half committed. All
    /// connections, boxes and parties are dropped, which calls their branches, and the store comes back with its rows and epochs as
    /// they are, and the journals.
    pub fn shut(self) -> Ended<S>
        requires { Always }
        ensures store { result.store ≡ self.stored.store }
        ensures journals { result.journals ≡ self.books.journals }
        ensures retired { result.retired.items ≡ self.books.retired }
        ensures honest { (place : ℕ) → HasRunBehind (retired_at result.retired.items place)
            (realm_at self.stored.core place) (out_of self.books place)
            (rows_at self.books.rows place) (slice_get (bare result.journals) place) }
    {
        let Host { stored, books } = self;
        let Books {
            journals,
            retired,
            ..
        } = books;
        Ended {
            store: stored.shut(),
            journals,
            retired,
        }
    }
}
