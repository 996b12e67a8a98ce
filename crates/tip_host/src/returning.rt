//! Parties that are taken out of a host for their errand, and that come back.
ghost use Rattle.std.specs.Prelude.{◌≡◌, ◌≢◌, ◌↔◌, ◌++◌, ℕ, ⊤, true, false, None, Some, find, option_map, IfErr, IfOk, IfNone, IfSome, OnErr, OnOk};
ghost use Rattle.tip_branch.specs.Always.{Always};
ghost use Rattle.tip_branch.specs.Notes.{PartyNotes};
ghost use Rattle.tip_table.specs.Kept.{of};
ghost use Rattle.tip_host.specs.Books.{left_in, out_of};
ghost use Rattle.tip_host.specs.Hosts.{IsOut, Serves, Stays};
ghost use Rattle.tip_host.specs.Works.{Takes, WasSent, is_errand_of, left_out};
ghost use Rattle.tip_host.specs.declared.host.HostFault.TheVariants.{NotOut, PassMismatch, Stopped};

use crate::books::Books;
use crate::host::{Host, HostFault};
use crate::reply::Reply;
use crate::unlinked::Unlinked;
use crate::work::{Returned, Work};
use std::alloc::{AllocError, Global};
use tip_branch::PartyNote;
use tip_honest::Entry;
use tip_journal::Pass;
use tip_rows::RowLog;
use tip_stored::PartyOut;
use tip_table::{Table, Test};

/// Any party.
struct Any;

impl Test<Unlinked<PartyOut>> for Any {
    ghost use Rattle.std.specs.Prelude.{true};

    ghost passes = { λ _ party. true };

    fn passes(&self, _: &Unlinked<PartyOut>) -> bool
        ensures { result ≡ true }
    {
        true
    }

    fn aim(&self) -> Option<u128>
        ensures { IfSome result (λ aim. (party : PartyNotes) → ⊤ → true ≡ true → None ≡ Some aim) }
    {
        None
    }
}

/// The errand of a party that was sent so.
#[derive(Drop)]
struct IsErrandOf<'a> {
    sent: &'a PartyNote,
}

impl Test<Unlinked<PartyNote>> for IsErrandOf<'_> {
    ghost use Rattle.tip_host.specs.Works.{is_errand_of};

    ghost passes = { λ query party. is_errand_of query.sent.now party };

    fn passes(&self, party: &Unlinked<PartyNote>) -> bool
        ensures { result ≡ is_errand_of self.now.sent.now party.now }
    {
        let party = party.item();
        party.id() == self.sent.id() && party.epoch() == self.sent.epoch()
    }

    fn aim(&self) -> Option<u128>
        ensures { IfSome result (λ aim. (party : PartyNotes) → ⊤ →
            is_errand_of self.now.sent.now party ≡ true → None ≡ Some aim) }
    {
        None
    }
}

impl<S: RowLog + Drop> Host<S> {
    /// The oldest party of a realm that waits for its errand is taken out; None where none waits. Without memory it waits still.
    pub fn take_work(&mut self, alloc: Global, realm: usize) -> Result<Option<Work>, AllocError>
        requires { Always }
        ensures takes { IfOk result (λ work. Takes realm (option_map (λ party. party.sent) work)
            self.old.books.work self.new.books.work self.old.books.out self.new.books.out) }
        ensures realm { IfOk result (λ work. IfSome work (λ work. work.realm ≡ realm)) }
        ensures out { (place : ℕ) → out_of self.new.books place ≡ out_of self.old.books place }
        ensures stays { OnErr result ((place : ℕ) →
            (of self.new.books.work place ≡ of self.old.books.work place)
            × (of self.new.books.out place ≡ of self.old.books.out place)) }
        ensures rest { self.new ≡ record self.old {
          books = record self.old.books {
            work = self.new.books.work;
            out = self.new.books.out;
          };
        } }
    {
        take_from(alloc, &mut self.books, realm)
    }

    /// A party that was taken out of a realm comes back, in whatever order, over renewals too. Who is not out is refused. A fault
    /// hands the party back, and nothing has happened.
    pub fn come_back(
        &mut self,
        alloc: Global,
        pass: &mut Pass<Entry>,
        returned: Returned,
    ) -> Result<Reply, (HostFault, Returned)>
        requires { Always }
        ensures serves { IfOk result
            (λ reply. Serves S.keeping self.old self.new pass.old.noted pass.new.noted
            returned.realm returned.event (Some returned.sent) reply) }
        ensures out { OnOk result (IsOut self.old returned.realm returned.sent) }
        ensures stays { OnErr result (Stays self.old self.new) }
        ensures pass { OnErr result (pass.new.noted ≡ pass.old.noted) }
        ensures back { IfErr result (λ fault. fault.1 ≡ returned) }
        ensures stopped { self.new.stored.is_stopped ≡ self.old.stored.is_stopped }
        ensures running { OnOk result (self.old.stored.is_stopped ≡ false) }
        ensures stopping { IfErr result
            (λ fault. (fault.0 ≡ Stopped) ↔ (self.old.stored.is_stopped ≡ true)) }
        ensures not_out { IfErr result
            (λ fault. fault.0 ≡ NotOut → ¬ IsOut self.old returned.realm returned.sent) }
        ensures strange { self.old.stored.is_stopped ≡ false →
            ¬ IsOut self.old returned.realm returned.sent →
            IfErr result (λ fault. fault.0 ≡ NotOut) }
        ensures matching { IfErr result (λ fault. fault.0 ≢ PassMismatch) }
    {
        if self.stored.is_stopped {
            return Err((HostFault::Stopped, returned));
        }
        let realm = returned.realm();
        let Some(place) = place_of(&self.books.out, realm, returned.sent()) else {
            return Err((HostFault::NotOut, returned));
        };
        let (event, sent) = returned.into_parts();
        match self.happen(alloc, pass, realm, event, Some(place)) {
            Ok(reply) => Ok(reply),
            Err((fault, event)) => Err((fault.into(), Returned::of_parts(realm, event, sent))),
        }
    }

    /// A party that was taken out of a realm is given up, its errand undone: it is out no more, and is let go by whoever drops it,
    /// where nothing waits for the host. It is no event and has no entry. Who is not out is handed back.
    pub fn lose(&mut self, work: Work) -> Result<PartyOut, Work>
        requires { Always }
        ensures party { IfOk result (λ party. party ≡ work.sent) }
        ensures was { OnOk result (IsOut self.old work.realm work.sent) }
        ensures lost { OnOk result (of self.new.books.out work.realm
            ≡ left_out (Some work.sent) (of self.old.books.out work.realm)) }
        ensures others { (other : ℕ) → other ≢ work.realm →
            of self.new.books.out other ≡ of self.old.books.out other }
        ensures rest { self.new
            ≡ record self.old { books = record self.old.books { out = self.new.books.out } } }
        ensures same { OnErr result (self.new ≡ self.old) }
        ensures not_out { OnErr result (¬ IsOut self.old work.realm work.sent) }
        ensures realm { IfErr result (λ back. back.realm ≡ work.realm) }
        ensures back { IfErr result (λ back. back.sent ≡ work.sent) }
    {
        let realm = work.realm();
        if !give_up(&mut self.books, realm, work.sent()) {
            return Err(work);
        }
        Ok(work.into_party())
    }
}

/// Who was taken out of a realm and was sent so is out no more. Whether it was out?
fn give_up(books: &mut Books, realm: usize, sent: &PartyNote) -> bool
    ensures gone { result ≡ true → (place : ℕ) × (at : ℕ)
        × WasSent books.old.out realm sent.now place at
        × ((other : ℕ) → of books.new.out other ≡ left_in (Some place) books.old.out other) }
    ensures was { result ≡ true →
        find (is_errand_of sent.now) (of books.old.out realm) ≡ Some sent.now }
    ensures not_out { result ≡ false →
        find (is_errand_of sent.now) (of books.old.out realm) ≢ Some sent.now }
    ensures rest { books.new ≡ record books.old { out = books.new.out } }
    ensures same { result ≡ false → books.new ≡ books.old }
{
    let Some(place) = place_of(&books.out, realm, sent) else {
        return false;
    };
    books.out.remove(place);
    true
}

/// The oldest party of a realm that waits for its errand goes out.
fn take_from(alloc: Global, books: &mut Books, realm: usize) -> Result<Option<Work>, AllocError>
    requires { Always }
    ensures takes { IfOk result (λ found. Takes realm (option_map (λ party. party.sent) found)
        books.old.work books.new.work books.old.out books.new.out) }
    ensures realm { IfOk result (λ found. IfSome found (λ work. work.realm ≡ realm)) }
    ensures out { (place : ℕ) → out_of books.new place ≡ out_of books.old place }
    ensures stays { OnErr result ((place : ℕ) →
        (of books.new.work place ≡ of books.old.work place)
        × (of books.new.out place ≡ of books.old.out place)) }
    ensures rest { books.new ≡ record books.old { work = books.new.work; out = books.new.out } }
{
    take_oldest(alloc, &mut books.work, &mut books.out, realm)
}

/// The oldest party of a realm that waits for its errand goes out, and how it was sent is noted.
fn take_oldest(
    alloc: Global,
    work: &mut Table<Unlinked<PartyOut>>,
    out: &mut Table<Unlinked<PartyNote>>,
    realm: usize,
) -> Result<Option<Work>, AllocError>
    requires { Always }
    ensures takes { IfOk result (λ found. Takes realm (option_map (λ party. party.sent) found)
        work.old work.new out.old out.new) }
    ensures realm { IfOk result (λ found. IfSome found (λ work. work.realm ≡ realm)) }
    ensures out { (place : ℕ) → of out.new place ++ of work.new place
        ≡ of out.old place ++ of work.old place }
    ensures stays { OnErr result ((place : ℕ) →
        (of work.new place ≡ of work.old place) × (of out.new place ≡ of out.old place)) }
{
    let Some(place) = work.find(realm, &Any) else {
        return Ok(None);
    };
    let party = work.item(place).item().party();
    let noted = PartyNote::of(alloc, party)?;
    let sent = PartyNote::of(alloc, party)?;
    out.reserve()?;
    out.add(realm, Unlinked::from_item(noted));
    Ok(Some(Work::new(realm, work.remove(place).into_item(), sent)))
}

/// At which place a party stands that was taken out and was sent so.
fn place_of(out: &Table<Unlinked<PartyNote>>, realm: usize, sent: &PartyNote) -> Option<usize>
    ensures some { IfSome result (λ place. (at : ℕ) × WasSent out.now realm sent.now place at) }
    ensures found { IfSome result (λ place.
        find (is_errand_of sent.now) (of out.now realm) ≡ Some sent.now) }
    ensures none { IfNone result (find (is_errand_of sent.now) (of out.now realm) ≢ Some sent.now) }
{
    let place = out.find(realm, &IsErrandOf { sent })?;
    if !out.item(place).item().is(sent) {
        return None;
    }
    Some(place)
}
