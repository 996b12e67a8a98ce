//! A realm that starts again at a host while the others run.
ghost use Rattle.std.specs.Prelude.{◌≡◌, ◌≢◌, ◌↔◌, ◌+◌, ◌<◌, ◌≤◌, ◌-◌, ◌==◌, ℕ, if◌then◌else◌, slice_get, true, false, [], Err, None, Some, length, map, IfErr, IfOk, IsSomeAnd, IsTrue, OnErr, OnOk, vec_capacity, vec_len};
ghost use Rattle.tip_branch.specs.Always.{Always};
ghost use Rattle.tip_core.specs.Hosted.{HaveNames, realm as realm_at};
ghost use Rattle.tip_stored.specs.Loading.{Goes, IsRead, Never, Stays as ReadsAlone};
ghost use Rattle.tip_honest.specs.Honesty.{are_boxed};
ghost use Rattle.tip_honest.specs.Hosts.{IsRenewed as KnowsRenewed};
ghost use Rattle.tip_stored.specs.Renewing.{IsReasonToDoubt, IsRenewed, Rises, was_refused};
ghost use Rattle.tip_stored.specs.declared.renewing.RenewFault.TheVariants.{NoRealm, Stopped};
ghost use Rattle.tip_journal.specs.Journal.{begun};
ghost use Rattle.tip_journal.specs.Journals.{IsWithdrawable, changed_at, current, renewed, without_last};
ghost use Rattle.tip_machine.specs.States.{State};
ghost use Rattle.tip_machine.specs.Types.{seen};
ghost use Rattle.tip_kept.specs.Keeping.{rows_at};
ghost use Rattle.tip_recovery.specs.Adopting.{are_adopted, loaded, stored_of};
ghost use Rattle.std.specs.Option.{option_and_then};
ghost use Rattle.tip_rows.specs.Logs.{Log, is_rising, last_epoch};
ghost use Rattle.tip_host.specs.Entries.{bare};
ghost use Rattle.tip_host.specs.Books.{out_of};
ghost use Rattle.tip_host.specs.Hosts.{known};
ghost use Rattle.tip_host.specs.Renewals.{AreKeptBut, IsReason, next_epoch};
ghost use Rattle.tip_outbox.specs.Waiting.{waiting};
ghost use Rattle.tip_table.specs.Kept.{of};

use crate::books::Books;
use crate::host::Host;
use crate::opening::Opening;
use std::alloc::{AllocError, Global};
use tip_core::Left;
use tip_machine::next_epoch;
use tip_recovery::Recovery;
use tip_rows::RowLog;
use tip_stored::RenewFault;

impl<S: RowLog + Drop> Host<S> {
    /// What is stored of a realm: boxes are adopted for its rows, and it is renewed by it. Faults are NoRealm, NotRead, BadRow and
    /// Memory; all stays but the store's count of faults.
    pub fn doubts(&mut self, alloc: Global, realm: usize) -> Result<Recovery, RenewFault>
        requires { Always }
        ensures store { Goes S.keeping
            (was_refused (λ fault. fault) result) ReadsAlone Never self.old.stored.store
            self.new.stored.store }
        ensures rest { self.new ≡ record self.old {
          stored = record self.old.stored { store = self.new.stored.store };
        } }
        ensures here { OnOk result (realm_at self.old.stored.core realm ≢ None) }
        ensures absent { realm_at self.old.stored.core realm ≡ None →
            result ≡ Err RenewFault.NoRealm }
        ensures read { (log : Log) (state : State) → S.keeping.stands self.old.stored.store log →
            realm_at self.old.stored.core realm ≡ Some state →
            S.keeping.is_true self.new.stored.store →
            IfOk result (IsRead log state.head.name) }
        ensures reason { (log : Log) (state : State) → S.keeping.stands self.old.stored.store log →
            realm_at self.old.stored.core realm ≡ Some state →
            S.keeping.is_true self.new.stored.store →
            IfErr result (IsReasonToDoubt log state.head.name) }
    {
        self.stored.doubts(alloc, realm)
    }

    /// A realm starts again while the others run, by what `doubts` said of it, once boxes were adopted for its rows. Its journal
    /// ends, and is kept; the next one begins with these rows and boxes. What waited to go out on its connections is gone; its
    /// parties that are out stay out. It is refused first by rows that are not its stored ones, word for word. Where it is refused all
    /// is as it was.
    pub fn renew(
        &mut self,
        alloc: Global,
        realm: usize,
        recovery: Recovery,
    ) -> Result<Left, (RenewFault, Recovery)>
        requires { Always }
        ensures store { (state : State) → realm_at self.old.stored.core realm ≡ Some state →
            Rises S.keeping (λ fault. fault.0)
            state.head.name result self.old.stored.store self.new.stored.store }
        ensures absent { realm_at self.old.stored.core realm ≡ None →
            self.new.stored.store ≡ self.old.stored.store }
        ensures renewed { (state : State) → realm_at self.old.stored.core realm ≡ Some state →
            IfOk result (λ left. IsRenewed S.keeping recovery state self.old.stored.store
            self.new.stored.store (realm_at self.new.stored.core realm)) }
        ensures connections { (state : State) → realm_at self.old.stored.core realm ≡ Some state →
            IfOk result (λ left. left.connections.items ≡ state.connections) }
        ensures transactions { (state : State) → realm_at self.old.stored.core realm ≡ Some state →
            IfOk result (λ left. map seen left.transactions.items ≡ state.transactions) }
        ensures journal { (state : State) → realm_at self.old.stored.core realm ≡ Some state →
            OnOk result (bare self.new.books.journals ≡ renewed realm
            (begun (state.head.epoch + 1) (map loaded recovery.rows))
            (bare self.old.books.journals)) }
        ensures lines { OnOk result
            ((number : ℕ) → waiting self.new.books.outboxes realm number ≡ []) }
        ensures others { AreKeptBut realm self.old self.new }
        ensures same { IfErr result (λ fault. (place : ℕ) →
            realm_at self.new.stored.core place ≡ realm_at self.old.stored.core place) }
        ensures retired { self.new.books.retired ≡ self.old.books.retired }
        ensures still { OnErr result ((bare self.new.books.journals ≡ bare self.old.books.journals)
            × (self.new.books.outboxes ≡ self.old.books.outboxes)) }
        ensures back { IfErr result (λ fault. fault.1 ≡ recovery) }
        ensures stored { OnOk result
            (rows_at self.old.books.rows realm ≡ stored_of recovery.rows) }
        ensures kept { (place : ℕ) →
            rows_at self.new.books.rows place ≡ rows_at self.old.books.rows place }
        ensures out { (place : ℕ) → out_of self.new.books place ≡ out_of self.old.books place }
        ensures taken { (place : ℕ) →
            of self.new.books.out place ≡ of self.old.books.out place }
        ensures known { (state : State) → realm_at self.old.stored.core realm ≡ Some state →
            OnOk result (KnowsRenewed (known self.old) (known self.new) realm state
            (map loaded recovery.rows)) }
        ensures reason { (log : Log) (state : State) → S.keeping.stands self.old.stored.store log →
            realm_at self.old.stored.core realm ≡ Some state →
            S.keeping.is_true self.new.stored.store →
            IfErr result (λ fault.
            IsReason log state (rows_at self.old.books.rows realm) recovery fault.0) }
        ensures here { OnOk result (realm_at self.old.stored.core realm ≢ None) }
        ensures nowhere { realm_at self.old.stored.core realm ≡ None →
            self.old.stored.is_stopped ≡ false → IfErr result (λ fault. fault.0 ≡ NoRealm) }
        ensures names { OnOk result (HaveNames self.new.stored.core) }
        ensures stopped { self.new.stored.is_stopped ≡ self.old.stored.is_stopped }
        ensures stopping { IfErr result
            (λ fault. (fault.0 ≡ Stopped) ↔ (self.old.stored.is_stopped ≡ true)) }
    {
        let Some(epoch) = self.next_epoch(realm) else {
            return self.stored.renew(alloc, realm, recovery);
        };
        if !are_stored(&self.books, realm, &recovery) {
            return Err((RenewFault::NotInDoubt, recovery));
        }
        let Ok(()) = begin(alloc, &mut self.books, realm, epoch, &recovery) else {
            return Err((RenewFault::Memory, recovery));
        };
        match self.stored.renew(alloc, realm, recovery) {
            Ok(left) => {
                clear(&mut self.books, realm);
                Ok(left)
            }
            Err(fault) => {
                withdraw(&mut self.books, realm);
                Err(fault)
            }
        }
    }

    /// The epoch in which a realm may start again; None where it may not, since the host is stopped, the realm is not there, or its
    /// epoch is the last.
    fn next_epoch(&self, realm: usize) -> Option<u32>
        ensures { result
            ≡ next_epoch self.now.stored.is_stopped (realm_at self.now.stored.core realm) }
    {
        if self.stored.is_stopped {
            return None;
        }
        next_epoch(self.stored.core.heads(), realm)
    }
}

/// Whether these are the stored rows of a realm, word for word.
pub(crate) fn are_stored(books: &Books, realm: usize, recovery: &Recovery) -> bool
    requires { Always }
    ensures same { IsTrue result ↔ (rows_at books.now.rows realm ≡ stored_of recovery.now.rows) }
    ensures rising { is_rising (stored_of recovery.now.rows) ≡ true }
{
    books.rows.are(realm, recovery.rows())
}

/// A realm's next journal begins. Without memory all is as before.
fn begin(
    alloc: Global,
    books: &mut Books,
    realm: usize,
    epoch: u32,
    recovery: &Recovery,
) -> Result<(), AllocError>
    requires always { Always }
    requires later { IsSomeAnd (current books.old.journals realm)
        (λ journal. journal.epoch < epoch) }
    ensures begun { OnOk result (books.new.journals
        ≡ renewed realm (begun epoch (map loaded recovery.now.rows)) books.old.journals) }
    ensures boxed { are_adopted recovery.now.rows ≡ true →
        OnOk result (are_boxed (map loaded recovery.now.rows) ≡ true) }
    ensures same { OnErr result (books.new.journals ≡ books.old.journals) }
    ensures rest { books.new ≡ record books.old { journals = books.new.journals } }
{
    let opening = Opening::of(alloc, recovery.rows())?;
    books.journals.renew(alloc, realm, epoch, opening)
}

/// What waits in a realm is gone.
fn clear(books: &mut Books, realm: usize)
    requires always { Always }
    ensures own { (number : ℕ) → waiting books.new.outboxes realm number ≡ [] }
    ensures others { (other number : ℕ) → other ≢ realm →
        waiting books.new.outboxes other number ≡ waiting books.old.outboxes other number }
    ensures rest { books.new ≡ record books.old { outboxes = books.new.outboxes } }
{
    books.outboxes.clear(realm);
}

/// A realm's last journal, which has no entry, is gone.
fn withdraw(books: &mut Books, realm: usize)
    requires always { Always }
    requires last { IsSomeAnd (slice_get books.old.journals realm) IsWithdrawable }
    ensures { books.new ≡ record books.old
        { journals = changed_at realm without_last books.old.journals } }
{
    books.journals.withdraw(realm);
}
