//! Journals that a host lets go.
ghost use Rattle.std.specs.Prelude.{◌≡◌, ◌↔◌, None, Err, IfSome, OnErr, OnOk};
ghost use Rattle.tip_journal.specs.Audit.{IsAudited};
ghost use Rattle.tip_journal.specs.Retiring.{ended_at};
ghost use Rattle.tip_host.specs.Books.{CanCount, LetsGo};

use crate::books::Books;
use crate::host::Host;
use std::alloc::Global;
use tip_honest::Entry;
use tip_journal::{Pass, RetireFault};
use tip_rows::RowLog;

impl<S: RowLog + Drop> Host<S> {
    /// Lets go of the journal of an epoch that has ended, the oldest of its realm, once these passes have its entries, each in one
    /// pass, once; the passes let go of them too, and how many they were is kept. So a host that goes on for ever keeps the current
    /// journals, and those whose entries no passes have shown yet. A fault leaves all as it was.
    pub fn retire(
        &mut self,
        alloc: Global,
        realm: usize,
        epoch: u32,
        passes: &mut [Pass<Entry>],
    ) -> Result<(), RetireFault>
        ensures retired { OnOk result
            (LetsGo self.old.books self.new.books realm epoch passes.old passes.new) }
        ensures absent { (result ≡ Err RetireFault.NotEnded)
            ↔ (ended_at self.old.books.journals realm epoch ≡ None) }
        ensures mismatch { result ≡ Err RetireFault.PassMismatch →
            IfSome (ended_at self.old.books.journals realm epoch)
            (λ journal. ¬ IsAudited realm epoch journal.entries passes.old) }
        ensures same { OnErr result (self.new ≡ self.old) }
        ensures passes { OnErr result (passes.new ≡ passes.old) }
        ensures rest { self.new ≡ record self.old {
          books = record self.old.books {
            journals = self.new.books.journals;
            retired = self.new.books.retired;
          };
        } }
    {
        let_go(alloc, &mut self.books, realm, epoch, passes)
    }
}

/// The oldest journal of a realm is let go, and counted.
fn let_go(
    alloc: Global,
    books: &mut Books,
    realm: usize,
    epoch: u32,
    passes: &mut [Pass<Entry>],
) -> Result<(), RetireFault>
    requires { IfSome (ended_at books.old.journals realm epoch)
        (λ journal. CanCount books.old.retired realm) }
    ensures retired { OnOk result
        (LetsGo books.old books.new realm epoch passes.old passes.new) }
    ensures absent { (result ≡ Err RetireFault.NotEnded)
        ↔ (ended_at books.old.journals realm epoch ≡ None) }
    ensures mismatch { result ≡ Err RetireFault.PassMismatch →
        IfSome (ended_at books.old.journals realm epoch)
        (λ journal. ¬ IsAudited realm epoch journal.entries passes.old) }
    ensures same { OnErr result (books.new ≡ books.old) }
    ensures passes { OnErr result (passes.new ≡ passes.old) }
    ensures rest { books.new ≡ record books.old {
      journals = books.new.journals;
      retired = books.new.retired;
    } }
{
    let entries = books.journals.retire(alloc, realm, epoch, passes)?;
    books.retired[realm].add(entries);
    Ok(())
}
