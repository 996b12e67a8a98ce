//! What a host keeps of its realms beside its stored core.

use crate::opening::Opening;
use crate::unlinked::Unlinked;
use std::marker::Model;
use tip_branch::PartyNote;
use tip_honest::Entry;
use tip_journal::{Journals, Retired};
use tip_kept::KeptRows;
use tip_outbox::Outboxes;
use tip_stored::PartyOut;
use tip_table::Table;

/// What a host keeps of its realms beside its stored core.
#[derive(Drop)]
pub(crate) struct Books {
    pub(crate) journals: Journals<Opening, Entry>,
    /// How many journals of each realm were let go.
    pub(crate) retired: Vec<Retired>,
    /// Lines and closings that wait to go out.
    pub(crate) outboxes: Outboxes,
    /// The stored rows, as the store has answered.
    pub(crate) rows: KeptRows,
    /// Parties that wait to be taken out for their errand.
    pub(crate) work: Table<Unlinked<PartyOut>>,
    /// How those were sent that were taken out.
    pub(crate) out: Table<Unlinked<PartyNote>>,
}

impl Model for Books {
    ghost use Rattle.std.specs.Coded.{codes};
    ghost use Rattle.tip_host.specs.Books.{Books};
    ghost use Rattle.tip_outbox.specs.contracts.outboxes.Outboxes as e;

    ghost Value = { Books };

    ghost coded = { Prim.hlevel (codes, e.the_row.coded) };

    ghost view = { λ b. record {
      journals = b.journals;
      retired = b.retired.items;
      outboxes = b.outboxes;
      rows = b.rows;
      work = b.work;
      out = b.out;
    } };
}
