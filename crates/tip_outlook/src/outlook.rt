//! A transaction as an event will leave it, and the change of its row that it wants then (RFC 2371, sections 10 and 13).
ghost use Rattle.std.specs.Prelude.{◌≡◌, None, Some, IfOk};
ghost use Rattle.tip_line.specs.declared.command.CommandName.TheVariants.{Prepare};
ghost use Rattle.tip_branch.specs.Notes.{PartyNotes};
ghost use Rattle.tip_machine.specs.Transactions.{members_at, noting, standing_at, is_spent};
ghost use Rattle.tip_txn.specs.Parts.{answered};
ghost use Rattle.tip_machine.specs.Types.{seen};
ghost use Rattle.tip_machine.specs.declared.event.Change.TheVariants.{Put};
ghost use Rattle.tip_machine.specs.declared.transaction.PartyPlace.TheVariants.{Here, Spent};
ghost use Rattle.tip_outlook.specs.Noting.{noted};
ghost use Rattle.tip_outlook.specs.Endings.{Agrees, Concludes, Follows, Reminds, waiting};
ghost use Rattle.tip_outlook.specs.Wanting.{asked, committed_of, finished, in_doubt_of, is_over, outlook, pairs_of, promised_of};

use crate::next::{Ending, Endings, Next};
use crate::noting::Note;
use crate::others::{Others, decide_noting};
use crate::rows::promised;
use std::alloc::{AllocError, Global};
use std::marker::Model;
use tip_branch::Member;
use tip_line::{Address, CommandName, Id};
use tip_machine::{Change, Origin, PartyPlace, Transaction};
use tip_rows::{Branches, Row, Subordinates};
use tip_txn::{Ballot, Decision, Part, Phase};

/// A transaction, and what will be otherwise once the event at hand is noted.
#[derive(Drop)]
pub struct Outlook<'a> {
    transaction: &'a Transaction,
    phase: Phase,
    /// What its answers will decide.
    decision: Decision,
    /// The branches of its party, where it will be here.
    members: &'a [Member],
    /// Whether its party will be let go.
    spent: bool,
    others: Others<'a>,
}

impl<'a> Model for Outlook<'a> {
    ghost use Rattle.tip_outlook.specs.Wanting.{Outlook};

    ghost Value = { Outlook };

    ghost view = { λ o. record {
      key = o.transaction.now.key;
      origin = o.transaction.now.origin;
      branches = o.transaction.now.branches;
      phase = o.phase;
      decision = o.decision;
      members = o.members.now;
      spent = o.spent;
      others = o.others;
    } };
}

impl<'a> Outlook<'a> {
    /// As it is.
    #[tactic(auto, using(crate::proofs::Outlooks::deciding))]
    pub fn of(transaction: &'a Transaction) -> Outlook<'a>
        ensures { result ≡ outlook (seen transaction.now) }
    {
        Outlook {
            transaction,
            phase: transaction.txn.phase(),
            decision: transaction.txn.decide(),
            members: members_at(&transaction.place),
            spent: is_spent(&transaction.place),
            others: Others::of(&transaction.txn),
        }
    }

    /// Once all its parties are asked.
    #[tactic(auto, using(crate::proofs::Outlooks::going_away))]
    pub fn asked(transaction: &'a Transaction) -> Outlook<'a>
        ensures { result ≡ outlook (asked (seen transaction.now)) }
    {
        Outlook {
            transaction,
            phase: Phase::Asking,
            decision: transaction.txn.decide(),
            members: &[],
            spent: is_spent(&transaction.place),
            others: Others::of(&transaction.txn),
        }
    }

    /// Once its party, of these branches, has voted so.
    #[tactic(auto, using(crate::proofs::Outlooks::deciding))]
    pub fn voted(transaction: &'a Transaction, answer: Ballot, members: &'a [Member]) -> Outlook<'a>
        ensures { (party : PartyNotes) → members.now ≡ party.members →
            result ≡ outlook
            (noting 0 (answered answer) (standing_at (Here party) (seen transaction.now))) }
    {
        Outlook {
            transaction,
            phase: transaction.txn.phase(),
            decision: transaction.txn.decide_with(answer),
            members,
            spent: false,
            others: Others::of(&transaction.txn),
        }
    }

    /// Once its party, of these branches, is here again.
    #[tactic(auto, using(crate::proofs::Outlooks::deciding))]
    pub fn back(transaction: &'a Transaction, members: &'a [Member]) -> Outlook<'a>
        ensures { (party : PartyNotes) → members.now ≡ party.members →
            result ≡ outlook (standing_at (Here party) (seen transaction.now)) }
    {
        Outlook {
            transaction,
            phase: transaction.txn.phase(),
            decision: transaction.txn.decide(),
            members,
            spent: false,
            others: Others::of(&transaction.txn),
        }
    }

    /// Once its party is let go.
    #[tactic(auto, using(crate::proofs::Outlooks::deciding))]
    pub fn spent(transaction: &'a Transaction) -> Outlook<'a>
        ensures { result ≡ outlook (standing_at Spent (seen transaction.now)) }
    {
        Outlook {
            transaction,
            phase: transaction.txn.phase(),
            decision: transaction.txn.decide(),
            members: &[],
            spent: true,
            others: Others::of(&transaction.txn),
        }
    }

    /// Once this is noted of a part.
    pub fn noted(transaction: &'a Transaction, part: Part, note: &'a Note) -> Outlook<'a>
        ensures { result ≡ outlook (noting part (noted note.now) (seen transaction.now)) }
    {
        Outlook {
            transaction,
            phase: transaction.txn.phase(),
            decision: decide_noting(&transaction.txn, part, note),
            members: members_at(&transaction.place),
            spent: is_spent(&transaction.place),
            others: Others::noting(&transaction.txn, part, note),
        }
    }

    /// What follows, where this is owed to its superior.
    pub fn next(&self, alloc: Global, owed: Option<CommandName>) -> Result<Next, AllocError>
        ensures { IfOk result (Follows self.now owed) }
    {
        match self.phase {
            Phase::Active | Phase::Asking => self.conclude(alloc, owed),
            Phase::Prepared => Ok(Next::done(Ending::Nothing)),
            Phase::Committed => Ok(self.remind()),
            Phase::Aborted => Ok(Next::done(Ending::Abort)),
        }
    }

    /// The answers decide.
    #[tactic(auto, using(crate::proofs::Nexts::concluding))]
    fn conclude(&self, alloc: Global, owed: Option<CommandName>) -> Result<Next, AllocError>
        ensures { IfOk result (Concludes self.now owed) }
    {
        match self.decision {
            Decision::Wait => Ok(Next::done(self.wait())),
            Decision::Commit => self.agree(alloc, owed),
            Decision::Abort => Ok(Next::done(Ending::Abort)),
            Decision::ReadOnly => Ok(Next::done(Ending::Leave)),
        }
    }

    /// While an answer is missing, subordinates are asked as soon as they can be.
    fn wait(&self) -> Ending
        ensures { result ≡ waiting self.now.phase }
    {
        match self.phase {
            Phase::Asking => Ending::Ask,
            Phase::Active | Phase::Prepared | Phase::Committed | Phase::Aborted => Ending::Nothing,
        }
    }

    /// All agree: what is stored before anybody is told hangs on what the superior asked. Refused, it is aborted.
    #[tactic(auto, using(crate::proofs::Nexts::agreeing))]
    fn agree(&self, alloc: Global, owed: Option<CommandName>) -> Result<Next, AllocError>
        ensures { IfOk result (Agrees self.now owed) }
    {
        match owed {
            Some(CommandName::Prepare) => self.promise(alloc),
            Some(CommandName::Commit) => Ok(Next {
                change: Some(self.committing(alloc)?),
                endings: Endings {
                    stored: Ending::Commit,
                    refused: Ending::Abort,
                },
            }),
            _ => Ok(Next::done(Ending::Nothing)),
        }
    }

    /// PREPARE was asked: the row in doubt is stored, where the superior said where it is.
    #[tactic(auto, using(crate::proofs::Nexts::promising))]
    fn promise(&self, alloc: Global) -> Result<Next, AllocError>
        ensures { IfOk result (Agrees self.now (Some Prepare)) }
    {
        match &self.transaction.origin {
            Origin::Subordinate {
                address: Some(address),
                superior,
            } => Ok(Next {
                change: Some(self.put(self.row_in_doubt(alloc, address, superior)?)),
                endings: Endings {
                    stored: Ending::Promise,
                    refused: Ending::Abort,
                },
            }),
            Origin::Subordinate {
                address: None,
                superior: _,
            }
            | Origin::Root => Ok(Next::done(Ending::Nothing)),
        }
    }

    /// Committed: parts that are reached again are told, and it is forgotten once all have acknowledged.
    #[tactic(auto, using(crate::proofs::Nexts::reminding))]
    fn remind(&self) -> Next
        ensures { Reminds self.now result }
    {
        match self.finished() {
            Some(change) => Next {
                change: Some(change),
                endings: Endings {
                    stored: Ending::Finish,
                    refused: Ending::Remind,
                },
            },
            None => Next::done(Ending::Remind),
        }
    }

    /// The committed row is stored.
    pub fn committing(&self, alloc: Global) -> Result<Change, AllocError>
        ensures { IfOk result (λ change. change ≡ Put self.now.key (committed_of self.now)) }
    {
        Ok(self.put(self.row_committed(alloc)?))
    }

    /// A row of the transaction is stored.
    fn put(&self, row: Row) -> Change
        ensures { result ≡ Put self.now.key row }
    {
        Change::Put {
            key: self.transaction.key,
            row,
        }
    }

    /// The row of a transaction in doubt, whose superior is there.
    fn row_in_doubt(
        &self,
        alloc: Global,
        address: &Address,
        superior: &Id,
    ) -> Result<Row, AllocError>
        ensures { IfOk result (λ row. row ≡ in_doubt_of address.now superior.now self.now) }
    {
        Ok(Row::Prepared {
            address: address.copy()?,
            superior: superior.copy()?,
            branches: self.promised(alloc)?,
            subordinates: self.pairs(alloc)?,
        })
    }

    /// The row of a transaction that is committed.
    fn row_committed(&self, alloc: Global) -> Result<Row, AllocError>
        ensures { IfOk result (λ row. row ≡ committed_of self.now) }
    {
        Ok(Row::Committed {
            branches: self.promised(alloc)?,
            subordinates: self.pairs(alloc)?,
        })
    }

    /// The branches that promised to commit.
    fn promised(&self, alloc: Global) -> Result<Branches, AllocError>
        ensures { IfOk result (λ branches. branches ≡ promised_of self.now) }
    {
        promised(alloc, &self.transaction.branches, self.members)
    }

    /// The subordinates that promised to commit.
    fn pairs(&self, alloc: Global) -> Result<Subordinates, AllocError>
        ensures { IfOk result (λ pairs. pairs ≡ pairs_of self.now.others) }
    {
        self.others.pairs(alloc)
    }

    /// The row is removed once all has been told that was to be told.
    pub fn finished(&self) -> Option<Change>
        ensures { result ≡ finished self.now }
    {
        if !self.is_over() {
            return None;
        }
        Some(Change::Remove {
            key: self.transaction.key,
        })
    }

    /// Whether its party is let go, and each subordinate has acknowledged.
    fn is_over(&self) -> bool
        ensures { result ≡ is_over self.now }
    {
        self.spent && self.others.are_settled()
    }
}

/// The branches of the party, where it is here.
fn members_at(place: &PartyPlace) -> &[Member]
    ensures { result.now ≡ members_at place.now }
{
    match place {
        PartyPlace::Here(party) => party.party().members(),
        PartyPlace::Out(_) | PartyPlace::Spent => &[],
    }
}

/// Whether a party is done, and let go.
pub fn is_spent(place: &PartyPlace) -> bool
    ensures { result ≡ is_spent place.now }
{
    matches!(place, PartyPlace::Spent)
}
