//! One stored row that is taken up again.
ghost use Rattle.std.specs.Prelude.{◌≡◌, ◌↔◌, true, false, None, Some, length, map, IfErr, IfOk, IsTrue, OnErr, OnOk, if◌then◌else◌};
ghost use Rattle.tip_branch.specs.Always.{Always};
ghost use Rattle.tip_rows.specs.Branches.{are_branches};
ghost use Rattle.tip_rows.specs.Rows.{branches_of};
ghost use Rattle.tip_machine.specs.Answers.{identifier};
ghost use Rattle.tip_machine.specs.Recovery.{reopened};
ghost use Rattle.tip_machine.specs.Types.{seen};
ghost use Rattle.tip_machine.specs.declared.head.Head.{Head};
ghost use Rattle.tip_recovery.specs.Renewing.{is_again, is_row_again};
ghost use Rattle.tip_recovery.specs.Adopting.{adopting, are_for, fault_of, is_named, loaded, origin_of, phase_of, subordinates_of, unadopted, waits, with_boxes};

use std::alloc::{AllocError, Global};
use std::marker::Model;
use thiserror::Error;
use tip_branch::{Badge, HeldPrepared, NotesRoom};
use tip_line::{Id, Realm};
use tip_machine::{Origin, PartyPlace, Transaction};
use tip_rows::{Branches, Key, Label, Row, Subordinates};
use tip_txn::{Phase, Txn};

/// Why boxes were not adopted.
#[derive(Clone, Copy, Debug, PartialEq, Eq, Error)]
pub enum AdoptFault {
    #[error("no row of this identifier waits for boxes")]
    NotInDoubt,
    #[error("the row has another number of branches")]
    WrongCount,
}

/// A transaction that a restart left unfinished: its row, and the boxes that were adopted for its branches. All that its
/// transaction takes stands ready, so that taking it up needs no memory.
#[derive(Drop)]
pub struct Unfinished {
    realm: Realm,
    key: Key,
    id: Id,
    row: Row,
    numbers: Vec<u8>,
    txn: Txn,
    notes: NotesRoom,
    boxes: Option<HeldPrepared>,
}

impl Model for Unfinished {
    ghost use Rattle.tip_recovery.specs.Adopting.{IsReady, Unfinished};

    ghost Value = { Unfinished };

    ghost view = { λ u. record { realm = u.realm; key = u.key; row = u.row; boxes = u.boxes } };

    ghost invariant = { λ u. IsReady
        (record { realm = u.realm; key = u.key; row = u.row; boxes = u.boxes }) u.id u.numbers.items
        u.txn };
}

impl Unfinished {
    /// The row of a key of this realm, for which nothing was adopted yet.
    pub fn of(alloc: Global, realm: &Realm, key: Key, row: Row) -> Result<Unfinished, AllocError>
        requires { Always }
        ensures { IfOk result (λ unfinished. unfinished ≡ unadopted realm.now (key, row)) }
    {
        let id = Id::of(alloc, realm, key.epoch(), key.connection(), key.number())?;
        let numbers = numbers_of(alloc, branches_of(&row))?;
        let txn = Txn::of(alloc, phase(&row), subordinates(&row).as_slice())?;
        let notes = NotesRoom::new(alloc)?;
        Ok(Unfinished {
            realm: realm.copy()?,
            key,
            id,
            row,
            numbers,
            txn,
            notes,
            boxes: None,
        })
    }

    /// Its identifier.
    pub fn id(&self) -> &Id
        ensures { result.now ≡ identifier self.now.realm self.now.key }
    {
        &self.id
    }

    /// The key of its row.
    pub fn key(&self) -> Key
        ensures { result ≡ self.now.key }
    {
        self.key
    }

    /// What its boxes are known by, in order, copied; none where none were adopted.
    #[tactic(auto, using(crate::proofs::Readying::one_for_each))]
    pub fn badges(&self, alloc: Global) -> Result<Vec<Badge>, AllocError>
        ensures same { IfOk result (λ known. known.items ≡ (loaded self.now).boxes) }
        ensures counted { waits self.now ≡ false →
            IfOk result (λ known. length known.items ≡ length (branches_of self.now.row)) }
    {
        match &self.boxes {
            Some(boxes) => boxes.badges(alloc),
            None => Ok(Vec::new(alloc)),
        }
    }

    /// Its row.
    pub fn row(&self) -> &Row
        ensures { result.now ≡ self.now.row }
    {
        &self.row
    }

    /// The branches of its row.
    pub fn branches(&self) -> &[(u8, Label)]
        ensures { result.now ≡ branches_of self.now.row }
    {
        branches_of(&self.row)
    }

    /// Whether it waits for boxes.
    pub fn waits(&self) -> bool
        ensures { result ≡ waits self.now }
    {
        !self.numbers.is_empty() && self.boxes.is_none()
    }

    /// Whether it has this identifier.
    pub fn is_named(&self, id: &Id) -> bool
        ensures { result ≡ is_named id.now self.now }
    {
        self.id == *id
    }

    /// These boxes are adopted for its branches, in their order; else they come back, and it stays.
    pub fn adopt(&mut self, boxes: HeldPrepared) -> Result<(), (AdoptFault, HeldPrepared)>
        requires { Always }
        ensures ok { OnOk result
            ((fault_of boxes self.old ≡ None) × (self.new ≡ adopting boxes self.old)) }
        ensures err { IfErr result
            (λ fault. (fault_of boxes self.old ≡ Some fault.0) × (fault.1 ≡ boxes)) }
        ensures same { OnErr result (self.new ≡ self.old) }
    {
        if !self.waits() {
            return Err((AdoptFault::NotInDoubt, boxes));
        }
        if boxes.len() != self.numbers.len() {
            return Err((AdoptFault::WrongCount, boxes));
        }
        self.boxes = Some(boxes);
        Ok(())
    }

    /// These boxes, one for each branch, are adopted for them in their order; a row without branches takes none. It says whether
    /// they fit; where they do not, it stays.
    pub fn adopt_each(&mut self, boxes: HeldPrepared) -> bool
        requires { Always }
        ensures fits { result ≡ are_for boxes self.old }
        ensures adopted { self.new ≡ (if result then with_boxes boxes self.old else self.old) }
    {
        if boxes.len() != self.numbers.len() || self.boxes.is_some() {
            return false;
        }
        if !boxes.is_empty() {
            self.boxes = Some(boxes);
        }
        true
    }

    /// Whether it is this stored row, word for word.
    pub fn is_of(&self, key: Key, row: &Row) -> bool
        ensures { IsTrue result ↔ ((self.now.key ≡ key) × (self.now.row ≡ row.now)) }
    {
        self.key == key && is_row_again(&self.row, row)
    }

    /// Whether it is a later reading of the same transaction's row, which has not changed since.
    pub(crate) fn is_again(&self, earlier: &Unfinished) -> bool
        ensures { result ≡ is_again earlier.now self.now }
    {
        earlier.key == self.key && is_row_again(&earlier.row, &self.row)
    }

    /// Its transaction, in a realm that starts in this epoch.
    pub fn reopen(self, epoch: u32) -> Transaction
        requires { waits self ≡ false }
        ensures { (head : Head) → head.name ≡ self.realm → head.epoch ≡ epoch →
            seen result ≡ reopened head (loaded self).key (loaded self).boxes (loaded self).row }
    {
        let Unfinished {
            realm,
            key,
            id,
            row,
            numbers,
            txn,
            notes,
            boxes,
        } = self;
        let place = match boxes {
            Some(boxes) => PartyPlace::Here(boxes.into_party(notes, realm, epoch, id, &numbers)),
            None => PartyPlace::Spent,
        };
        let (origin, branches) = into_origin(row);
        Transaction {
            key,
            origin,
            place,
            branches,
            txn,
        }
    }
}

/// The branches of a row.
pub fn branches_of(row: &Row) -> &[(u8, Label)]
    ensures same { result.now ≡ branches_of row.now }
    ensures branches { are_branches result.now ≡ true }
{
    match row {
        Row::Prepared { branches, .. } | Row::Committed { branches, .. } => branches.as_slice(),
    }
}

/// The subordinates of a row.
fn subordinates(row: &Row) -> &Subordinates
    ensures { result.now ≡ subordinates_of row.now }
{
    match row {
        Row::Prepared { subordinates, .. } | Row::Committed { subordinates, .. } => subordinates,
    }
}

/// The phase of a row's transaction.
fn phase(row: &Row) -> Phase
    ensures { result ≡ phase_of row.now }
{
    match row {
        Row::Prepared { .. } => Phase::Prepared,
        Row::Committed { .. } => Phase::Committed,
    }
}

/// The numbers of branches.
fn numbers_of(alloc: Global, branches: &[(u8, Label)]) -> Result<Vec<u8>, AllocError>
    ensures { IfOk result (λ numbers. numbers.items ≡ map (λ branch. branch.0) branches.now) }
{
    let mut numbers = Vec::with_capacity(alloc, branches.len())?;
    for (number, _) in branches {
        numbers.push_reserved(*number);
    }
    Ok(numbers)
}

/// Whether two rows are the same, word for word.
fn is_row_again(row: &Row, other: &Row) -> bool
    ensures { result ≡ is_row_again row.now other.now }
{
    match (row, other) {
        (
            Row::Prepared {
                address,
                superior,
                branches,
                subordinates,
            },
            Row::Prepared {
                address: other_address,
                superior: other_superior,
                branches: other_branches,
                subordinates: other_subordinates,
            },
        ) => {
            (address == other_address && superior == other_superior)
                && (branches.as_slice() == other_branches.as_slice()
                    && subordinates.as_slice() == other_subordinates.as_slice())
        }
        (
            Row::Committed {
                branches,
                subordinates,
            },
            Row::Committed {
                branches: other_branches,
                subordinates: other_subordinates,
            },
        ) => {
            branches.as_slice() == other_branches.as_slice()
                && subordinates.as_slice() == other_subordinates.as_slice()
        }
        (Row::Prepared { .. }, Row::Committed { .. })
        | (Row::Committed { .. }, Row::Prepared { .. }) => false,
    }
}

/// Where a row's transaction comes from, and its branches. It takes no memory.
fn into_origin(row: Row) -> (Origin, Branches)
    ensures origin { result.0 ≡ origin_of row }
    ensures branches { result.1 ≡ branches_of row }
{
    match row {
        Row::Prepared {
            address,
            superior,
            branches,
            ..
        } => {
            let address = Some(address);
            (Origin::Subordinate { address, superior }, branches)
        }
        Row::Committed { branches, .. } => (Origin::Root, branches),
    }
}
