//! The branches of one transaction, with what they are to do and what is noted of them.

ghost use Rattle.std.specs.Prelude.{◌≡◌, ◌≢◌, ◌≤◌, ◌⊎◌, ◌↔◌, IsTrue, Some, None, length, map, take, drop, vec_len};
ghost use Rattle.std.specs.List.{All, list_any};
ghost use Rattle.tip_branch.specs.Always.{Always};
ghost use Rattle.tip_branch.specs.declared.branch.Phase.TheVariants.{Active, Ready};
ghost use Rattle.tip_branch.specs.declared.member.Errand.TheVariants.{Idle};
ghost use Rattle.tip_branch.specs.Members.{are_numbers, numbers_of, is_ready, outcome, member_of, phase_of, vote_of, call_of};
ghost use Rattle.tip_branch.specs.Votes.{ballot, ballots_of, decided};
ghost use Rattle.tip_txn.specs.Decisions.{Decides, Says};

use crate::branch::{Branch, Phase, Settled, Vote};
use crate::lot::Lot;
use crate::member::{Call, Errand, Member};
use crate::party_room::{NotesRoom, PartyRoom};
use crate::roll::Roll;
use crate::{boxes, telling};
use tip_line::{Id, Realm};
use tip_txn::Ballot;

/// The boxed branches of one transaction. A party that is dropped is spent.
///
/// Beside each box the party keeps a note of it, its `Member`. What the calls below say of the notes
/// holds of every party. That they are the branches' own account is `IsTrueToBoxes`: `new` makes it so,
/// and every call keeps it.
pub struct Party {
    realm: Realm,
    epoch: u32,
    id: Id,
    errand: Errand,
    roll: Roll,
    boxes: Vec<Box<dyn Branch + Send>>,
    ghost counted: { vec_len boxes ≡ length roll },
    ghost numbered: { IsTrue (are_numbers (numbers_of roll)) },
    ghost unanswered: { errand ≢ Idle → All (λ m. m.call ≡ None) roll },
}

impl Party {
    ghost use Rattle.tip_branch.specs.Standings.{let_go};
    ghost use Rattle.tip_branch.specs.Lots.{badges, boxes_in, IsTrueLot};
    ghost use Rattle.tip_branch.specs.Members.{fresh_members, ready_members};
    ghost use Rattle.tip_branch.specs.Notes.{new_party, idle_party, given, ComesBack};
    ghost use Rattle.tip_branch.specs.Parties.{noted, boxes_of, accounts, IsTrueToBoxes, AreCalledAsNoted};

    /// The party of these branches, which have these numbers in its transaction.
    pub fn new(
        notes: NotesRoom,
        realm: Realm,
        epoch: u32,
        id: Id,
        numbers: Vec<u8>,
        boxes: Vec<Box<dyn Branch + Send>>,
    ) -> Party
        requires counted { vec_len numbers ≡ vec_len boxes }
        requires rising { IsTrue (are_numbers numbers.items) }
        ensures noted { noted result
            ≡ new_party realm epoch id numbers.items (map standing boxes.items) }
        ensures own { accounts standing result ≡ map standing boxes.items }
        ensures agrees { IsTrueToBoxes standing result }
    {
        let roll = boxes::enrol(&numbers, &boxes, notes.roll);
        Party {
            realm,
            epoch,
            id,
            errand: Errand::Idle,
            roll,
            boxes,
        }
    }

    /// The party of a new transaction: the first branches of a lot, as many as there is room for.
    pub fn of_first(lot: &mut Lot, room: PartyRoom, realm: Realm, epoch: u32, id: Id) -> Party
        requires { room ≤ length (badges lot.old) }
        ensures noted { noted result
            ≡ idle_party realm epoch id (fresh_members 1 (take room (badges lot.old))) }
        ensures taken { boxes_of result ≡ take room (boxes_in lot.old) }
        ensures agrees { IsTrueLot standing lot.old → lot.old.phase ≡ Active →
            IsTrueToBoxes standing result }
        ensures known { badges lot.new ≡ drop room (badges lot.old) }
        ensures left { boxes_in lot.new ≡ drop room (boxes_in lot.old) }
        ensures phase { lot.new.phase ≡ lot.old.phase }
    {
        let PartyRoom {
            count,
            mut boxes,
            notes,
        } = room;
        let roll = lot.take_first(count, &mut boxes, notes.roll);
        Party::with_roll(realm, epoch, id, roll, boxes)
    }

    /// The party of a transaction that is taken up again: all branches of a lot, which have these
    /// numbers in it.
    pub fn of_ready(
        lot: Lot,
        notes: NotesRoom,
        realm: Realm,
        epoch: u32,
        id: Id,
        numbers: &[u8],
    ) -> Party
        requires counted { length numbers.now ≡ length (badges lot) }
        requires rising { IsTrue (are_numbers numbers.now) }
        ensures noted { noted result
            ≡ idle_party realm epoch id (ready_members numbers.now (badges lot)) }
        ensures taken { boxes_of result ≡ boxes_in lot }
        ensures agrees { IsTrueLot standing lot → lot.phase ≡ Ready →
            IsTrueToBoxes standing result }
    {
        let (roll, boxes) = lot.take_all(numbers, notes.roll);
        Party::with_roll(realm, epoch, id, roll, boxes)
    }

    /// The party of these boxes with these notes.
    fn with_roll(
        realm: Realm,
        epoch: u32,
        id: Id,
        roll: Roll,
        boxes: Vec<Box<dyn Branch + Send>>,
    ) -> Party
        requires counted { vec_len boxes ≡ length roll }
        requires rising { IsTrue (are_numbers (numbers_of roll)) }
        requires forgotten { All (λ m. m.call ≡ None) roll }
        ensures noted { noted result ≡ idle_party realm epoch id roll }
        ensures same { boxes_of result ≡ boxes.items }
    {
        Party {
            realm,
            epoch,
            id,
            errand: Errand::Idle,
            roll,
            boxes,
        }
    }

    pub fn realm(&self) -> &Realm
        ensures { result.now ≡ (noted self.now).realm }
    {
        &self.realm
    }

    /// The epoch of the start that the party belongs to.
    pub fn epoch(&self) -> u32
        ensures { result ≡ (noted self.now).epoch }
    {
        self.epoch
    }

    pub fn id(&self) -> &Id
        ensures { result.now ≡ (noted self.now).id }
    {
        &self.id
    }

    pub fn errand(&self) -> Errand
        ensures { result ≡ (noted self.now).errand }
    {
        self.errand
    }

    /// What is noted of its branches, in order of their numbers.
    pub fn members(&self) -> &[Member]
        ensures same { result.now ≡ (noted self.now).members }
        ensures rising { IsTrue (are_numbers (numbers_of (noted self.now).members)) }
    {
        self.roll.as_slice()
    }

    /// Gives it an errand, and forgets the new calls.
    pub fn give(&mut self, errand: Errand)
        requires { Always }
        ensures given { noted self.new ≡ given (noted self.old) errand }
        ensures own { accounts standing self.new ≡ accounts standing self.old }
        ensures agrees { IsTrueToBoxes standing self.old → IsTrueToBoxes standing self.new }
    {
        self.roll.forget_calls();
        self.errand = errand;
    }

    /// Asks the active members in order, up to the first that says no.
    pub fn vote_all(&mut self) -> Vote
        requires { (noted self.old).errand ≡ Errand.Vote }
        ensures told { ComesBack (noted self.old) (noted self.new) }
        ensures answer { Decides (ballots_of (noted self.new).members) (decided result) }
        ensures own { IsTrueToBoxes standing self.old →
            AreCalledAsNoted standing self.old self.new }
        ensures agrees { IsTrueToBoxes standing self.old → IsTrueToBoxes standing self.new }
    {
        self.carry_out();
        tally(self.roll.as_slice())
    }

    /// Tells each ready member the outcome.
    pub fn settle(&mut self) -> Settled
        requires { ((noted self.old).errand ≡ Errand.Commit) ⊎
            ((noted self.old).errand ≡ Errand.Abort) }
        ensures told { ComesBack (noted self.old) (noted self.new) }
        ensures answer { result ≡ outcome (noted self.new).members }
        ensures own { IsTrueToBoxes standing self.old →
            AreCalledAsNoted standing self.old self.new }
        ensures agrees { IsTrueToBoxes standing self.old → IsTrueToBoxes standing self.new }
    {
        self.carry_out();
        if one_is_ready(self.roll.as_slice()) {
            Settled::Later
        } else {
            Settled::Done
        }
    }

    /// Makes the errand's calls.
    fn carry_out(&mut self)
        requires { (noted self.old).errand ≢ Errand.Idle }
        ensures told { ComesBack (noted self.old) (noted self.new) }
        ensures own { IsTrueToBoxes standing self.old →
            AreCalledAsNoted standing self.old self.new }
        ensures agrees { IsTrueToBoxes standing self.old → IsTrueToBoxes standing self.new }
    {
        telling::tell_all(self.errand, &mut self.boxes, &mut self.roll);
        self.errand = Errand::Idle;
    }

    /// The phase of the member of this number.
    pub fn phase_of(&self, number: u8) -> Option<Phase>
        ensures { result ≡ phase_of number (noted self.now).members }
    {
        Some(self.roll.find(number)?.standing.phase)
    }

    /// What the member of this number voted in this party.
    pub fn vote_of(&self, number: u8) -> Option<Vote>
        ensures { result ≡ vote_of number (noted self.now).members }
    {
        self.roll.find(number)?.vote
    }

    /// The call that was made on the member of this number since the errand was given.
    pub fn call_of(&self, number: u8) -> Option<Call>
        ensures { result ≡ call_of number (noted self.now).members }
    {
        self.roll.find(number)?.call
    }

    /// Aborts each active member, leaves each ready one, and gives the boxes.
    pub fn spend(self) -> Vec<Box<dyn Branch + Send>>
        requires { Always }
        ensures { map standing result.items ≡ map let_go (accounts standing self) }
    {
        let Party {
            realm: _,
            epoch: _,
            id: _,
            errand: _,
            roll: _,
            mut boxes,
        } = self;
        boxes::release_all(&mut boxes);
        boxes
    }
}

impl Drop for Party {
    fn drop(self) {
        let Party {
            realm: _,
            epoch: _,
            id: _,
            errand: _,
            roll: _,
            mut boxes,
        } = self;
        boxes::release_all(&mut boxes);
    }
}

/// Whether these may be the numbers of members: 1 to 8, rising.
pub fn are_numbers(numbers: &[u8]) -> bool
    ensures { result ≡ are_numbers numbers.now }
{
    let mut last = 0;
    for number in numbers {
        if *number <= last || *number > 8 {
            return false;
        }
        last = *number;
    }
    true
}

/// What the members decide: no where one refuses, else yes where one is willing, else read-only.
fn tally(members: &[Member]) -> Vote
    ensures { Decides (ballots_of members.now) (decided result) }
{
    if one_answers(members, Ballot::No) {
        Vote::No
    } else if one_answers(members, Ballot::Yes) {
        Vote::Yes
    } else {
        Vote::ReadOnly
    }
}

fn one_answers(members: &[Member], answer: Ballot) -> bool
    ensures { IsTrue result ↔ Says (ballots_of members.now) (Some answer) }
{
    members.iter().any(|member| answers(member, answer))
}

fn answers(member: &Member, answer: Ballot) -> bool
    ensures { IsTrue result ↔ (ballot member.now ≡ Some answer) }
{
    member.ballot() == Some(answer)
}

fn one_is_ready(members: &[Member]) -> bool
    ensures { result ≡ list_any is_ready members.now }
{
    members.iter().any(|member| member.is_ready())
}
