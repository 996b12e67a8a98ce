//! Entries, seats and new connections of the realm at hand.
ghost use Rattle.std.specs.Prelude.{◌≡◌, ◌↔◌, ◌+◌, ◌<◌, ◌≤◌, length, None, Some, IfSome, true};
ghost use Rattle.std.specs.List.{find};
ghost use Rattle.tip_table.specs.Kept.{StandsAt, of};
ghost use Rattle.tip_table.specs.Lists.{are_rising};
ghost use Rattle.tip_machine.specs.Answers.{silence};
ghost use Rattle.tip_machine.specs.Connections.{has_number};
ghost use Rattle.tip_machine.specs.Given.{are_numbered, numbers_of};
ghost use Rattle.tip_line.specs.declared.refusal.Refusal.TheVariants.{Full};
ghost use Rattle.tip_machine.specs.Changes.{refuse};
ghost use Rattle.tip_machine.specs.Requests.{hand_back, lost, opened};
ghost use Rattle.tip_machine.specs.States.{connection_of, has_place, seated};
ghost use Rattle.tip_machine.specs.Steps.{entered, is_open};
ghost use Rattle.tip_rules.specs.Works.{connected, counting, Does, IsIdle, joining, lines_at, showing, work_of};

use crate::making::Making;
use crate::work::Work;
use tip_branch::HeldFresh;
use tip_line::Refusal;
use tip_machine::{Connection, Head, Seat, Transaction};
use tip_outlook::ByNumber;
use tip_table::Table;

impl Work<Connection, Transaction, Making> {
    /// Whether the realm's journal has room for an entry.
    pub(crate) fn is_open(&self) -> bool
        requires { self.now.realm < length self.now.heads.items }
        ensures { result ≡ is_open (work_of self.now).state }
    {
        let head = &self.heads[self.realm];
        head.entries < head.limits.entries
    }

    /// The event at hand takes the next entry of the realm's journal.
    pub(crate) fn take_entry(&mut self)
        requires here { self.old.realm < length self.old.heads.items }
        requires below { is_open (work_of self.old).state ≡ true }
        requires silent { self.old.making.answer ≡ silence }
        ensures does { Does self.old self.new (entered (work_of self.old).state) }
        ensures rest { self.new ≡ record self.old {
          heads = self.new.heads;
          making = record self.old.making { answer = self.new.making.answer };
        } }
    {
        let head = &mut self.heads[self.realm];
        let _most = head.limits.entries;
        head.entries += 1;
        self.making.enter(head.entries);
    }

    /// Where the connection of a seat stands, if the realm has it.
    pub(crate) fn seated(&self, seat: Seat) -> Option<usize>
        requires here { self.now.realm < length self.now.heads.items }
        requires numbered { are_numbered (work_of self.now).state ≡ true }
        ensures none { (result ≡ None) ↔ (seated seat (work_of self.now).state ≡ None) }
        ensures some { IfSome result
            (λ place. StandsAt self.now.connections self.now.realm (has_number seat.number) place) }
        ensures same { IfSome result (λ place. seated seat (work_of self.now).state
            ≡ connection_of seat.number (work_of self.now).state) }
    {
        seat_place(&self.heads[self.realm], &self.connections, self.realm, seat)
    }

    /// A connection was lost, if it was there.
    #[tactic(auto, using(crate::proofs::Openings::losing))]
    pub fn lost(&mut self, seat: Seat)
        requires here { self.old.realm < length self.old.heads.items }
        requires numbered { are_numbered (work_of self.old).state ≡ true }
        requires lines { lines_at seat.number (work_of self.old).state ≤ self.old.making.free }
        requires none { IsIdle self.old.making.answer }
        ensures { Does self.old self.new
            (lost (seated seat (work_of self.old).state) (work_of self.old)) }
    {
        match self.seated(seat) {
            Some(place) => self.fail(seat.number, place),
            None => self.refuse(Refusal::Stale),
        }
    }

    /// Another manager opens a connection.
    #[tactic(auto, using(crate::proofs::Openings::opening))]
    pub fn open(&mut self, boxes: HeldFresh)
        requires here { self.old.realm < length self.old.heads.items }
        requires counted { (work_of self.old).state.head.given
            < (work_of self.old).state.head.entries }
        requires free { 0 < self.old.connections.free }
        ensures { Does self.old self.new (opened boxes (work_of self.old)) }
    {
        if !self.has_place(boxes.len()) {
            return self.turn_away(boxes);
        }
        let seat = self.next_seat();
        self.join(Connection::accepted(seat.number, boxes));
        self.show(seat);
    }

    /// Whether a connection is free, and no more boxes are handed in than may be.
    pub(crate) fn has_place(&self, boxes: usize) -> bool
        requires { self.now.realm < length self.now.heads.items }
        ensures { result ≡ has_place boxes (work_of self.now).state }
    {
        let limits = self.heads[self.realm].limits;
        self.connections.count(self.realm) < limits.connections as usize
            && boxes <= limits.boxes as usize
    }

    /// No connection is made, and its boxes are handed back.
    pub(crate) fn turn_away(&mut self, boxes: HeldFresh)
        ensures { Does self.old self.new (hand_back boxes (refuse Full (work_of self.old))) }
    {
        self.making.refuse(Refusal::Full);
        self.making.hand_back(boxes);
    }

    /// The seat of the next connection, which is counted.
    pub(crate) fn next_seat(&mut self) -> Seat
        requires here { self.old.realm < length self.old.heads.items }
        requires counted { (work_of self.old).state.head.given
            < (work_of self.old).state.head.entries }
        ensures seat { result ≡ record {
          epoch = (work_of self.old).state.head.epoch;
          number = (work_of self.old).state.head.given + 1;
        } }
        ensures does { Does self.old self.new (counting (work_of self.old)) }
        ensures rest { self.new ≡ record self.old { heads = self.new.heads } }
    {
        let head = &mut self.heads[self.realm];
        let _most = head.entries;
        head.given += 1;
        Seat {
            epoch: head.epoch,
            number: head.given,
        }
    }

    /// A connection joins the realm's, in room that is there.
    #[tactic(auto, using(crate::proofs::Openings::joining_one))]
    pub(crate) fn join(&mut self, connection: Connection)
        requires { 0 < self.old.connections.free }
        ensures does { Does self.old self.new (joining connection (work_of self.old)) }
        ensures rest { self.new ≡ record self.old { connections = self.new.connections } }
    {
        self.connections.add(self.realm, connection);
    }

    /// The new connection is shown.
    pub(crate) fn show(&mut self, seat: Seat)
        ensures does { Does self.old self.new (showing seat (work_of self.old)) }
        ensures rest { self.new ≡ record self.old
            { making = record self.old.making { answer = self.new.making.answer } } }
    {
        self.making.open(seat);
    }
}

/// Where the connection of a seat stands, if the realm of this head has it.
pub(crate) fn seat_place(
    head: &Head,
    connections: &Table<Connection>,
    realm: usize,
    seat: Seat,
) -> Option<usize>
    requires { are_rising (numbers_of (of connections.now realm)) ≡ true }
    ensures none { (result ≡ None) ↔
        (seated seat (connected head.now connections.now realm) ≡ None) }
    ensures some { IfSome result
        (λ place. StandsAt connections.now realm (has_number seat.number) place) }
    ensures same { IfSome result (λ place. seated seat (connected head.now connections.now realm)
        ≡ connection_of seat.number (connected head.now connections.now realm)) }
{
    if seat.epoch != head.epoch {
        return None;
    }
    place_of(connections, realm, seat.number)
}

/// Where the connection of a number stands, if the realm has it.
pub(crate) fn place_of(connections: &Table<Connection>, realm: usize, number: u32) -> Option<usize>
    requires { are_rising (numbers_of (of connections.now realm)) ≡ true }
    ensures none { (result ≡ None) ↔
        (find (has_number number) (of connections.now realm) ≡ None) }
    ensures some { IfSome result
        (λ place. StandsAt connections.now realm (has_number number) place) }
{
    connections.find_ranked(realm, &ByNumber, number as u64)
}
