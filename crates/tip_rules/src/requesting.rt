//! What the host asks to be pushed or pulled, on connections that we opened (RFC 2371, section 13, PUSH and PULL).
ghost use Rattle.std.specs.Prelude.{◌≡◌, ◌<◌, find, length, Some, true};
ghost use Rattle.tip_table.specs.Kept.{StandsAt, of};
ghost use Rattle.tip_machine.specs.Connections.{has_number, is_free};
ghost use Rattle.tip_machine.specs.Given.{are_numbered};
ghost use Rattle.tip_machine.specs.Requests.{ask_pull, ask_push, pull_if, pull_new, push_part};
ghost use Rattle.tip_machine.specs.States.{connection_of, identified_by, seated};
ghost use Rattle.tip_machine.specs.Transactions.{is_known};
ghost use Rattle.tip_machine.specs.Types.{Connection as AConnection};
ghost use Rattle.tip_machine.specs.declared.answer.Asked.TheVariants.{Push as APush};
ghost use Rattle.tip_rules.specs.Growing.{CanGrow, key_in};
ghost use Rattle.tip_rules.specs.Works.{Does, MayMake, peer_of, work_of};

use crate::making::Making;
use crate::work::Work;
use tip_conn::State;
use tip_line::{Id, Refusal};
use tip_machine::{Asked, Awaited, Connection, Origin, Role, Seat, Transaction};

impl Work<Connection, Transaction, Making> {
    /// Our transaction is pushed to the other side, on a connection that is there and free.
    #[tactic(auto, using(crate::proofs::Requests::asking_push))]
    pub(crate) fn ask_push(&mut self, seat: Seat, id: &Id)
        requires here { self.old.realm < length self.old.heads.items }
        requires numbered { are_numbered (work_of self.old).state ≡ true }
        requires peer { self.old.making.peer ≡ peer_of seat.number (work_of self.old).state }
        requires part { CanGrow (work_of self.old).state.head.name id.now
            (of self.old.transactions self.old.realm) }
        requires lines { 0 < self.old.making.free }
        ensures { Does self.old self.new
            (ask_push (seated seat (work_of self.old).state) id.now (work_of self.old)) }
    {
        let Some(place) = self.seated(seat) else {
            return self.refuse(Refusal::Stale);
        };
        if is_free(self.connection(seat.number, place)) {
            self.push_out(seat.number, place, id);
        } else {
            self.refuse(Refusal::Busy);
        }
    }

    /// The other side becomes a part at once, where the transaction is active.
    fn push_out(&mut self, number: u32, place: usize, id: &Id)
        requires here { self.old.realm < length self.old.heads.items }
        requires stands { StandsAt self.old.connections self.old.realm (has_number number) place }
        requires peer { self.old.making.peer ≡ peer_of number (work_of self.old).state }
        requires part { CanGrow (work_of self.old).state.head.name id.now
            (of self.old.transactions self.old.realm) }
        requires lines { 0 < self.old.making.free }
        ensures { (connection : AConnection) →
            connection_of number (work_of self.old).state ≡ Some connection →
            Does self.old self.new (push_part (identified_by id.now (work_of self.old).state)
            connection.peer connection.number (work_of self.old)) }
    {
        let address = self.making.take_peer();
        match self.join_part(id, address, None) {
            Some(role) => self.send_as(number, place, Awaited::Push, pushed(&role), role),
            None => self.refuse(Refusal::NotActive),
        }
    }

    /// The other side's transaction is pulled here, on a connection that is there and free.
    #[tactic(auto, using(crate::proofs::Requests::asking_pull))]
    pub(crate) fn ask_pull(&mut self, seat: Seat, superior: Id)
        requires here { self.old.realm < length self.old.heads.items }
        requires numbered { are_numbered (work_of self.old).state ≡ true }
        requires able { MayMake seat.number self.old }
        requires peer { self.old.making.peer ≡ peer_of seat.number (work_of self.old).state }
        requires word { self.old.making.word ≡ Some superior }
        requires lines { 0 < self.old.making.free }
        ensures { Does self.old self.new
            (ask_pull (seated seat (work_of self.old).state) superior (work_of self.old)) }
    {
        let Some(place) = self.seated(seat) else {
            return self.refuse(Refusal::Stale);
        };
        if is_free(self.connection(seat.number, place)) {
            self.pull_in(seat.number, place, superior);
        } else {
            self.refuse(Refusal::Busy);
        }
    }

    /// One that is here already is not pulled again.
    #[tactic(auto, using(crate::proofs::Requests::pulling_in))]
    fn pull_in(&mut self, number: u32, place: usize, superior: Id)
        requires here { self.old.realm < length self.old.heads.items }
        requires stands { StandsAt self.old.connections self.old.realm (has_number number) place }
        requires able { MayMake number self.old }
        requires peer { self.old.making.peer ≡ peer_of number (work_of self.old).state }
        requires word { self.old.making.word ≡ Some superior }
        requires lines { 0 < self.old.making.free }
        ensures { (connection : AConnection) →
            connection_of number (work_of self.old).state ≡ Some connection →
            Does self.old self.new (pull_if
            (find (is_known connection.peer superior) (work_of self.old).state.transactions)
            superior connection (work_of self.old)) }
    {
        let connection = self.connection(number, place);
        match self.known(&connection.peer, &superior) {
            Some(_) => self.refuse(Refusal::Known),
            None => self.pull_new(number, place, superior),
        }
    }

    /// It is made here, where the realm has room.
    fn pull_new(&mut self, number: u32, place: usize, superior: Id)
        requires here { self.old.realm < length self.old.heads.items }
        requires stands { StandsAt self.old.connections self.old.realm (has_number number) place }
        requires able { MayMake number self.old }
        requires peer { self.old.making.peer ≡ peer_of number (work_of self.old).state }
        requires word { self.old.making.word ≡ Some superior }
        requires lines { 0 < self.old.making.free }
        ensures { (connection : AConnection) →
            connection_of number (work_of self.old).state ≡ Some connection →
            Does self.old self.new (pull_new superior connection (work_of self.old)) }
    {
        let (address, word) = self.making.take_question();
        let origin = Origin::Subordinate { address, superior };
        match self.make_where_room(number, place, origin) {
            Some(subordinate) => self.send(
                number,
                place,
                Awaited::Pull,
                Asked::Pull {
                    superior: word,
                    subordinate,
                },
            ),
            None => self.refuse(Refusal::Full),
        }
    }
}

/// Whether we opened a connection on which nothing is under way.
pub(crate) fn is_free(connection: &Connection) -> bool
    ensures { result ≡ is_free connection.now }
{
    connection.dialled && connection.state == State::Idle && connection.awaited.is_none()
}

/// How the other side is asked to take a part of the transaction that it joins in this role.
fn pushed(role: &Role) -> Asked
    ensures { result ≡ APush (key_in role.now) }
{
    match role {
        Role::Superior(key) => Asked::Push(*key),
        Role::Subordinate { key, part: _ } => Asked::Push(*key),
    }
}
