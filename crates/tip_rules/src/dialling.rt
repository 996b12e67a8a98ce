//! Connections that we open (RFC 2371, section 13, IDENTIFY).
ghost use Rattle.std.specs.Prelude.{◌≡◌, ◌<◌, ◌+◌, length, Some, true};
ghost use Rattle.tip_machine.specs.Changes.{tell};
ghost use Rattle.tip_machine.specs.Connections.{dialled};
ghost use Rattle.tip_machine.specs.Requests.{added, dial};
ghost use Rattle.tip_machine.specs.declared.answer.Asked.TheVariants.{Identify as AnIdentify};
ghost use Rattle.tip_machine.specs.declared.answer.Item.TheVariants.{Ask};
ghost use Rattle.tip_rules.specs.Works.{Does, work_of};

use crate::making::Making;
use crate::work::Work;
use tip_branch::HeldFresh;
use tip_conn::{Side, State};
use tip_line::Address;
use tip_machine::{Asked, Awaited, Connection, Item, Purpose, Transaction};

impl Work<Connection, Transaction, Making> {
    /// We open a connection, where the realm has a place, and identify ourselves.
    #[tactic(auto, using(crate::proofs::Dials::dialling))]
    pub fn dial(&mut self, address: Address, purpose: Purpose, boxes: HeldFresh)
        requires here { self.old.realm < length self.old.heads.items }
        requires counted { (work_of self.old).state.head.given
            < (work_of self.old).state.head.entries }
        requires free { 0 < self.old.connections.free }
        requires lines { 0 < self.old.making.free }
        requires peer { self.old.making.peer ≡ Some address }
        requires ours { self.old.making.ours ≡ Some (work_of self.old).state.head.address }
        ensures { Does self.old self.new (dial address purpose boxes (work_of self.old)) }
    {
        if !self.has_place(boxes.len()) {
            return self.turn_away(boxes);
        }
        let (theirs, ours) = self.making.take_addresses();
        self.connect(ours, theirs, address, purpose, boxes);
    }

    /// A connection that we open is added, and IDENTIFY said on it.
    #[tactic(auto, using(crate::proofs::Dials::connecting))]
    fn connect(
        &mut self,
        ours: Address,
        theirs: Address,
        address: Address,
        purpose: Purpose,
        boxes: HeldFresh,
    )
        requires here { self.old.realm < length self.old.heads.items }
        requires counted { (work_of self.old).state.head.given
            < (work_of self.old).state.head.entries }
        requires free { 0 < self.old.connections.free }
        requires lines { 0 < self.old.making.free }
        ensures { Does self.old self.new (tell ((work_of self.old).state.head.given + 1)
            (Ask (AnIdentify ours theirs))
            (added (dialled address purpose boxes) (work_of self.old))) }
    {
        let seat = self.next_seat();
        self.join(dialled(seat.number, address, purpose, boxes));
        self.show(seat);
        self.tell(seat.number, Item::Ask(Asked::Identify { ours, theirs }));
    }
}

/// A connection that we have just opened: IDENTIFY was said on it.
fn dialled(number: u32, address: Address, purpose: Purpose, boxes: HeldFresh) -> Connection
    ensures { result ≡ dialled address purpose boxes number }
{
    Connection {
        number,
        dialled: true,
        state: State::Initial,
        side: Side::Primary,
        peer: Some(address),
        boxes,
        owed: None,
        awaited: Some(Awaited::Identify(purpose)),
        role: None,
        made: 0,
    }
}
