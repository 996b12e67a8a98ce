//! A subordinate that joins a transaction of ours (RFC 2371, section 13, PULL).
ghost use Rattle.std.specs.Prelude.{◌≡◌, ◌<◌, length, Some};
ghost use Rattle.tip_table.specs.Kept.{StandsAt, of};
ghost use Rattle.tip_machine.specs.Commands.{pull};
ghost use Rattle.tip_machine.specs.Connections.{has_number};
ghost use Rattle.tip_machine.specs.States.{connection_of, identified_by};
ghost use Rattle.tip_machine.specs.Types.{Connection as AConnection};
ghost use Rattle.tip_rules.specs.Growing.{CanGrow, joined_as, joining_part};
ghost use Rattle.tip_rules.specs.Works.{Does, peer_of, work_of};

use crate::making::Making;
use crate::work::Work;
use tip_line::{Address, CommandName, Id};
use tip_machine::{Connection, Role, Said, Transaction};

impl Work<Connection, Transaction, Making> {
    /// PULL: the primary becomes a subordinate of an active transaction, if it gave an address and is no part of it yet.
    pub fn pull(&mut self, number: u32, place: usize, superior: &Id, subordinate: Id)
        requires here { self.old.realm < length self.old.heads.items }
        requires stands { StandsAt self.old.connections self.old.realm (has_number number) place }
        requires peer { self.old.making.peer ≡ peer_of number (work_of self.old).state }
        requires part { CanGrow (work_of self.old).state.head.name superior.now
            (of self.old.transactions self.old.realm) }
        requires lines { 0 < self.old.making.free }
        ensures { (connection : AConnection) →
            connection_of number (work_of self.old).state ≡ Some connection →
            Does self.old self.new (pull superior.now subordinate connection (work_of self.old)) }
    {
        let address = self.making.take_peer();
        match self.join_part(superior, address, Some(subordinate)) {
            Some(role) => self.reply_as(number, place, CommandName::Pull, Said::Pulled, role),
            None => self.reply(number, place, CommandName::Pull, Said::NotPulled),
        }
    }

    /// A subordinate at an address becomes a part of an active transaction, if it is none yet. What its connection is then on
    /// the transaction is given.
    #[tactic(auto, using(crate::proofs::Joining::joining))]
    pub(crate) fn join_part(
        &mut self,
        superior: &Id,
        address: Option<Address>,
        subordinate: Option<Id>,
    ) -> Option<Role>
        requires here { self.old.realm < length self.old.heads.items }
        requires part { CanGrow (work_of self.old).state.head.name superior.now
            (of self.old.transactions self.old.realm) }
        ensures role { result
            ≡ joined_as (identified_by superior.now (work_of self.old).state) address subordinate }
        ensures does { Does self.old self.new (joining_part
            (identified_by superior.now (work_of self.old).state) address subordinate
            (work_of self.old)) }
        ensures rest { self.new ≡ record self.old { transactions = self.new.transactions } }
    {
        let address = address?;
        let (key, place) = self.identified(superior)?;
        let transaction = self.transactions.item_mut(place);
        match transaction.txn.enlist(address, subordinate) {
            Ok(part) => Some(Role::Subordinate { key, part }),
            Err(_) => None,
        }
    }
}
