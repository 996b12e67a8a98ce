//! A superior that comes back to its transaction (RFC 2371, section 13, RECONNECT).
ghost use Rattle.std.specs.Prelude.{◌≡◌, ◌≤◌, ◌<◌, find, length, option_map, Some, true};
ghost use Rattle.tip_table.specs.Kept.{StandsAt};
ghost use Rattle.tip_machine.specs.Changes.{tell};
ghost use Rattle.tip_machine.specs.Commands.{reconnect, take_over};
ghost use Rattle.tip_machine.specs.Connections.{has_number, is_superior_of};
ghost use Rattle.tip_machine.specs.Failing.{gone};
ghost use Rattle.tip_machine.specs.Given.{are_numbered};
ghost use Rattle.tip_machine.specs.States.{connection_of, transaction_of};
ghost use Rattle.tip_machine.specs.Transactions.{is_prepared};
ghost use Rattle.tip_machine.specs.Types.{Connection as AConnection, Transaction as ATransaction};
ghost use Rattle.tip_machine.specs.declared.answer.Item.TheVariants.{Close};
ghost use Rattle.tip_rules.specs.Works.{Does, work_of};

use crate::making::Making;
use crate::work::Work;
use tip_line::{CommandName, Id};
use tip_machine::{Connection, Item, Role, Said, Transaction};
use tip_outlook::{Numbered, SuperiorOf};
use tip_rows::Key;
use tip_txn::Phase;

impl Work<Connection, Transaction, Making> {
    /// RECONNECT: the superior of a transaction in doubt is here again; an earlier connection of it is closed.
    #[tactic(auto, using(crate::proofs::Superiors::reconnecting))]
    pub fn reconnect(&mut self, number: u32, place: usize, subordinate: &Id)
        requires here { self.old.realm < length self.old.heads.items }
        requires stands { StandsAt self.old.connections self.old.realm (has_number number) place }
        requires numbered { are_numbered (work_of self.old).state ≡ true }
        requires lines { 2 ≤ self.old.making.free }
        ensures { (connection : AConnection) →
            connection_of number (work_of self.old).state ≡ Some connection →
            Does self.old self.new (reconnect subordinate.now connection (work_of self.old)) }
    {
        let Some((key, at)) = self.identified(subordinate) else {
            return self.reply(number, place, CommandName::Reconnect, Said::NotReconnected);
        };
        if is_prepared(self.at(key, at).txn.phase()) {
            self.take_over(key, number, place);
        } else {
            self.reply(number, place, CommandName::Reconnect, Said::NotReconnected);
        }
    }

    /// The superior of this transaction in doubt is here again; an earlier connection of it is closed.
    #[tactic(auto, using(crate::proofs::Superiors::taking_over))]
    fn take_over(&mut self, key: Key, number: u32, place: usize)
        requires stands { StandsAt self.old.connections self.old.realm (has_number number) place }
        requires numbered { are_numbered (work_of self.old).state ≡ true }
        requires in_doubt { (transaction : ATransaction) →
            transaction_of key (work_of self.old).state ≡ Some transaction →
            is_prepared transaction.phase ≡ true }
        requires lines { 2 ≤ self.old.making.free }
        ensures { Does self.old self.new (take_over key number
            (find (is_superior_of key) (work_of self.old).state.connections)
            (work_of self.old)) }
    {
        let earlier = self.superior_number(key);
        let role = Role::Superior(key);
        self.reply_as(
            number,
            place,
            CommandName::Reconnect,
            Said::Reconnected,
            role,
        );
        match earlier {
            Some(earlier) => self.hang_up(earlier),
            None => {}
        }
    }

    /// The number of the connection of a transaction's superior, if there is one.
    #[tactic(auto, using(crate::proofs::Superiors::superiors))]
    fn superior_number(&self, key: Key) -> Option<u32>
        ensures { result ≡ option_map (λ connection. connection.number)
            (find (is_superior_of key) (work_of self.now).state.connections) }
    {
        let place = self.connections.find(self.realm, &SuperiorOf { key })?;
        Some(self.connections.item(place).number)
    }

    /// A connection is closed, and nothing comes of it: its transaction is in doubt.
    #[tactic(auto, using(crate::proofs::Superiors::hanging_up))]
    fn hang_up(&mut self, number: u32)
        requires { 0 < self.old.making.free }
        ensures { (connection : AConnection) →
            connection_of number (work_of self.old).state ≡ Some connection →
            Does self.old self.new (gone connection (tell number Close (work_of self.old))) }
    {
        let Some(place) = self.connections.find(self.realm, &Numbered { number }) else {
            return;
        };
        self.tell(number, Item::Close);
        let _role = self.remove(number, place);
    }
}

/// Whether a transaction is in doubt.
pub(crate) fn is_prepared(phase: Phase) -> bool
    ensures { result ≡ is_prepared phase }
{
    matches!(phase, Phase::Prepared)
}
