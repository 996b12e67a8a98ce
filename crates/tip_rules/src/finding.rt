//! Transactions by their identifiers, and by the parties that they gave out.
ghost use Rattle.std.specs.Prelude.{◌≡◌, ◌↔◌, ◌<◌, false, find, length, map, None, IfSome, option_map};
ghost use Rattle.std.specs.Option.{option_map_or};
ghost use Rattle.tip_table.specs.Kept.{StandsAt, of};
ghost use Rattle.tip_machine.specs.Commands.{exists};
ghost use Rattle.tip_machine.specs.Order.{key_found};
ghost use Rattle.tip_machine.specs.Requests.{owner};
ghost use Rattle.tip_machine.specs.States.{identified_by, transaction_of};
ghost use Rattle.tip_machine.specs.Transactions.{has_id, is_known};
ghost use Rattle.tip_machine.specs.Types.{seen};
ghost use Rattle.tip_outlook.specs.Searches.{is_keyed, is_named};
ghost use Rattle.tip_rules.specs.Works.{work_of};

use crate::making::Making;
use crate::work::Work;
use tip_branch::HeldParty;
use tip_line::{Address, Id, Realm};
use tip_machine::{Connection, Transaction};
use tip_outlook::{Known, Named};
use tip_rows::Key;
use tip_table::Table;

impl Work<Connection, Transaction, Making> {
    /// The key of the transaction of an identifier, and where it stands, if it is open here.
    #[tactic(auto, using(crate::proofs::Identifying::identifying))]
    pub fn identified(&self, id: &Id) -> Option<(Key, usize)>
        requires { self.now.realm < length self.now.heads.items }
        ensures none { (result ≡ None) ↔ (identified_by id.now (work_of self.now).state ≡ None) }
        ensures some { IfSome result
            (λ found. StandsAt self.now.transactions self.now.realm (is_keyed found.0) found.1) }
        ensures same { IfSome result (λ found. identified_by id.now (work_of self.now).state
            ≡ transaction_of found.0 (work_of self.now).state) }
        ensures named { IfSome result (λ found. StandsAt self.now.transactions self.now.realm
            (is_named (work_of self.now).state.head.name id.now) found.1) }
        ensures nobody { (result ≡ None) ↔ (find
            (is_named (work_of self.now).state.head.name id.now)
            (of self.now.transactions self.now.realm) ≡ None) }
    {
        let query = Named::of(self.name(), id);
        match self.transactions.find(self.realm, &query) {
            Some(place) => Some((self.transactions.item(place).key, place)),
            None => None,
        }
    }

    /// The name of the realm at hand.
    pub(crate) fn name(&self) -> &Realm
        requires { self.now.realm < length self.now.heads.items }
        ensures { result.now ≡ (work_of self.now).state.head.name }
    {
        &self.heads[self.realm].name
    }

    /// The key of the transaction that was pushed or pulled from the manager at an address, under this identifier, and has no
    /// outcome yet.
    #[tactic(auto, using(crate::proofs::Identifying::knowing))]
    pub fn known(&self, peer: &Option<Address>, superior: &Id) -> Option<Key>
        ensures { result ≡ option_map (λ transaction. transaction.key)
            (find (is_known peer.now superior.now) (work_of self.now).state.transactions) }
    {
        let place = self
            .transactions
            .find(self.realm, &Known { peer, superior })?;
        Some(self.transactions.item(place).key)
    }

    /// The transaction that gave a party out in this start, and where it stands.
    #[tactic(auto, using(crate::proofs::Identifying::owning))]
    pub(crate) fn owner(&self, party: &HeldParty) -> Option<(Key, usize)>
        requires { self.now.realm < length self.now.heads.items }
        ensures none { (result ≡ None) ↔ (owner party.now (work_of self.now).state ≡ None) }
        ensures some { IfSome result
            (λ found. StandsAt self.now.transactions self.now.realm (is_keyed found.0) found.1) }
        ensures same { IfSome result (λ found. owner party.now (work_of self.now).state
            ≡ transaction_of found.0 (work_of self.now).state) }
    {
        let party = party.party();
        if party.epoch() != self.heads[self.realm].epoch {
            return None;
        }
        self.identified(party.id())
    }

    /// Whether the transaction of an identifier exists here. One that is aborted does not.
    #[tactic(auto, using(crate::proofs::Identifying::existing))]
    pub fn exists(&self, id: &Id) -> bool
        requires { self.now.realm < length self.now.heads.items }
        ensures { result
            ≡ option_map_or exists (identified_by id.now (work_of self.now).state) false }
    {
        match self.identified(id) {
            Some((key, place)) => self.at(key, place).txn.exists(),
            None => false,
        }
    }
}

/// The key of the transaction of an identifier, in a realm of this name.
#[tactic(auto, using(crate::proofs::Identifying::keying))]
pub(crate) fn key_named(
    name: &Realm,
    transactions: &Table<Transaction>,
    realm: usize,
    id: &Id,
) -> Option<Key>
    ensures { result ≡ key_found
        (find (has_id name.now id.now) (map seen (of transactions.now realm))) }
{
    let query = Named::of(name, id);
    let place = transactions.find(realm, &query)?;
    Some(transactions.item(place).key)
}
