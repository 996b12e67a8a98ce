//! What is looked for in the tables.
ghost use Rattle.std.specs.Prelude.{◌≡◌, List, None, ℕ};
ghost use Rattle.std.specs.Str.{bytes_eq};
ghost use Rattle.tip_machine.specs.Answers.{identifier};
ghost use Rattle.tip_machine.specs.Connections.{asks_for, has_number, is_on, is_part_of, is_superior_of, names, reaches};
ghost use Rattle.tip_machine.specs.Transactions.{comes_from, is_undecided};
ghost use Rattle.tip_outlook.specs.Searches.{AimsAt, AimsOn, IsKeyOf, is_keyed, is_named, is_pushed};

use std::marker::Model;
use tip_line::{Address, Id, Realm};
use tip_machine::{Connection, Origin, Role, Transaction, link_of};
use tip_rows::Key;
use tip_table::{Rank, Test};
use tip_txn::{Part, Phase};

/// The connection of a number.
#[derive(Clone, Copy)]
pub struct Numbered {
    pub number: u32,
}

impl Test<Connection> for Numbered {
    ghost passes = { λ query connection. has_number query.number connection };

    fn passes(&self, connection: &Connection) -> bool
        ensures { result ≡ has_number self.now.number connection.now }
    {
        connection.number == self.number
    }

    fn aim(&self) -> Option<u128>
        ensures { AimsOn (has_number self.now.number) result }
    {
        None
    }
}

/// Connections by their numbers, which rise.
#[derive(Clone, Copy)]
pub struct ByNumber;

impl Rank<Connection> for ByNumber {
    ghost rank = { λ _ connection. connection.number };

    fn rank(&self, connection: &Connection) -> u64 {
        connection.number as u64
    }
}

/// The transaction of a key.
#[derive(Clone, Copy)]
pub struct Keyed {
    pub key: Key,
}

impl Test<Transaction> for Keyed {
    ghost passes = { λ query transaction. is_keyed query.key transaction };

    fn passes(&self, transaction: &Transaction) -> bool
        ensures { result ≡ is_keyed self.now.key transaction.now }
    {
        transaction.key == self.key
    }

    #[tactic(auto, using(crate::proofs::Aims::keyed))]
    fn aim(&self) -> Option<u128>
        ensures { AimsAt (is_keyed self.now.key) result }
    {
        Some(link_of(self.key))
    }
}

/// A connection that is on the transaction of a key.
#[derive(Clone, Copy)]
pub struct OnKey {
    pub key: Key,
}

impl Test<Connection> for OnKey {
    ghost passes = { λ query connection. is_on query.key connection };

    fn passes(&self, connection: &Connection) -> bool
        ensures { result ≡ is_on self.now.key connection.now }
    {
        is_on(connection.role, self.key)
    }

    #[tactic(auto, using(crate::proofs::Aims::on))]
    fn aim(&self) -> Option<u128>
        ensures { AimsOn (is_on self.now.key) result }
    {
        Some(link_of(self.key))
    }
}

/// The connection of the superior of a transaction.
#[derive(Clone, Copy)]
pub struct SuperiorOf {
    pub key: Key,
}

impl Test<Connection> for SuperiorOf {
    ghost passes = { λ query connection. is_superior_of query.key connection };

    fn passes(&self, connection: &Connection) -> bool
        ensures { result ≡ is_superior_of self.now.key connection.now }
    {
        asks_for(connection.role, self.key)
    }

    #[tactic(auto, using(crate::proofs::Aims::superior))]
    fn aim(&self) -> Option<u128>
        ensures { AimsOn (is_superior_of self.now.key) result }
    {
        Some(link_of(self.key))
    }
}

/// Whether a connection of this role is the one of the superior of that transaction.
pub fn asks_for(role: Option<Role>, key: Key) -> bool
    ensures { result ≡ asks_for key role }
{
    role == Some(Role::Superior(key))
}

/// The connection of a part of a transaction.
#[derive(Clone, Copy)]
pub struct PartOf {
    pub key: Key,
    pub part: Part,
}

impl Test<Connection> for PartOf {
    ghost passes = { λ query connection. is_part_of query.key query.part connection };

    fn passes(&self, connection: &Connection) -> bool
        ensures { result ≡ is_part_of self.now.key self.now.part connection.now }
    {
        reaches(connection.role, self.key, self.part)
    }

    #[tactic(auto, using(crate::proofs::Aims::part))]
    fn aim(&self) -> Option<u128>
        ensures { AimsOn (is_part_of self.now.key self.now.part) result }
    {
        Some(link_of(self.key))
    }
}

/// Whether a connection of this role is the one of that part.
fn reaches(role: Option<Role>, key: Key, part: Part) -> bool
    ensures { result ≡ reaches key part role }
{
    role == Some(Role::Subordinate { key, part })
}

/// The transaction of an identifier, in a realm of this name.
#[derive(Drop)]
pub struct Named<'a> {
    realm: &'a Realm,
    id: &'a Id,
    /// The key that the identifier was made of, if this realm may have given it: so it is taken apart once, and none is spelled.
    key: Option<Key>,
}

impl<'a> Model for Named<'a> {
    ghost use Rattle.tip_outlook.specs.Searches.{IsKeyOf, Naming};

    ghost Value = { Naming };

    ghost view = { λ n. record { realm = n.realm.now; id = n.id.now } };

    ghost invariant = { λ n. IsKeyOf n.realm.now n.id.now n.key };
}

impl<'a> Named<'a> {
    /// It is sought by what the realm and the identifier are.
    pub fn of(realm: &'a Realm, id: &'a Id) -> Named<'a>
        ensures { result ≡ record { realm = realm.now; id = id.now } }
    {
        Named {
            realm,
            id,
            key: key_of(realm, id),
        }
    }
}

impl Test<Transaction> for Named<'_> {
    ghost passes = { λ query transaction. is_named query.realm query.id transaction };

    fn passes(&self, transaction: &Transaction) -> bool
        ensures { result ≡ is_named self.now.realm self.now.id transaction.now }
    {
        is_key(self.key, transaction.key)
    }

    #[tactic(auto, using(crate::proofs::Aims::named))]
    fn aim(&self) -> Option<u128>
        ensures { AimsAt (is_named self.now.realm self.now.id) result }
    {
        Some(link_of(self.key?))
    }
}

/// A transaction that was pushed or pulled from the manager at an address, under this identifier, and has no outcome yet.
#[derive(Clone, Copy)]
pub struct Known<'a> {
    pub peer: &'a Option<Address>,
    pub superior: &'a Id,
}

impl Test<Transaction> for Known<'_> {
    ghost passes = { λ query transaction. is_pushed query.peer.now query.superior.now transaction };

    fn passes(&self, transaction: &Transaction) -> bool
        ensures { result ≡ is_pushed self.now.peer.now self.now.superior.now transaction.now }
    {
        is_undecided(transaction.txn.phase())
            && comes_from(&transaction.origin, self.peer, self.superior)
    }

    fn aim(&self) -> Option<u128>
        ensures { AimsAt (is_pushed self.now.peer.now self.now.superior.now) result }
    {
        None
    }
}

/// Whether a transaction has no outcome yet.
fn is_undecided(phase: Phase) -> bool
    ensures { result ≡ is_undecided phase }
{
    matches!(phase, Phase::Active | Phase::Asking | Phase::Prepared)
}

/// Whether a transaction has this superior, at the address of a peer that said one.
fn comes_from(origin: &Origin, peer: &Option<Address>, superior: &Id) -> bool
    ensures { result ≡ comes_from peer.now superior.now origin.now }
{
    match (origin, peer) {
        (
            Origin::Subordinate {
                address: Some(address),
                superior: id,
            },
            Some(peer),
        ) => address == peer && superior == id,
        _ => false,
    }
}

/// The key of which an identifier was made, if a realm of this name may have given it.
#[tactic(auto, using(crate::proofs::Naming::naming))]
fn key_of(realm: &Realm, id: &Id) -> Option<Key>
    ensures { IsKeyOf realm.now id.now result }
{
    let name = realm.as_str();
    let parts = id.parts()?;
    if parts.realm == name {
        Key::of(parts)
    } else {
        None
    }
}

/// Whether a key is the one of which an identifier was made.
fn is_key(made_of: Option<Key>, key: Key) -> bool
    ensures { (realm id : List ℕ) → IsKeyOf realm id made_of →
        result ≡ bytes_eq id (identifier realm key) }
{
    match made_of {
        Some(other) => other == key,
        None => false,
    }
}

/// Whether a connection of this role is on the transaction of that key.
pub fn is_on(role: Option<Role>, key: Key) -> bool
    ensures { result ≡ names key role }
{
    match role {
        Some(role) => role.key() == key,
        None => false,
    }
}
