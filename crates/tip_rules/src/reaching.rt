//! A connection that was opened to reach a subordinate again, once it is identified (RFC 2371, section 13, RECONNECT).
ghost use Rattle.std.specs.Prelude.{◌≡◌, ◌≤◌, ◌<◌, ◌+◌, ℕ, List, length, option_map, slice_get, Some};
ghost use Rattle.std.specs.List.{list_any};
ghost use Rattle.std.specs.Option.{option_and_then};
ghost use Rattle.tip_line.specs.declared.command.CommandName.TheVariants.{Identify as AnIdentify};
ghost use Rattle.tip_line.specs.declared.response.ResponseName.TheVariants.{Identified as AnIdentified};
ghost use Rattle.tip_table.specs.Kept.{StandsAt};
ghost use Rattle.tip_txn.specs.Parts.{is_text};
ghost use Rattle.tip_machine.specs.Connections.{has_number, is_part_of};
ghost use Rattle.tip_machine.specs.Responses.{go_on, greeted, is_owed_commit, reach_by, reconnect_for};
ghost use Rattle.tip_machine.specs.States.{connection_of, identified_by, transaction_of};
ghost use Rattle.tip_machine.specs.Steps.{chosen};
ghost use Rattle.tip_machine.specs.Transactions.{subordinate_of, willing_from};
ghost use Rattle.tip_machine.specs.Types.{seen, Connection as AConnection};
ghost use Rattle.tip_machine.specs.declared.connection.Purpose.TheVariants.{Reconnect as ToReach};
ghost use Rattle.tip_outlook.specs.Noting.{identifying, version_of};
ghost use Rattle.tip_rules.specs.Pursuing.{aim_in, aimed_at, named_of, owed_in, word_at};
ghost use Rattle.tip_rules.specs.Works.{Does, IsIdle, lines_as, lines_at, work_of};

use crate::making::Making;
use crate::returning::is_committed;
use crate::work::Work;
use tip_line::{Address, CommandName, Response, ResponseName};
use tip_machine::{Asked, Awaited, Connection, Purpose, Role, Transaction};
use tip_outlook::{PartOf, ends, is_yes, version_of};
use tip_rows::Key;
use tip_txn::{Part, Participant};

/// What a connection is to reach again: a subordinate of the transaction of a key, by its number.
#[derive(Clone, Copy)]
struct Aim {
    key: Key,
    subordinate: u32,
}

impl Work<Connection, Transaction, Making> {
    /// A response to IDENTIFY, on a connection that was opened to reach a subordinate again.
    pub(crate) fn respond_to_reach(&mut self, number: u32, place: usize, response: Response)
        requires here { self.old.realm < length self.old.heads.items }
        requires stands { StandsAt self.old.connections self.old.realm (has_number number) place }
        requires lines { lines_at number (work_of self.old).state + 2 ≤ self.old.making.free }
        requires word { self.old.making.word ≡ word_at number (work_of self.old).state }
        requires none { IsIdle self.old.making.answer }
        ensures { (connection : AConnection) (id : List ℕ) (subordinate : ℕ) →
            connection_of number (work_of self.old).state ≡ Some connection →
            aimed_at connection.awaited ≡ Some (id, subordinate) →
            Does self.old self.new (chosen (identifying (version_of response)
            (ToReach id subordinate) response connection (work_of self.old))
            self.old.outcome) }
    {
        match version_of(&response) {
            Some(version) => self.greet_to_reach(number, place, version),
            None => self.refuse_line(number, place, ends(&response)),
        }
    }

    /// IDENTIFIED: the version is 3 or one above, of which we speak 3.
    #[tactic(auto, using(crate::proofs::Aims::greeting_to_reach))]
    fn greet_to_reach(&mut self, number: u32, place: usize, version: u32)
        requires here { self.old.realm < length self.old.heads.items }
        requires stands { StandsAt self.old.connections self.old.realm (has_number number) place }
        requires lines { lines_at number (work_of self.old).state + 2 ≤ self.old.making.free }
        requires word { self.old.making.word ≡ word_at number (work_of self.old).state }
        requires none { IsIdle self.old.making.answer }
        ensures { (connection : AConnection) (id : List ℕ) (subordinate : ℕ) →
            connection_of number (work_of self.old).state ≡ Some connection →
            aimed_at connection.awaited ≡ Some (id, subordinate) →
            Does self.old self.new
            (greeted version (ToReach id subordinate) connection (work_of self.old)) }
    {
        if version >= 3 {
            self.pursue_reconnect(number, place);
        } else {
            self.reject(number, place);
        }
    }

    /// The connection goes on by the connection table, and reaches the subordinate.
    fn pursue_reconnect(&mut self, number: u32, place: usize)
        requires here { self.old.realm < length self.old.heads.items }
        requires stands { StandsAt self.old.connections self.old.realm (has_number number) place }
        requires lines { lines_at number (work_of self.old).state + 2 ≤ self.old.making.free }
        requires word { self.old.making.word ≡ word_at number (work_of self.old).state }
        requires none { IsIdle self.old.making.answer }
        ensures { (connection : AConnection) (id : List ℕ) (subordinate : ℕ) →
            connection_of number (work_of self.old).state ≡ Some connection →
            aimed_at connection.awaited ≡ Some (id, subordinate) →
            Does self.old self.new (reconnect_for (identified_by id (work_of self.old).state)
            subordinate connection
            (go_on AnIdentify AnIdentified connection (work_of self.old))) }
    {
        let connection = self.connection(number, place);
        let role = connection.role;
        let aim = self.aim_of(&connection.awaited);
        self.go(
            number,
            place,
            CommandName::Identify,
            ResponseName::Identified,
        );
        match aim {
            Some(aim) => self.reach_again(number, place, role, aim),
            None => self.close_as(number, place, role),
        }
    }

    /// What a connection was opened to reach, if the transaction is open.
    #[tactic(auto, using(crate::proofs::Aims::aiming))]
    fn aim_of(&self, awaited: &Option<Awaited>) -> Option<Aim>
        requires { self.now.realm < length self.now.heads.items }
        ensures { result
            ≡ option_and_then (aim_in (work_of self.now).state) (aimed_at awaited.now) }
    {
        match awaited {
            Some(Awaited::Identify(Purpose::Reconnect(id, subordinate))) => {
                let key = self.key_of(id)?;
                Some(Aim {
                    key,
                    subordinate: *subordinate,
                })
            }
            _ => None,
        }
    }

    /// A subordinate that is owed a COMMIT is reached; else we hang up.
    fn reach_again(&mut self, number: u32, place: usize, role: Option<Role>, aim: Aim)
        requires stands { StandsAt self.old.connections self.old.realm (has_number number) place }
        requires lines { lines_as role (work_of self.old).state + 1 ≤ self.old.making.free }
        requires word { self.old.making.word
            ≡ named_of aim.subordinate (transaction_of aim.key (work_of self.old).state) }
        requires none { IsIdle self.old.making.answer }
        ensures { (connection : AConnection) →
            connection_of number (work_of self.old).state ≡ Some connection →
            Does self.old self.new (reconnect_for (transaction_of aim.key (work_of self.old).state)
            aim.subordinate (record connection { role = role }) (work_of self.old)) }
    {
        let key = aim.key;
        match self.owed_part(number, place, key, aim.subordinate) {
            Some(part) => self.reach_part(number, place, role, key, part),
            None => self.close_as(number, place, role),
        }
    }

    /// The part that the subordinate of a number is, if its transaction is committed and it is owed a COMMIT at the other side of a
    /// connection.
    #[tactic(auto, using(crate::proofs::Aims::owing_part))]
    fn owed_part(&self, number: u32, place: usize, key: Key, subordinate: u32) -> Option<Part>
        requires { StandsAt self.now.connections self.now.realm (has_number number) place }
        ensures { (connection : AConnection) →
            connection_of number (work_of self.now).state ≡ Some connection →
            result ≡ option_and_then (owed_in connection.peer subordinate (work_of self.now).state)
            (transaction_of key (work_of self.now).state) }
    {
        let at = self.transaction(key)?;
        let transaction = self.at(key, at);
        if !is_committed(transaction.txn.phase()) {
            return None;
        }
        let Some(found) = subordinate_of(transaction, subordinate) else {
            return None;
        };
        let part = found.0;
        if self.is_owed_commit(&self.connection(number, place).peer, key, part, found.1) {
            Some(part)
        } else {
            None
        }
    }

    /// Whether a part has not acknowledged the commit, is at this address, and has no connection.
    fn is_owed_commit(
        &self,
        peer: &Option<Address>,
        key: Key,
        part: Part,
        participant: &Participant,
    ) -> bool
        ensures { result
            ≡ is_owed_commit peer.now key (work_of self.now).state (part, participant.now) }
    {
        match peer {
            Some(peer) => {
                !participant.acknowledged && is_at(participant, peer) && !self.has_part(key, part)
            }
            None => false,
        }
    }

    /// Whether a part is on a connection.
    #[tactic(auto, using(crate::proofs::Works::any_found))]
    fn has_part(&self, key: Key, part: Part) -> bool
        ensures { result ≡ list_any (is_part_of key part) (work_of self.now).state.connections }
    {
        self.connections
            .find(self.realm, &PartOf { key, part })
            .is_some()
    }

    /// RECONNECT is said with the identifier that the subordinate gave.
    #[tactic(auto, using(crate::proofs::Aims::reaching_part))]
    fn reach_part(&mut self, number: u32, place: usize, role: Option<Role>, key: Key, part: Part)
        requires stands { StandsAt self.old.connections self.old.realm (has_number number) place }
        requires lines { lines_as role (work_of self.old).state + 1 ≤ self.old.making.free }
        requires none { IsIdle self.old.making.answer }
        ensures { (connection : AConnection) →
            connection_of number (work_of self.old).state ≡ Some connection →
            Does self.old self.new (reach_by self.old.making.word part key
            (record connection { role = role }) (work_of self.old)) }
    {
        match self.making.take_word() {
            Some(id) => self.send_as(
                number,
                place,
                Awaited::Reconnect,
                Asked::Reconnect(id),
                Role::Subordinate { key, part },
            ),
            None => self.close_as(number, place, role),
        }
    }
}

/// Whether a subordinate is at this address.
fn is_at(participant: &Participant, peer: &Address) -> bool
    ensures { result ≡ is_text peer.now participant.now.address }
{
    match &participant.address {
        Some(address) => address == peer,
        None => false,
    }
}

/// The subordinate of a number, counted from 1 among those that said yes, and which part it is.
pub(crate) fn subordinate_of(transaction: &Transaction, number: u32) -> Option<(Part, &Participant)>
    ensures { option_map (λ s. (s.0, s.1.now)) result
        ≡ subordinate_of number (seen transaction.now) }
{
    match number {
        0 => None,
        number => willing_at(transaction.txn.others(), number as usize - 1),
    }
}

/// The one at a place among those that said yes, and which part it is.
fn willing_at(others: &[Participant], place: usize) -> Option<(Part, &Participant)>
    ensures { option_map (λ s. (s.0, s.1.now)) result
        ≡ slice_get (willing_from 1 others.now) place }
{
    let mut before = place;
    for (index, participant) in others.iter().enumerate() {
        if is_yes(participant.answer) {
            if before == 0 {
                return Some((Part::at(index + 1), participant));
            }
            before -= 1;
        }
    }
    None
}
