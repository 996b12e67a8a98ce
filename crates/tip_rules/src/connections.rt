//! Connections of the realm at hand: how they are found, how they go on, and what their failure means.
ghost use Rattle.std.specs.Prelude.{◌≡◌, ◌↔◌, ◌≤◌, ◌<◌, ◌+◌, true, None, Some, IfSome, length, option_map};
ghost use Rattle.std.specs.List.{filter, find};
ghost use Rattle.tip_table.specs.Kept.{StandsAt, of};
ghost use Rattle.tip_machine.specs.Changes.{change, reply, send};
ghost use Rattle.tip_machine.specs.Connections.{advanced, awaiting, has_number, identified, is_on, owing, taking};
ghost use Rattle.tip_machine.specs.Failing.{closed, fail, gone, wrong};
ghost use Rattle.tip_machine.specs.Given.{are_numbered};
ghost use Rattle.tip_machine.specs.States.{connection_of};
ghost use Rattle.tip_machine.specs.Types.{Connection as AConnection};
ghost use Rattle.tip_rules.specs.Works.{Does, IsIdle, lines_for, work_of};

use crate::making::Making;
use crate::opening::place_of;
use crate::work::Work;
use tip_line::{Address, CommandName, ResponseName};
use tip_machine::{Asked, Awaited, Connection, Item, Role, Said, Transaction};

impl Work<Connection, Transaction, Making> {
    /// The connection of a number, which stands at this place.
    #[tactic(auto, using(tip_table::proofs::Standing::standing))]
    pub fn connection(&self, number: u32, place: usize) -> &Connection
        requires { StandsAt self.now.connections self.now.realm (has_number number) place }
        ensures { connection_of number (work_of self.now).state ≡ Some result.now }
    {
        self.connections.item(place)
    }

    /// Where the connection of a number stands, if it is there.
    pub(crate) fn connection_at(&self, number: u32) -> Option<usize>
        requires { are_numbered (work_of self.now).state ≡ true }
        ensures none { (result ≡ None) ↔
            (find (has_number number) (of self.now.connections self.now.realm) ≡ None) }
        ensures some { IfSome result
            (λ place. StandsAt self.now.connections self.now.realm (has_number number) place) }
    {
        place_of(&self.connections, self.realm, number)
    }

    /// A connection goes on by the connection table, now that this command was answered so.
    pub(crate) fn go(
        &mut self,
        number: u32,
        place: usize,
        command: CommandName,
        response: ResponseName,
    )
        requires { StandsAt self.old.connections self.old.realm (has_number number) place }
        ensures does { Does self.old self.new
            (change number (advanced command response) (work_of self.old)) }
        ensures stands { StandsAt self.new.connections self.new.realm (has_number number) place }
        ensures rest { self.new ≡ record self.old { connections = self.new.connections } }
    {
        let connection = self.connections.item_mut(place);
        connection.go(command, response);
    }

    /// IDENTIFY was answered; the connection's primary is there, if it said where.
    pub fn identify(&mut self, number: u32, place: usize, peer: Option<Address>)
        requires { StandsAt self.old.connections self.old.realm (has_number number) place }
        ensures { Does self.old self.new (change number (identified peer) (work_of self.old)) }
    {
        let connection = self.connections.item_mut(place);
        connection.identify(peer);
    }

    /// A response is owed to this command.
    #[tactic(auto, using(crate::proofs::Commanding::owing_one))]
    pub(crate) fn owe(&mut self, number: u32, place: usize, command: CommandName)
        requires { StandsAt self.old.connections self.old.realm (has_number number) place }
        ensures does { Does self.old self.new (change number (owing command) (work_of self.old)) }
        ensures stands { StandsAt self.new.connections self.new.realm (has_number number) place }
    {
        let connection = self.connections.item_mut(place);
        connection.owed = Some(command);
    }

    /// A command is answered, and its connection goes by the connection table.
    #[tactic(auto, using(crate::proofs::Works::replied))]
    pub fn reply(&mut self, number: u32, place: usize, command: CommandName, said: Said)
        requires stands { StandsAt self.old.connections self.old.realm (has_number number) place }
        requires room { 0 < self.old.making.free }
        ensures { Does self.old self.new (reply number command said (work_of self.old)) }
    {
        let response = said.name();
        self.tell(number, Item::Say(said));
        self.go(number, place, command, response);
    }

    /// A command is answered, its connection goes by the connection table, and takes its role on a transaction.
    #[tactic(auto, using(crate::proofs::Works::replied_as))]
    pub(crate) fn reply_as(
        &mut self,
        number: u32,
        place: usize,
        command: CommandName,
        said: Said,
        role: Role,
    )
        requires stands { StandsAt self.old.connections self.old.realm (has_number number) place }
        requires room { 0 < self.old.making.free }
        ensures { Does self.old self.new
            (change number (taking role) (reply number command said (work_of self.old))) }
    {
        let response = said.name();
        self.tell(number, Item::Say(said));
        let connection = self.connections.item_mut(place);
        connection.go(command, response);
        connection.role = Some(role);
    }

    /// A command is said, and its response awaited.
    #[tactic(auto, using(crate::proofs::Requests::sending))]
    pub fn send(&mut self, number: u32, place: usize, awaited: Awaited, asked: Asked)
        requires stands { StandsAt self.old.connections self.old.realm (has_number number) place }
        requires room { 0 < self.old.making.free }
        ensures does { Does self.old self.new (send number awaited asked (work_of self.old)) }
        ensures stands { StandsAt self.new.connections self.new.realm (has_number number) place }
    {
        self.tell(number, Item::Ask(asked));
        self.wait_for(number, place, awaited);
    }

    /// A command is said, its response awaited, and the connection takes its role on a transaction.
    #[tactic(auto, using(crate::proofs::Requests::sending_as))]
    pub(crate) fn send_as(
        &mut self,
        number: u32,
        place: usize,
        awaited: Awaited,
        asked: Asked,
        role: Role,
    )
        requires stands { StandsAt self.old.connections self.old.realm (has_number number) place }
        requires room { 0 < self.old.making.free }
        ensures { Does self.old self.new
            (change number (taking role) (send number awaited asked (work_of self.old))) }
    {
        self.send(number, place, awaited, asked);
        self.take_role(number, place, role);
    }

    /// A response is awaited.
    fn wait_for(&mut self, number: u32, place: usize, awaited: Awaited)
        requires { StandsAt self.old.connections self.old.realm (has_number number) place }
        ensures does { Does self.old self.new
            (change number (awaiting awaited) (work_of self.old)) }
        ensures stands { StandsAt self.new.connections self.new.realm (has_number number) place }
    {
        let connection = self.connections.item_mut(place);
        connection.awaited = Some(awaited);
    }

    /// A connection takes its role on a transaction.
    fn take_role(&mut self, number: u32, place: usize, role: Role)
        requires { StandsAt self.old.connections self.old.realm (has_number number) place }
        ensures { Does self.old self.new (change number (taking role) (work_of self.old)) }
    {
        let connection = self.connections.item_mut(place);
        connection.role = Some(role);
    }

    /// A connection is there no more, and its boxes are handed back. What it was on the transaction that it was on is given.
    pub(crate) fn remove(&mut self, number: u32, place: usize) -> Option<Role>
        requires { StandsAt self.old.connections self.old.realm (has_number number) place }
        ensures role { option_map (λ connection. connection.role)
            (connection_of number (work_of self.old).state) ≡ Some result }
        ensures gone { (connection : AConnection) →
            connection_of number (work_of self.old).state ≡ Some connection →
            Does self.old self.new (gone connection (work_of self.old)) }
    {
        let connection = self.connections.remove(place);
        let role = connection.role;
        self.making.hand_back(connection.into_boxes());
        role
    }
}
