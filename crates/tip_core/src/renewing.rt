//! A realm that starts again while the others run (ours, for RFC 2371, sections 10 and 15).
ghost use Rattle.std.specs.Prelude.{◌≡◌, ◌≢◌, ◌<◌, ◌≤◌, ℕ, [], length, map, true, IfOk};
ghost use Rattle.tip_table.specs.Kept.{of};
ghost use Rattle.tip_machine.specs.Moves.{risen};
ghost use Rattle.tip_machine.specs.Recovery.{restarted};
ghost use Rattle.tip_machine.specs.States.{started};
ghost use Rattle.tip_machine.specs.Types.{seen};
ghost use Rattle.tip_recovery.specs.Adopting.{are_adopted, loaded};
ghost use Rattle.tip_rows.specs.Logs.{last_epoch};
ghost use Rattle.tip_core.specs.Recovering.{IsOf};
ghost use Rattle.tip_core.specs.Renewing.{HasRoom};
ghost use Rattle.tip_rules.specs.Works.{state_in, tables_in};

use crate::recovering::reopen_in;
use std::alloc::{AllocError, Global};
use std::mem;
use tip_machine::{Connection, Transaction};
use tip_recovery::Recovery;
use tip_rules::Realms;
use tip_table::{Linked, Table};

/// What a realm had before it started again. Whoever drops it drops boxes.
#[derive(Drop)]
pub struct Left<C = Connection, T = Transaction> {
    /// In the order made.
    pub connections: Vec<C>,
    /// In the order made.
    pub transactions: Vec<T>,
}

/// All the memory that a realm needs to start again. It belongs to the realms that it was made for.
#[derive(Drop)]
pub struct Parting<C: Linked = Connection, T: Linked = Transaction> {
    pub(crate) connections: Table<C>,
    pub(crate) transactions: Table<T>,
    pub(crate) left: Left<C, T>,
}

/// Room for a realm to start again with so many rows.
pub fn room_to_renew(
    realms: &Realms,
    alloc: Global,
    realm: usize,
    rows: usize,
) -> Result<Parting, AllocError>
    requires { realm < length realms.now.tables.items }
    ensures { IfOk result (HasRoom (tables_in realm realms.now) realm rows) }
{
    let connections = realms.connections(realm);
    let transactions = realms.transactions(realm);
    Ok(Parting {
        connections: connections.with_room(alloc, 0)?,
        transactions: transactions.with_room(alloc, rows)?,
        left: Left {
            connections: Vec::with_capacity(alloc, connections.count(realm))?,
            transactions: Vec::with_capacity(alloc, transactions.count(realm))?,
        },
    })
}

/// A realm starts again in its next epoch, by these rows, and what it had leaves. Every other realm stays.
pub fn renew(realms: &mut Realms, realm: usize, recovery: Recovery, room: Parting) -> Left
    requires here { realm < length realms.old.heads.items }
    requires epoch { (state_in realm realms.old).head.epoch < last_epoch }
    requires tables { realm < length realms.old.tables.items }
    requires room { HasRoom (tables_in realm realms.old) realm (length recovery.rows) room }
    requires adopted { are_adopted recovery.rows ≡ true }
    ensures own { IsOf recovery (risen (state_in realm realms.old).head) →
        state_in realm realms.new
        ≡ restarted (risen (state_in realm realms.old).head) (map loaded recovery.rows) }
    ensures head { (state_in realm realms.new).head ≡ risen (state_in realm realms.old).head }
    ensures none { of (tables_in realm realms.new).connections realm ≡ [] }
    ensures others { (other : ℕ) → other ≢ realm →
        state_in other realms.new ≡ state_in other realms.old }
    ensures count { length realms.new.heads.items ≡ length realms.old.heads.items }
    ensures tables { length realms.new.tables.items ≡ length realms.old.tables.items }
    ensures connections { result.connections.items
        ≡ of (tables_in realm realms.old).connections realm }
    ensures transactions { map seen result.transactions.items
        ≡ (state_in realm realms.old).transactions }
{
    let left = clear(realms, realm, room);
    let epoch = recovery.epoch();
    reopen_in(realms, realm, epoch, recovery.into_rows());
    left
}

/// A realm starts in its next epoch, with nothing but what was declared of it.
fn clear(realms: &mut Realms, realm: usize, room: Parting) -> Left
    requires here { realm < length realms.old.heads.items }
    requires epoch { (state_in realm realms.old).head.epoch < last_epoch }
    requires tables { realm < length realms.old.tables.items }
    requires room { (rows : ℕ) × HasRoom (tables_in realm realms.old) realm rows room }
    ensures own { state_in realm realms.new ≡ started (risen (state_in realm realms.old).head) }
    ensures none { of (tables_in realm realms.new).connections realm ≡ [] }
    ensures no_transactions { of (tables_in realm realms.new).transactions realm ≡ [] }
    ensures others { (other : ℕ) → other ≢ realm →
        state_in other realms.new ≡ state_in other realms.old }
    ensures count { length realms.new.heads.items ≡ length realms.old.heads.items }
    ensures tables { length realms.new.tables.items ≡ length realms.old.tables.items }
    ensures connections { result.connections.items
        ≡ of (tables_in realm realms.old).connections realm }
    ensures transactions { result.transactions.items
        ≡ of (tables_in realm realms.old).transactions realm }
    ensures room { (rows : ℕ) → HasRoom (tables_in realm realms.old) realm rows room →
        rows ≤ (tables_in realm realms.new).transactions.free }
{
    let Parting {
        connections,
        transactions,
        mut left,
    } = room;
    let head = &mut realms.heads[realm];
    head.epoch += 1;
    head.given = 0;
    head.entries = 0;
    let alloc = realms.alloc;
    let own = &mut realms.tables[realm];
    let before = mem::replace(&mut own.connections, Table::new(alloc));
    own.connections = before.part(realm, connections, &mut left.connections);
    let before = mem::replace(&mut own.transactions, Table::new(alloc));
    own.transactions = before.part(realm, transactions, &mut left.transactions);
    left
}
