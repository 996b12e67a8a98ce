//! What a script asks of a realm with words of its own: addresses and identifiers.
ghost use Rattle.std.specs.Prelude.{◌≡◌, ◌&&◌, ℕ, List, false, Some, None, IfOk, if◌then◌else◌, string_bytes};
ghost use Rattle.tip_actor.specs.Acting.{Acting, boxes_of};
ghost use Rattle.tip_actor.specs.Halting.{Halts, around};
ghost use Rattle.tip_actor.specs.Standing.{IsActing, Tells};
ghost use Rattle.tip_branch.specs.declared.branch.Plan.{Plan};
ghost use Rattle.tip_line.specs.Words.{is_address, is_word};
ghost use Rattle.tip_machine.specs.declared.event.Event.TheVariants.{Dial as Dials};
ghost use Rattle.tip_script.specs.Moves.{purpose_of};
ghost use Rattle.tip_script.specs.Scripts.{Dial, Pull, Push, Resume};
ghost use Rattle.tip_scene.specs.Scenes.{does, is_purpose};

use std::alloc::{AllocError, Global};
use tip_actor::{ActFault, Actor};
use tip_branch::HeldFresh;
use tip_line::{Address, Id, WordFault};
use tip_machine::{Event, Purpose};
use tip_rows::RowLog;
use tip_script::{Aim, Asked};
use tip_stored::StoredCore;

/// A connection is opened to this address. It says whether address and aim are words.
pub(crate) fn dial<S: RowLog + Drop>(
    actor: &mut Actor,
    alloc: Global,
    stored_core: &mut StoredCore<S>,
    place: usize,
    address: &[u8],
    aim: Aim<'_>,
    boxes: HeldFresh,
    printed: &mut String,
) -> Result<bool, ActFault>
    requires { stored_core.old.is_stopped ≡ false }
    ensures running { stored_core.new.is_stopped ≡ false }
    ensures truth { S.keeping.is_true stored_core.new.store →
        S.keeping.is_true stored_core.old.store }
    ensures tells { (acting : Acting) (realm : List ℕ) (plans : List Plan) →
        IsActing S.keeping stored_core.old place actor.old acting →
        boxes ≡ boxes_of plans → IfOk result (λ told. Tells S.keeping
        stored_core.old stored_core.new place actor.old actor.new (string_bytes printed.old)
        (string_bytes printed.new) told
        (does (Dial realm address.now plans (purpose_of aim.entry)) acting)) }
    ensures untold { IfOk result
        (λ told. told ≡ false → stored_core.new ≡ stored_core.old) }
    ensures halts { (acting : Acting) (realm : List ℕ) (plans : List Plan) →
        IsActing S.keeping stored_core.old place actor.old acting → boxes ≡ boxes_of plans →
        Halts S.keeping stored_core.old.store stored_core.new.store actor.old.name
        (around (does (Dial realm address.now plans (purpose_of aim.entry)) acting) acting) }
{
    match dialling(alloc, address, aim, boxes)? {
        Some(event) => {
            actor.happen(alloc, stored_core, place, event, printed)?;
            Ok(true)
        }
        None => Ok(false),
    }
}

/// The event of a connection that we open; None where address or aim is no word.
fn dialling(
    alloc: Global,
    address: &[u8],
    aim: Aim<'_>,
    boxes: HeldFresh,
) -> Result<Option<Event>, AllocError>
    ensures { IfOk result (λ event. event ≡ (if is_address address.now
        && is_purpose (purpose_of aim.entry)
        then Some (Dials address.now (purpose_of aim.entry) boxes) else None)) }
{
    let address = address_in(alloc, address)?;
    let purpose = purpose_in(alloc, aim)?;
    match (address, purpose) {
        (Some(address), Some(purpose)) => Ok(Some(Event::Dial {
            address,
            purpose,
            boxes,
        })),
        _ => Ok(None),
    }
}

/// A transaction of the realm is to be pushed. It says whether its connection was given, and its identifier is a word.
pub(crate) fn push<S: RowLog + Drop>(
    actor: &mut Actor,
    alloc: Global,
    stored_core: &mut StoredCore<S>,
    place: usize,
    asked: Asked<'_>,
    printed: &mut String,
) -> Result<bool, ActFault>
    requires { stored_core.old.is_stopped ≡ false }
    ensures running { stored_core.new.is_stopped ≡ false }
    ensures truth { S.keeping.is_true stored_core.new.store →
        S.keeping.is_true stored_core.old.store }
    ensures tells { (acting : Acting) (realm : List ℕ) →
        IsActing S.keeping stored_core.old place actor.old acting →
        IfOk result (λ told. Tells S.keeping stored_core.old stored_core.new place
        actor.old actor.new (string_bytes printed.old) (string_bytes printed.new) told
        (does (Push realm asked.entry.connection asked.entry.id.now) acting)) }
    ensures untold { IfOk result
        (λ told. told ≡ false → stored_core.new ≡ stored_core.old) }
    ensures halts { (acting : Acting) (realm : List ℕ) →
        IsActing S.keeping stored_core.old place actor.old acting →
        Halts S.keeping stored_core.old.store stored_core.new.store actor.old.name
        (around (does (Push realm asked.entry.connection asked.entry.id.now) acting) acting) }
{
    match id_in(alloc, asked.id)? {
        Some(id) => actor.push(alloc, stored_core, place, asked.connection, id, printed),
        None => Ok(false),
    }
}

/// A transaction of the other side is to be pulled. It says whether its connection was given, and its identifier is a word.
pub(crate) fn pull<S: RowLog + Drop>(
    actor: &mut Actor,
    alloc: Global,
    stored_core: &mut StoredCore<S>,
    place: usize,
    asked: Asked<'_>,
    printed: &mut String,
) -> Result<bool, ActFault>
    requires { stored_core.old.is_stopped ≡ false }
    ensures running { stored_core.new.is_stopped ≡ false }
    ensures truth { S.keeping.is_true stored_core.new.store →
        S.keeping.is_true stored_core.old.store }
    ensures tells { (acting : Acting) (realm : List ℕ) →
        IsActing S.keeping stored_core.old place actor.old acting →
        IfOk result (λ told. Tells S.keeping stored_core.old stored_core.new place
        actor.old actor.new (string_bytes printed.old) (string_bytes printed.new) told
        (does (Pull realm asked.entry.connection asked.entry.id.now) acting)) }
    ensures untold { IfOk result
        (λ told. told ≡ false → stored_core.new ≡ stored_core.old) }
    ensures halts { (acting : Acting) (realm : List ℕ) →
        IsActing S.keeping stored_core.old place actor.old acting →
        Halts S.keeping stored_core.old.store stored_core.new.store actor.old.name
        (around (does (Pull realm asked.entry.connection asked.entry.id.now) acting) acting) }
{
    match id_in(alloc, asked.id)? {
        Some(superior) => actor.pull(
            alloc,
            stored_core,
            place,
            asked.connection,
            superior,
            printed,
        ),
        None => Ok(false),
    }
}

/// The realm goes on with the transaction of this identifier. It says whether it is a word.
pub(crate) fn resume<S: RowLog + Drop>(
    actor: &mut Actor,
    alloc: Global,
    stored_core: &mut StoredCore<S>,
    place: usize,
    id: &[u8],
    printed: &mut String,
) -> Result<bool, ActFault>
    requires { stored_core.old.is_stopped ≡ false }
    ensures running { stored_core.new.is_stopped ≡ false }
    ensures truth { S.keeping.is_true stored_core.new.store →
        S.keeping.is_true stored_core.old.store }
    ensures tells { (acting : Acting) (realm : List ℕ) →
        IsActing S.keeping stored_core.old place actor.old acting →
        IfOk result (λ told. Tells S.keeping stored_core.old stored_core.new place
        actor.old actor.new (string_bytes printed.old) (string_bytes printed.new) told
        (does (Resume realm id.now) acting)) }
    ensures untold { IfOk result
        (λ told. told ≡ false → stored_core.new ≡ stored_core.old) }
    ensures halts { (acting : Acting) (realm : List ℕ) →
        IsActing S.keeping stored_core.old place actor.old acting →
        Halts S.keeping stored_core.old.store stored_core.new.store actor.old.name
        (around (does (Resume realm id.now) acting) acting) }
{
    match id_in(alloc, id)? {
        Some(id) => {
            actor.happen(alloc, stored_core, place, Event::Resume { id }, printed)?;
            Ok(true)
        }
        None => Ok(false),
    }
}

/// What a connection is opened for; None where its identifier is no word.
fn purpose_in(alloc: Global, aim: Aim<'_>) -> Result<Option<Purpose>, AllocError>
    ensures { IfOk result (λ purpose. purpose
        ≡ (if is_purpose (purpose_of aim.entry) then Some (purpose_of aim.entry) else None)) }
{
    match aim {
        Aim::Plain => Ok(Some(Purpose::Plain)),
        Aim::Query(id) => match id_in(alloc, id)? {
            Some(id) => Ok(Some(Purpose::Query(id))),
            None => Ok(None),
        },
        Aim::Reconnect(id, place) => match id_in(alloc, id)? {
            Some(id) => Ok(Some(Purpose::Reconnect(id, place))),
            None => Ok(None),
        },
    }
}

/// An identifier, if it is a word.
fn id_in(alloc: Global, id: &[u8]) -> Result<Option<Id>, AllocError>
    ensures { IfOk result (λ found. found ≡ (if is_word id.now then Some id.now else None)) }
{
    match Id::new(alloc, id) {
        Ok(id) => Ok(Some(id)),
        Err(WordFault::NotWord) => Ok(None),
        Err(WordFault::Memory) => Err(AllocError),
    }
}

/// An address, if it is one.
fn address_in(alloc: Global, address: &[u8]) -> Result<Option<Address>, AllocError>
    ensures { IfOk result
        (λ found. found ≡ (if is_address address.now then Some address.now else None)) }
{
    match Address::new(alloc, address) {
        Ok(address) => Ok(Some(address)),
        Err(WordFault::NotWord) => Ok(None),
        Err(WordFault::Memory) => Err(AllocError),
    }
}
