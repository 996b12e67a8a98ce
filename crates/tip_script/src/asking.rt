//! What a script asks of other managers: connections that we dial, and transactions that go out or come in.
ghost use Rattle.std.specs.Prelude.{◌≡◌, option_map};
ghost use Rattle.tip_script.specs.Moves.{asking_of, move_by, purpose_of};
ghost use Rattle.tip_script.specs.Scripts.{asking, dialling, purpose_in, request_in};

use crate::fields::{number_in, realm_in};
use crate::instruction::Instruction;
use crate::kinds::kinds_in;
use tip_line::Fields;

/// What a connection is dialled for.
#[derive(Clone, Copy)]
pub enum Aim<'a> {
    /// `plain`: for whatever will be asked.
    Plain,
    /// `query ID`: for our transaction in doubt of this identifier.
    Query(&'a [u8]),
    /// `reconnect ID NUMBER`: for the subordinate of this number, counted from 1, of our committed transaction.
    Reconnect(&'a [u8], u32),
}

/// A transaction that is to be pushed or pulled on a connection of a realm.
#[derive(Clone, Copy)]
pub struct Asked<'a> {
    pub realm: &'a str,
    pub connection: u32,
    /// Of the transaction that is pushed, or of the superior's that is pulled.
    pub id: &'a [u8],
}

/// What a line asks of other managers that begins with this word.
#[tactic(auto, unfolding(crate::specs::Scripts::request_in))]
pub(crate) fn request<'a>(word: &[u8], fields: Fields<'a, b' '>) -> Option<Instruction<'a>>
    ensures { option_map move_by result ≡ request_in word.now fields.entry }
{
    if word == b"dial".as_slice() {
        dialling(fields)
    } else if word == b"push".as_slice() {
        let asked = asking(fields)?;
        Some(Instruction::Push(asked))
    } else if word == b"pull".as_slice() {
        let asked = asking(fields)?;
        Some(Instruction::Pull(asked))
    } else {
        None
    }
}

#[tactic(auto, unfolding(crate::specs::Scripts::dialling))]
fn dialling(mut fields: Fields<'_, b' '>) -> Option<Instruction<'_>>
    ensures { option_map move_by result ≡ dialling fields.entry }
{
    let realm = fields.next()?;
    let address = fields.next()?;
    let kinds = fields.next()?;
    Some(Instruction::Dial {
        realm: realm_in(realm)?,
        address,
        kinds: kinds_in(kinds)?,
        aim: aim_in(fields)?,
    })
}

#[tactic(auto, unfolding(crate::specs::Scripts::purpose_in))]
fn aim_in(mut fields: Fields<'_, b' '>) -> Option<Aim<'_>>
    ensures { option_map purpose_of result ≡ purpose_in fields.entry }
{
    let word = fields.next()?;
    let Some(id) = fields.next() else {
        return (word == b"plain".as_slice()).then_some(Aim::Plain);
    };
    let Some(place) = fields.next() else {
        return (word == b"query".as_slice()).then_some(Aim::Query(id));
    };
    if fields.next().is_some() || word != b"reconnect".as_slice() {
        return None;
    }
    Some(Aim::Reconnect(id, number_in(place)?))
}

#[tactic(auto, unfolding(crate::specs::Scripts::asking))]
fn asking(mut fields: Fields<'_, b' '>) -> Option<Asked<'_>>
    ensures { option_map asking_of result ≡ asking fields.entry }
{
    let realm = fields.next()?;
    let connection = fields.next()?;
    let id = fields.next()?;
    if fields.next().is_some() {
        return None;
    }
    Some(Asked {
        realm: realm_in(realm)?,
        connection: number_in(connection)?,
        id,
    })
}
