//! The writer of a connection.
ghost use Rattle.std.specs.Prelude.{◌≡◌, false, IfOk, OnErr, option_map, string_bytes};
ghost use Rattle.tip_machine.specs.declared.answer.Item.TheVariants.{Say, Ask};
ghost use Rattle.tip_session.specs.Written.{IsPrinted, WritesItem, WritesOut, is_close, item_line};

use crate::desk::{Desk, Outgoing};
use crate::session_end::SessionEnd;
use std::alloc::{AllocError, Global};
use std::io::Write;
use tip_line::Realm;
use tip_machine::{Asked, Item, Said};
use tip_writing::write_front;

/// What became of an item.
#[derive(Clone, Copy)]
pub enum Written {
    Line,
    /// It was the closing.
    Closing,
    Fault,
    Memory,
}

/// Writes the lines that the desk gives, in order, until the connection's closing (RFC 2371, section 11). Where it ends
/// otherwise, the desk may have more to give. The writer is not flushed.
pub fn write_out<D: Desk, W: Write>(
    alloc: Global,
    desk: &mut D,
    realm: &Realm,
    writer: &mut W,
) -> SessionEnd
    requires { (D.seen desk.old).given.gone ≡ false }
    ensures { WritesOut D.gives D.seen realm.now desk.old desk.new (W.contents writer.old)
        (W.contents writer.new) result }
{
    for _ in 0..u64::MAX {
        let item = match desk.next_out() {
            Outgoing::Next(item) => item,
            Outgoing::Gone => return SessionEnd::PeerClosed,
            Outgoing::Stopped => return SessionEnd::HostStopped,
        };
        match write_item(alloc, realm, writer, &item) {
            Written::Line => {}
            Written::Closing => return SessionEnd::PeerClosed,
            Written::Fault => return SessionEnd::WriteFault,
            Written::Memory => {
                desk.stop();
                return SessionEnd::Memory;
            }
        }
    }
    desk.stop();
    SessionEnd::HostStopped
}

/// Writes one line, or sees that it is the closing.
fn write_item<W: Write>(alloc: Global, realm: &Realm, writer: &mut W, item: &Item) -> Written
    ensures { WritesItem realm.now item.now (W.contents writer.old) (W.contents writer.new)
        result }
{
    match printed(alloc, realm, item) {
        Ok(Some(text)) => match write_front(writer, text.as_bytes()) {
            Ok(()) => Written::Line,
            Err(_) => Written::Fault,
        },
        Ok(None) => Written::Closing,
        Err(AllocError) => Written::Memory,
    }
}

/// A line with its end; None for a closing.
fn printed(alloc: Global, realm: &Realm, item: &Item) -> Result<Option<String>, AllocError>
    ensures ok { IfOk result (λ text. IsPrinted realm.now item.now (option_map string_bytes text)) }
    ensures err { OnErr result (is_close item.now ≡ false) }
{
    match item {
        Item::Say(said) => Ok(Some(response_line(alloc, realm, said)?)),
        Item::Ask(asked) => Ok(Some(command_line(alloc, realm, asked)?)),
        Item::Close => Ok(None),
    }
}

fn response_line(alloc: Global, realm: &Realm, said: &Said) -> Result<String, AllocError>
    ensures { IfOk result (λ text. string_bytes text ≡ item_line realm.now (Say said.now)) }
{
    let mut text = said.response(alloc, realm)?.print(alloc)?;
    text.push_str("\r\n")?;
    Ok(text)
}

fn command_line(alloc: Global, realm: &Realm, asked: &Asked) -> Result<String, AllocError>
    ensures { IfOk result (λ text. string_bytes text ≡ item_line realm.now (Ask asked.now)) }
{
    let mut text = asked.command(alloc, realm)?.print(alloc)?;
    text.push_str("\r\n")?;
    Ok(text)
}
