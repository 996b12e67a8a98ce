//! What is printed of an event.
ghost use Rattle.std.specs.Prelude.{◌≡◌, ◌++◌, [], IfOk, OnOk, option_map, string_bytes};
ghost use Rattle.std.specs.List.{flat_map};
ghost use Rattle.std.specs.Option.{option_to_list, option_map_or};
ghost use Rattle.tip_machine.specs.Answers.{identifier};
ghost use Rattle.tip_machine.specs.Outputs.{Output, brought, drops_of, outputs};
ghost use Rattle.tip_machine.specs.Steps.{key_changed};
ghost use Rattle.tip_machine.specs.Types.{Event};
ghost use Rattle.tip_machine.specs.declared.event.Outcome.TheVariants.{Refused, Stored};
ghost use Rattle.tip_transcript.specs.Printing.{change_text, idle_text, nowhere_text, refusal_text, sent_text, shown_text};

use crate::parties::{print_drops, print_work};
use std::alloc::{AllocError, Global};
use tip_core::Happened;
use tip_line::{Id, Realm, Refusal};
use tip_machine::{Answer, Change, Item, Outcome, Sent};
use tip_rows::Key;

/// Prints all that an event has shown: the refusal, a connection that was opened, the calls that it brought, the change, lines
/// and closings, the party that goes out, and drops.
pub fn print(
    printed: &mut String,
    alloc: Global,
    realm: &Realm,
    calls: &str,
    happened: &Happened,
) -> Result<(), AllocError>
    ensures { (event : Event) → calls.now ≡ shown_text realm.now (brought event) →
        OnOk result (string_bytes printed.new ≡ string_bytes printed.old ++ shown_text realm.now
        (outputs event happened.now.change happened.now.outcome happened.now.answer)) }
{
    print_front(printed, realm.as_str(), &happened.answer)?;
    printed.push_str(calls)?;
    print_change(printed, alloc, realm, happened)?;
    print_sent(printed, alloc, realm, happened.answer.sent.as_slice())?;
    print_parties(printed, realm.as_str(), &happened.answer)
}

/// Prints a refusal, and a connection that was opened.
#[tactic(auto, using(crate::proofs::Showing::showing))]
fn print_front(printed: &mut String, realm: &str, answer: &Answer) -> Result<(), AllocError>
    ensures { OnOk result (string_bytes printed.new ≡ string_bytes printed.old ++ (shown_text
        realm.now
        (option_to_list (option_map Output.Refused answer.now.refusal))
        ++ shown_text realm.now
        (option_to_list (option_map Output.Opened answer.now.opened)))) }
{
    if let Some(why) = answer.refusal {
        print_refusal(printed, realm, why)?;
    }
    match answer.opened {
        Some(seat) => writeln!(printed, "{realm} {} open", seat.number),
        None => Ok(()),
    }
}

/// Prints a refusal.
pub fn print_refusal(printed: &mut String, realm: &str, why: Refusal) -> Result<(), AllocError>
    ensures { OnOk result
        (string_bytes printed.new ≡ string_bytes printed.old ++ refusal_text realm.now why) }
{
    writeln!(printed, "{realm} refused {why}")
}

/// Prints that a realm was not declared.
pub fn print_nowhere(printed: &mut String, realm: &str) -> Result<(), AllocError>
    ensures { OnOk result
        (string_bytes printed.new ≡ string_bytes printed.old ++ nowhere_text realm.now) }
{
    print_refusal(printed, realm, Refusal::NoRealm)
}

/// Prints the change that an event wanted, if any, by what became of it.
#[tactic(auto, using(crate::proofs::Showing::showing))]
fn print_change(
    printed: &mut String,
    alloc: Global,
    realm: &Realm,
    happened: &Happened,
) -> Result<(), AllocError>
    ensures { OnOk result (string_bytes printed.new ≡ string_bytes printed.old ++ shown_text
        realm.now (option_to_list (option_map
        (λ c. Output.Changed c happened.now.outcome) happened.now.change))) }
{
    match &happened.change {
        Some(change) => print_made(printed, alloc, realm, change, happened.outcome),
        None => Ok(()),
    }
}

/// Prints a change by what became of it.
fn print_made(
    printed: &mut String,
    alloc: Global,
    realm: &Realm,
    change: &Change,
    outcome: Outcome,
) -> Result<(), AllocError>
    ensures { OnOk result (string_bytes printed.new
        ≡ string_bytes printed.old ++ change_text realm.now outcome change.now) }
{
    match outcome {
        Outcome::Stored => print_stored(printed, alloc, realm, change),
        Outcome::NoChange => print_unstored(printed, alloc, realm, change),
        Outcome::Refused => print_unstored(printed, alloc, realm, change),
    }
}

/// Prints a change that the store has made.
fn print_stored(
    printed: &mut String,
    alloc: Global,
    realm: &Realm,
    change: &Change,
) -> Result<(), AllocError>
    ensures { OnOk result (string_bytes printed.new
        ≡ string_bytes printed.old ++ change_text realm.now Stored change.now) }
{
    let name = realm.as_str();
    match change {
        Change::Put { key, row } => {
            let id = id_of(alloc, realm, *key)?;
            writeln!(printed, "{name} put {id} {row}")
        }
        Change::Remove { key } => {
            let id = id_of(alloc, realm, *key)?;
            writeln!(printed, "{name} remove {id}")
        }
    }
}

/// Prints that the store has not made a change.
fn print_unstored(
    printed: &mut String,
    alloc: Global,
    realm: &Realm,
    change: &Change,
) -> Result<(), AllocError>
    ensures { OnOk result (string_bytes printed.new
        ≡ string_bytes printed.old ++ change_text realm.now Refused change.now) }
{
    let name = realm.as_str();
    let id = id_changed(alloc, realm, change)?;
    writeln!(printed, "{name} store refused {id}")
}

/// The identifier of the transaction that a change is of.
fn id_changed(alloc: Global, realm: &Realm, change: &Change) -> Result<Id, AllocError>
    ensures { IfOk result (λ id. id ≡ identifier realm.now (key_changed change.now)) }
{
    match change {
        Change::Put { key, .. } => id_of(alloc, realm, *key),
        Change::Remove { key } => id_of(alloc, realm, *key),
    }
}

/// The identifier of a realm's transaction.
fn id_of(alloc: Global, realm: &Realm, key: Key) -> Result<Id, AllocError>
    ensures { IfOk result (λ id. id ≡ identifier realm.now key) }
{
    Id::of(alloc, realm, key.epoch(), key.connection(), key.number())
}

/// Prints lines and closings.
fn print_sent(
    printed: &mut String,
    alloc: Global,
    realm: &Realm,
    all: &[Sent],
) -> Result<(), AllocError>
    ensures { OnOk result (string_bytes printed.new
        ≡ string_bytes printed.old ++ flat_map (sent_text realm.now) all.now) }
{
    for sent in all {
        print_one(printed, alloc, realm, sent)?;
    }
    Ok(())
}

/// Prints one line or closing.
fn print_one(
    printed: &mut String,
    alloc: Global,
    realm: &Realm,
    sent: &Sent,
) -> Result<(), AllocError>
    ensures { OnOk result
        (string_bytes printed.new ≡ string_bytes printed.old ++ sent_text realm.now sent.now) }
{
    let name = realm.as_str();
    let number = sent.connection;
    match &sent.item {
        Item::Say(said) => {
            let response = said.response(alloc, realm)?;
            writeln!(printed, "{name} {number} say {response}")
        }
        Item::Ask(asked) => {
            let command = asked.command(alloc, realm)?;
            writeln!(printed, "{name} {number} say {command}")
        }
        Item::Close => writeln!(printed, "{name} {number} close"),
    }
}

/// Prints the party that goes out, and the one that is let go.
#[tactic(auto, using(crate::proofs::Showing::showing))]
fn print_parties(printed: &mut String, realm: &str, answer: &Answer) -> Result<(), AllocError>
    ensures { OnOk result (string_bytes printed.new ≡ string_bytes printed.old ++ (shown_text
        realm.now (option_to_list (option_map
        (λ party. Output.Works party.id party.errand) answer.now.work))
        ++ shown_text realm.now (option_map_or drops_of answer.now.spent []))) }
{
    if let Some(party) = &answer.work {
        print_work(printed, realm, party)?;
    }
    match &answer.spent {
        Some(party) => print_drops(printed, realm, party),
        None => Ok(()),
    }
}

/// Prints that no party of a realm is out.
pub fn print_idle(printed: &mut String, realm: &str) -> Result<(), AllocError>
    ensures { OnOk result
        (string_bytes printed.new ≡ string_bytes printed.old ++ idle_text realm.now) }
{
    writeln!(printed, "{realm} idle")
}
