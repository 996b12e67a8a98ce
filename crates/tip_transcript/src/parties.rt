//! What is printed of the members of a party.
ghost use Rattle.std.specs.Prelude.{◌≡◌, ◌++◌, OnOk, string_bytes};
ghost use Rattle.std.specs.List.{flat_map};
ghost use Rattle.tip_branch.specs.Members.{is_active};
ghost use Rattle.tip_machine.specs.Outputs.{brought, drops_of};
ghost use Rattle.tip_transcript.specs.Printing.{call_text, call_word, errand_word, left_text, member_text, shown_text, work_text};

use std::alloc::AllocError;
use tip_branch::{Call, Errand, HeldParty, Member, Phase, Settled, Vote};
use tip_machine::Event;

/// Prints the calls that an event brings with it.
#[tactic(auto, using(crate::proofs::Showing::showing))]
pub fn print_brought(printed: &mut String, realm: &str, event: &Event) -> Result<(), AllocError>
    ensures { OnOk result (string_bytes printed.new
        ≡ string_bytes printed.old ++ shown_text realm.now (brought event.now)) }
{
    match event {
        Event::Voted(party) | Event::Settled(party) => print_calls(printed, realm, party),
        _ => Ok(()),
    }
}

/// Prints the new calls of a party.
fn print_calls(printed: &mut String, realm: &str, party: &HeldParty) -> Result<(), AllocError>
    ensures { OnOk result (string_bytes printed.new ≡ string_bytes printed.old
        ++ flat_map (member_text realm.now party.now.id) party.now.members) }
{
    let party = party.party();
    let id = party.id().as_str();
    for member in party.members() {
        print_call(printed, realm, id, member)?;
    }
    Ok(())
}

/// Prints the new call of a member, if there was one.
fn print_call(
    printed: &mut String,
    realm: &str,
    id: &str,
    member: &Member,
) -> Result<(), AllocError>
    ensures { OnOk result (string_bytes printed.new
        ≡ string_bytes printed.old ++ member_text realm.now id.now member.now) }
{
    match member.call {
        Some(call) => {
            let word = call_word(call);
            writeln!(printed, "{realm} call {id} {} {word}", member.number)
        }
        None => Ok(()),
    }
}

fn call_word(call: Call) -> &'static str
    ensures { result.now ≡ call_word call }
{
    match call {
        Call::Vote(Vote::Yes) => "vote yes",
        Call::Vote(Vote::No) => "vote no",
        Call::Vote(Vote::ReadOnly) => "vote read",
        Call::Commit(Settled::Done) => "commit done",
        Call::Commit(Settled::Later) => "commit later",
        Call::Abort => "abort",
    }
}

/// Prints that a party goes out.
pub(crate) fn print_work(
    printed: &mut String,
    realm: &str,
    party: &HeldParty,
) -> Result<(), AllocError>
    ensures { OnOk result (string_bytes printed.new
        ≡ string_bytes printed.old ++ work_text realm.now party.now.id party.now.errand) }
{
    let party = party.party();
    let word = errand_word(party.errand());
    writeln!(printed, "{realm} work {word} {}", party.id().as_str())
}

fn errand_word(errand: Errand) -> &'static str
    ensures { result.now ≡ errand_word errand }
{
    match errand {
        Errand::Idle => "idle",
        Errand::Vote => "vote",
        Errand::Commit => "commit",
        Errand::Abort => "abort",
    }
}

/// Prints the active members of a party that is let go.
#[tactic(auto, using(crate::proofs::Showing::showing))]
pub fn print_drops(printed: &mut String, realm: &str, party: &HeldParty) -> Result<(), AllocError>
    ensures { OnOk result (string_bytes printed.new
        ≡ string_bytes printed.old ++ shown_text realm.now (drops_of party.now)) }
{
    print_left(printed, realm, party)
}

/// Prints the active members of a party that is let go, one after another.
fn print_left(printed: &mut String, realm: &str, party: &HeldParty) -> Result<(), AllocError>
    ensures { OnOk result (string_bytes printed.new ≡ string_bytes printed.old
        ++ flat_map (left_text realm.now party.now.id) party.now.members) }
{
    let party = party.party();
    let id = party.id().as_str();
    for member in party.members() {
        print_drop(printed, realm, id, member)?;
    }
    Ok(())
}

/// Prints that a member is dropped, if it is active.
fn print_drop(
    printed: &mut String,
    realm: &str,
    id: &str,
    member: &Member,
) -> Result<(), AllocError>
    ensures { OnOk result (string_bytes printed.new
        ≡ string_bytes printed.old ++ left_text realm.now id.now member.now) }
{
    match member.standing.phase {
        Phase::Active => writeln!(printed, "{realm} call {id} {} drop", member.number),
        Phase::Ready | Phase::Ended => Ok(()),
    }
}
