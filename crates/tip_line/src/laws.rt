//! Laws of the definitions, each carried by a function that does nothing.
ghost use Rattle.std.specs.Prelude.{◌≡◌, List, ℕ};
ghost use Rattle.tip_line.specs.Command as command;
ghost use Rattle.tip_line.specs.Reading.{Item, Reads, items_of};
ghost use Rattle.tip_line.specs.Response as response;
ghost use Rattle.tip_line.specs.declared.command.Command.{Command};
ghost use Rattle.tip_line.specs.declared.response.Response.{Response};

/// A stream of octets gives one list of lines, and no other.
#[tactic(auto, using(crate::proofs::ReadingLaws::reads_items, crate::proofs::ReadingLaws::reads_one))]
pub fn each_stream_gives_one_list()
    ensures some { (octets : List ℕ) → Reads octets (items_of octets) }
    ensures one { (octets : List ℕ) (these those : List Item) → Reads octets these →
        Reads octets those → these ≡ those }
{}

/// The printed spelling of a command is that command.
pub fn printed_commands_are_read()
    ensures { (c : Command) → command.CanBePrinted c → command.IsCommand (command.printed c) c }
{}

/// The printed spelling of a response is that response.
pub fn printed_responses_are_read()
    ensures { (r : Response) → response.CanBePrinted r →
        response.IsResponse (response.printed r) r }
{}
