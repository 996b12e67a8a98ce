//! What is printed of a realm that starts.
ghost use Rattle.std.specs.Prelude.{◌≡◌, ◌++◌, OnOk, string_bytes};
ghost use Rattle.std.specs.List.{flat_map};
ghost use Rattle.tip_transcript.specs.Printing.{adopted_text, number_text, start_text};

use std::alloc::AllocError;
use tip_line::Id;
use tip_rows::Label;

/// Prints the start of a realm in an epoch.
pub fn print_start(printed: &mut String, realm: &str, epoch: u32) -> Result<(), AllocError>
    ensures { OnOk result
        (string_bytes printed.new ≡ string_bytes printed.old ++ start_text realm.now epoch) }
{
    writeln!(printed, "{realm} epoch {epoch}")
}

/// Prints that boxes were adopted for the branches of a row, where there are some.
pub fn print_adopted(
    printed: &mut String,
    realm: &str,
    id: &Id,
    branches: &[(u8, Label)],
) -> Result<(), AllocError>
    ensures { OnOk result (string_bytes printed.new
        ≡ string_bytes printed.old ++ adopted_text realm.now id.now branches.now) }
{
    match branches {
        [] => Ok(()),
        [(first, _), more @ ..] => {
            write!(printed, "{realm} adopt {} {first}", id.as_str())?;
            print_more(printed, more)?;
            printed.push_str("\n")
        }
    }
}

/// Prints the numbers of further branches.
fn print_more(printed: &mut String, branches: &[(u8, Label)]) -> Result<(), AllocError>
    ensures { OnOk result
        (string_bytes printed.new ≡ string_bytes printed.old ++ flat_map number_text branches.now) }
{
    for (number, _) in branches {
        write!(printed, ",{number}")?;
    }
    Ok(())
}
