//! The listing of a store, written to a writer.
ghost use Rattle.tip_rows.specs.Logs.{Log, LeavesSame};
ghost use Rattle.tip_listing.specs.Listing.{Writes, WritesText};

use crate::fault::RowsFault;
use crate::listing::listed;
use std::alloc::Global;
use std::io::Write;
use tip_rows::RowLog;
use tip_writing::write_front;

/// Writes what is stored, as `listed` gives it. Nothing stored changes. Where writing fails, a front of it was written;
/// at any other fault nothing was.
pub fn rows<L: RowLog, W: Write>(
    alloc: Global,
    log: &mut L,
    output: &mut W,
) -> Result<(), RowsFault>
    ensures writes { (now : Log) → L.keeping.stands log.old now → L.keeping.is_true log.new →
        Writes now (W.contents output.old) (W.contents output.new) result }
    ensures same { (now : Log) → L.keeping.stands log.old now → L.keeping.stands log.new now }
    ensures stop { LeavesSame L.keeping log.old log.new }
    ensures truth { L.keeping.is_true log.new → L.keeping.is_true log.old }
{
    let text = listed(alloc, log)?;
    write_text(output, text.as_str())
}

/// Writes a text to its end, and sees that it is out.
fn write_text<W: Write>(output: &mut W, text: &str) -> Result<(), RowsFault>
    ensures { WritesText text.now (W.contents output.old) (W.contents output.new) result }
{
    write_front(output, text.as_bytes())?;
    match output.flush() {
        Ok(()) => Ok(()),
        Err(_) => Err(RowsFault::Write),
    }
}
