//! How a connection stands between two events.
ghost use Rattle.std.specs.Prelude.{◌≡◌};
ghost use Rattle.tip_rules.specs.Standing.{standing_of};

use crate::requesting::is_free;
use tip_machine::Connection;

/// How a connection stands between two events (RFC 2371, section 12).
#[derive(Clone, Copy)]
pub enum Standing {
    /// It is closed or lost, or of an earlier start.
    Gone,
    /// A line that comes is taken at once.
    Takes,
    /// We opened it and nothing is under way on it: we may ask. A line that comes waits.
    Free,
    /// A line that comes waits: we owe a response, or await none.
    Waits,
}

/// How a connection stands that is there.
pub(crate) fn standing_of(connection: &Connection) -> Standing
    ensures { result ≡ standing_of connection.now }
{
    if connection.may_take() {
        Standing::Takes
    } else if is_free(connection) {
        Standing::Free
    } else {
        Standing::Waits
    }
}
