//! What the server says of its realms on standard output.
ghost use Rattle.std.specs.Prelude.{◌≡◌, ◌-◌, ◌^◌, min};
ghost use Rattle.tip_duties.specs.Headings.{entries_of};

use std::fmt;
use tip_journal::Reported;
use tip_line::Realm;

/// A line of standard output, without its end.
#[derive(Clone, Copy)]
pub enum Heading<'a> {
    /// Connections to a realm are accepted at this place.
    Listening { name: &'a Realm, place: &'a str },
    /// All realms are served.
    Ready,
    /// The journals of a realm had so many entries, over all of its starts.
    Entries { name: &'a Realm, entries: u64 },
}

impl fmt::Display for Heading<'_> {
    ghost use Rattle.std.specs.Prelude.{Some};
    ghost use Rattle.tip_duties.specs.Headings.{headed};

    ghost output = { λ heading. Some (headed heading) };

    fn fmt<W: fmt::Write>(&self, f: &mut fmt::Formatter<W>) -> fmt::Result {
        match self {
            Heading::Listening { name, place } => write!(f, "listening {name} {place}"),
            Heading::Ready => write!(f, "ready"),
            Heading::Entries { name, entries } => write!(f, "realm {name} entries {entries}"),
        }
    }
}

/// How many entries a realm has over all of its starts, as far as they can be counted.
pub fn entries_of(report: &[Reported], realm: usize) -> u64
    ensures { result ≡ min (entries_of realm report.now) (2 ^ 64 - 1) }
{
    let mut entries = 0u64;
    for journal in report {
        if journal.realm == realm {
            entries = entries.saturating_add(u64::from(journal.entries));
        }
    }
    entries
}
