//! The boxes that come with a connection, a letter for each.
ghost use Rattle.std.specs.Prelude.{◌≡◌, option_map};
ghost use Rattle.std.specs.List.{list_all};
ghost use Rattle.tip_script.specs.Scripts.{are_kinds, is_kind, kinds_in, plan_of};

use tip_branch::Plan;

/// What a box of this letter promises: `y` votes yes, `n` no, `r` read-only; `l` votes yes, and its first commit is answered
/// Later. No other letter is one.
pub fn plan_of(kind: u8) -> Plan
    ensures { result ≡ plan_of kind }
{
    match kind {
        b'y' => Plan::Yes,
        b'n' => Plan::No,
        b'r' => Plan::ReadOnly,
        _ => Plan::Late,
    }
}

/// The letters of a field; `-` stands for none.
pub(crate) fn kinds_in(field: &[u8]) -> Option<&[u8]>
    ensures { option_map (λ kinds. kinds.now) result ≡ kinds_in field.now }
{
    if field == b"-".as_slice() {
        return Some(b"");
    }
    are_kinds(field).then_some(field)
}

/// Whether these are one or more letters of boxes.
pub fn are_kinds(field: &[u8]) -> bool
    ensures { result ≡ are_kinds field.now }
{
    !field.is_empty() && are_all_kinds(field)
}

fn are_all_kinds(field: &[u8]) -> bool
    ensures { result ≡ list_all is_kind field.now }
{
    field.iter().all(|octet| is_kind(*octet))
}

fn is_kind(octet: u8) -> bool
    ensures { result ≡ is_kind octet }
{
    matches!(octet, b'y' | b'n' | b'r' | b'l')
}
