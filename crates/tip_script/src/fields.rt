//! Fields of a script line that are names and numbers.
ghost use Rattle.std.specs.Prelude.{◌≡◌, option_map};
ghost use Rattle.tip_line.specs.Ids.{number_in};
ghost use Rattle.tip_script.specs.Scripts.{realm_in};

use std::str;
use tip_line::{is_realm, number_of};

/// A field as the name of a realm.
#[tactic(auto, using(crate::proofs::Texts::no_realm))]
pub fn realm_in(field: &[u8]) -> Option<&str>
    ensures { option_map (λ name. name.now) result ≡ realm_in field.now }
{
    match str::from_utf8(field) {
        Ok(name) if is_realm(field) => Some(name),
        _ => None,
    }
}

/// A field as a number, in decimal without leading zeros.
#[tactic(auto, using(crate::proofs::Texts::no_number))]
pub fn number_in(field: &[u8]) -> Option<u32>
    ensures { result ≡ number_in field.now }
{
    match str::from_utf8(field) {
        Ok(text) => number_of(text),
        Err(_) => None,
    }
}
