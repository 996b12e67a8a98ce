//! Where a realm's own operator is heard.
ghost use Rattle.std.specs.Prelude.{◌↔◌, IsTrue};
ghost use Rattle.std.specs.List.{All};
ghost use Rattle.tip_duties.specs.Controls.{HasOwnControl, IsOwn};

use std::net::SocketAddr;
use tip_settings::RealmConfig;

/// Whether each realm's operator is heard at a place that this machine alone reaches, if anywhere.
pub fn are_controls_own(realms: &[RealmConfig]) -> bool
    ensures { IsTrue result ↔ All HasOwnControl realms.now }
{
    match realms {
        [] => true,
        [realm, rest @ ..] => has_own_control(realm) && are_controls_own(rest),
    }
}

/// Whether a realm's operator is heard at such a place, if anywhere.
fn has_own_control(realm: &RealmConfig) -> bool
    ensures { IsTrue result ↔ HasOwnControl realm.now }
{
    match &realm.control {
        Some(control) => is_own(control.as_str()),
        None => true,
    }
}

/// Whether a place is a loopback address with a port.
#[tactic(auto, using(std::proofs::NetLemmas::Theorems::IsSocketText_unique))]
fn is_own(place: &str) -> bool
    ensures { IsTrue result ↔ IsOwn place.now }
{
    match place.parse::<SocketAddr>() {
        Ok(at) => at.ip().is_loopback(),
        Err(_) => false,
    }
}
