//! Where another manager is called.
ghost use Rattle.std.specs.Prelude.{◌≡◌, IfOk, string_bytes};
ghost use Rattle.tip_duties.specs.Peers.{has_port, host_in, place_of};

use std::alloc::{AllocError, Global};
use tip_line::Address;

/// The host and the port at which a manager of this address is called. What stands before the first `/` names them; without a
/// port it is 3372 (RFC 2371, section 7).
pub fn place_of(alloc: Global, address: &Address) -> Result<String, AllocError>
    ensures { IfOk result (λ place. string_bytes place ≡ place_of address.now) }
{
    let host = host_in(address.as_str());
    let mut place = String::from_str(alloc, host)?;
    if !has_port(host.as_bytes()) {
        place.push_str(":3372")?;
    }
    Ok(place)
}

/// Whether a port is named.
fn has_port(host: &[u8]) -> bool
    ensures { result ≡ has_port host.now }
{
    host.iter().any(|octet| *octet == b':')
}

/// What stands before the first `/`.
fn host_in(text: &str) -> &str
    ensures { result.now ≡ host_in text.now }
{
    match text.split_once('/') {
        Some((host, _)) => host,
        None => text,
    }
}
