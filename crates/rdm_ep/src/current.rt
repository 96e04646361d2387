//! Which life of a port is current.
ghost use Rattle.std.specs.Prelude.{◌≡◌, ◌==◌, find};
ghost use Rattle.std.specs.List.{position_from};
ghost use Rattle.rdm_ep.specs.Places.{IsPlace};

use rdm_num::{Life, PortNo};

/// Searches for the current life of a port.
fn search(currents: &[Life], port: PortNo) -> Option<usize>
    ensures { result ≡ position_from (λ l. l.port.0 == port.0) 0 currents.now }
{
    currents.iter().position(|life| life.port.0 == port.0)
}

/// Where the current life of a port stands.
fn place_of(currents: &[Life], port: PortNo) -> Option<usize>
    ensures { IsPlace (λ l. l.port.0 == port.0) currents.now result }
{
    search(currents, port)
}

/// The current life of a port.
pub fn current_of(currents: &[Life], port: PortNo) -> Option<Life>
    ensures { result ≡ find (λ l. l.port.0 == port.0) currents.now }
{
    match place_of(currents, port) {
        Some(at) => currents.get(at).copied(),
        None => None,
    }
}
