//! Fetching from the wire.
ghost use Rattle.std.specs.Prelude.{◌≡◌, ◌≤◌, ◌++◌, true};
ghost use Rattle.rdm_port.specs.Pushes.{IsKeptWire};
ghost use Rattle.rdm_port.specs.Handles.{Fetched};
ghost use Rattle.rdm_port.specs.Movings.{FetchMoves};
ghost use Rattle.rdm_wire.specs.declared.Datagram.{Datagram};
ghost use Rattle.std.specs.Prelude.{List};

use rdm_num::{PortNo, Room};
use rdm_wire::{Datagram, Wire};

/// Fetches up to `inbox` datagrams, in order.
pub fn fetch_into<W: Wire>(stash: &mut Room<Datagram>, wire: &mut W, port: PortNo, inbox: u32)
    requires serves { W.serves wire.old port.0 ≡ true }
    requires room { inbox ≤ stash.old.room }
    ensures kept { IsKeptWire W.ports W.serves wire.old wire.new }
    ensures queues { (W.tables wire.new ≡ W.tables wire.old) × (W.fulls wire.new ≡ W.fulls wire.old) }
    ensures fetched { (got : List Datagram) × (stash.new.list ≡ stash.old.list ++ got) × Fetched (W.in_order wire.old) port.0 inbox got (W.held wire.old) (W.held wire.new)
        × FetchMoves (W.ports wire.old) port.0 inbox got (W.account wire.old) (W.account wire.new) (W.empties wire.old) (W.empties wire.new) }
{
    for _turn in 0..inbox {
        match wire.fetch(port) {
            Some(datagram) => stash.push(datagram),
            None => return,
        }
    }
}
