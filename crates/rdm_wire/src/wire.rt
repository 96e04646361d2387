//! What carries datagrams between ports.
ghost use Rattle.std.specs.Prelude.{◌≡◌, ◌<◌, ◌≤◌, ℕ, Bool, true, List, [], ◌∷◌, Option, MatchResult, OnOk, OnErr, IfErr, IfSome, IfNone, option_map};
ghost use Rattle.rdm_wire.specs.Counts.{Rose};
ghost use Rattle.rdm_wire.specs.Accounts.{Account, after_push, after_fetches};
ghost use Rattle.rdm_wire.specs.Flights.{InFlight, Pushes, Fetches, Moves, IsFullAt, HasRoomAt, IsEmptyAt, HasSize, IsWithin};

use crate::Datagram;
use rdm_num::PortNo;

/// A device that carries datagrams between ports, which are numbered from 0.
pub trait Wire {
    /// How many ports it has.
    ghost ports: { Self → ℕ };

    /// Whether it serves a port.
    ghost serves: { Self → ℕ → Bool };

    /// How many pushes it refused. A count may stop at the last number of 64 bits.
    ghost fulls: { Self → ℕ };

    /// How many fetches found nothing.
    ghost empties: { Self → ℕ };

    /// What names a queue.
    ghost Table: { Type 0 };

    /// The queues that it stands for.
    ghost tables: { Self → List Table };

    /// What went through it, where it tells that.
    ghost account: { Self → Option Account };

    /// What is in flight, where it tells that.
    ghost held: { Self → Option InFlight };

    /// Whether what it tells to be in flight stands in order.
    ghost in_order: { Self → Bool };

    /// Sends a datagram to its port, or gives it back.
    fn push(&mut self, d: Datagram) -> Result<(), Datagram>
        requires source { serves self.old d.src.0 ≡ true }
        requires target { d.dst.0 < ports self.old }
        ensures kept { (ports self.new ≡ ports self.old) × (serves self.new ≡ serves self.old) × (tables self.new ≡ tables self.old) × (in_order self.new ≡ in_order self.old) }
        ensures back { IfErr result (λ back. back ≡ d) }
        ensures full { OnErr result (Rose (fulls self.old) (fulls self.new)) }
        ensures uncounted { OnOk result (fulls self.new ≡ fulls self.old) }
        ensures counts { (fulls self.old ≤ fulls self.new) × (empties self.new ≡ empties self.old) }
        ensures exact { MatchResult result (λ _. HasRoomAt d.dst.0 (held self.old)) (λ _. IsFullAt d.dst.0 (held self.old)) }
        ensures account { OnOk result (account self.new ≡ option_map (after_push d) (account self.old)) }
        ensures held { OnOk result (Moves (Pushes (in_order self.old) d) (held self.old) (held self.new)) }
        ensures same { OnErr result ((account self.new ≡ account self.old) × (held self.new ≡ held self.old)) }
        ensures size { HasSize (held self.new) };

    /// Takes a datagram that was sent to a port.
    fn fetch(&mut self, port: PortNo) -> Option<Datagram>
        requires { serves self.old port.0 ≡ true }
        ensures kept { (ports self.new ≡ ports self.old) × (serves self.new ≡ serves self.old) × (tables self.new ≡ tables self.old) × (in_order self.new ≡ in_order self.old) }
        ensures came { IfSome result (λ d. (d.dst ≡ port) × (d.src.0 < ports self.old)) }
        ensures none { IfNone result (Rose (empties self.old) (empties self.new)) }
        ensures uncounted { IfSome result (λ _. empties self.new ≡ empties self.old) }
        ensures counts { (fulls self.new ≡ fulls self.old) × (empties self.old ≤ empties self.new) }
        ensures exact { IfNone result (IsEmptyAt port.0 (held self.old)) }
        ensures account { IfSome result (λ d. account self.new ≡ option_map (after_fetches port.0 (d ∷ [])) (account self.old)) }
        ensures held { IfSome result (λ d. Moves (Fetches (in_order self.old) port.0 (d ∷ [])) (held self.old) (held self.new)) }
        ensures same { IfNone result ((account self.new ≡ account self.old) × (held self.new ≡ held self.old)) }
        ensures size { HasSize (held self.new) };

    /// Nothing is in flight beyond its ports.
    ghost within: { (w : Self) → IsWithin (ports w) (held w) };
}
