ghost use Rattle.std.specs.Prelude.{◌≡◌, ◌<◌, true};

use crate::{Body, Datagram, MemWire, NoteBody, Wire};
use rdm_num::{DatagramNo, PortNo, Stamp};
use std::test::Fail;

fn said(number: u64, what: u64) -> Datagram
    ensures { (result.src.0 ≡ 0) × (result.dst.0 ≡ 1) }
{
    Datagram {
        src: PortNo(0),
        number: DatagramNo(number),
        stamp: Stamp(number),
        dst: PortNo(1),
        body: Body::Note(NoteBody::Said(what)),
    }
}

#[test]
fn a_queue_of_one_place_refuses_the_second(rt: HostRuntime) -> Result<(), Fail> {
    let mut wire = MemWire::new(rt.alloc(), 2, 1)?;
    assert!(rt; wire.push(said(0, 7)).is_ok());
    assert!(rt; wire.push(said(1, 8)) == Err(said(1, 8)));
    assert!(rt; wire.fetch(PortNo(0)).is_none());
    assert!(rt; wire.fetch(PortNo(1)) == Some(said(0, 7)));
    assert!(rt; wire.fetch(PortNo(1)).is_none());
    Ok(())
}

fn send_both<W: Wire>(wire: &mut W, first: Datagram, second: Datagram) -> bool
    requires source { (W.serves wire.old first.src.0 ≡ true) × (W.serves wire.old second.src.0 ≡ true) }
    requires target { (first.dst.0 < W.ports wire.old) × (second.dst.0 < W.ports wire.old) }
    ensures kept { (W.ports wire.new ≡ W.ports wire.old) × (W.serves wire.new ≡ W.serves wire.old) }
{
    wire.push(first).is_ok() && wire.push(second).is_ok()
}

#[test]
fn the_first_in_is_the_first_out(rt: HostRuntime) -> Result<(), Fail> {
    let mut wire = MemWire::new(rt.alloc(), 2, 2)?;
    assert!(rt; send_both(&mut wire, said(0, 7), said(1, 8)));
    assert!(rt; wire.fetch(PortNo(1)) == Some(said(0, 7)));
    assert!(rt; wire.fetch(PortNo(1)) == Some(said(1, 8)));
    Ok(())
}
