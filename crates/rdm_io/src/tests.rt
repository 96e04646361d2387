use crate::{Failed, MemSink, MemSource, Sink, Source, StdSink, StdSource};
use std::test::Fail;

#[test]
fn a_source_gives_its_content_in_steps(rt: HostRuntime) -> Result<(), Fail> {
    let alloc = rt.alloc();
    let content = b"hello".to_vec(alloc)?;
    let mut source = MemSource::new(content, 3, vec![in alloc; 1]?);
    let mut room = [0u8; 4];
    assert_eq!(rt; source.read(&mut room), Ok(3));
    assert_eq!(rt; &room[..3], b"hel".as_slice());
    assert_eq!(rt;
        source.read(&mut room),
        Err(Failed),
        "the call of number 1 fails"
    );
    assert_eq!(rt; source.read(&mut room), Ok(2));
    assert_eq!(rt; &room[..2], b"lo".as_slice());
    assert_eq!(rt; source.read(&mut room), Ok(0), "the end");
    Ok(())
}

#[test]
fn a_sink_takes_pieces_until_it_is_full(rt: HostRuntime) -> Result<(), Fail> {
    let alloc = rt.alloc();
    let mut sink = MemSink::new(alloc, 6, 4, vec![in alloc; 1]?)?;
    assert_eq!(rt; sink.write(b"hello"), Ok(4));
    assert_eq!(rt; sink.write(b"o"), Err(Failed), "the call of number 1 fails");
    assert_eq!(rt; sink.write(b"o, world"), Ok(2), "the room that is free");
    assert_eq!(rt; sink.write(b" world"), Err(Failed), "it is full");
    assert_eq!(rt; sink.given(), b"hello,".as_slice());
    Ok(())
}

#[test]
fn a_reader_is_a_source(rt: HostRuntime) {
    let mut source = StdSource::new(b"hello".as_slice());
    let mut room = [0u8; 3];
    assert_eq!(rt; source.read(&mut room), Ok(3));
    assert_eq!(rt; room.as_slice(), b"hel".as_slice());
    assert_eq!(rt; source.read(&mut room), Ok(2));
    assert_eq!(rt; &room[..2], b"lo".as_slice());
    assert_eq!(rt; source.read(&mut room), Ok(0));
}

#[test]
fn a_writer_is_a_sink(rt: HostRuntime) {
    let mut page = [0u8; 4];
    let mut sink = StdSink::new(page.as_mut_slice());
    assert_eq!(rt; sink.write(b"hello"), Ok(4));
    assert_eq!(rt; sink.write(b"o"), Err(Failed), "nothing of it was taken");
    assert_eq!(rt; page.as_slice(), b"hell".as_slice());
}
