// With ample memory no call is out of memory.

use std::alloc::Global;
use std::test::Fail;
use tb_base::Memory;
use tb_io::{LineReader, MemListen, MemSink, MemSource, SureSource};

fn readers_are_live(alloc: Global) -> Result<bool, Memory> {
    let lines = LineReader::new(alloc)?;
    Ok(lines.live())
}

fn pieced_sources_hold(alloc: Global) -> Result<bool, Memory> {
    let source = MemSource::new(alloc, b"ab", 1, &[2])?;
    Ok(source.left() == b"ab".as_slice())
}

fn sure_sources_hold(alloc: Global) -> Result<bool, Memory> {
    let source = SureSource::new(alloc, b"ab")?;
    Ok(source.left() == b"ab".as_slice())
}

fn session(alloc: Global) -> Result<(MemSource, MemSink), Memory> {
    let source = MemSource::new(alloc, b"ab", 1, &[])?;
    Ok((source, MemSink::new(alloc, 2)?))
}

fn listeners_hold(alloc: Global) -> Result<bool, Memory> {
    let mut sessions = Vec::new(alloc);
    sessions.push(session(alloc)?)?;
    let listener = MemListen::new(alloc, false, sessions, &[1])?;
    Ok(listener.to_come() == 1 && listener.back() == 0)
}

#[test]
fn ample_memory_is_enough(rt: HostRuntime) -> Result<(), Fail> {
    assert!(rt; readers_are_live(rt.alloc())?);
    assert!(rt; pieced_sources_hold(rt.alloc())?);
    assert!(rt; sure_sources_hold(rt.alloc())?);
    assert!(rt; listeners_hold(rt.alloc())?);
    Ok(())
}
