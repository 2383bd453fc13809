// The forms over the system, of which no clause says what they hold or take.

use std::fmt::Display;
use std::io::ErrorKind;
use std::path::AsPath;
use std::test::Fail;
use std::{env, fs, io, process};
use tb_io::{FileRead, Files, RealFiles, RealSink, Sink, Wrote};

// Whether a reading gave these bytes.
fn has(read: &FileRead, want: &[u8]) -> bool {
    match read {
        FileRead::Bytes(bytes) => bytes.as_slice() == want,
        _ => false,
    }
}

#[test]
fn real_files(rt: HostRuntime) -> Result<(), Fail> {
    let place = env::temp_dir(&rt)?;
    let name = format!(in rt.alloc(); "{}/tb_io_{}", place.path_text(), process::id(rt.process()))?;
    fs::write(&rt, name.as_str(), b"abc")?;
    let mut files = RealFiles::new(&rt);
    assert!(rt; has(&files.read(rt.alloc(), name.as_str(), 3), b"abc"));
    assert!(rt; has(&files.read(rt.alloc(), name.as_str(), u64::MAX), b"abc"));
    assert!(rt; matches!(files.read(rt.alloc(), name.as_str(), 2), FileRead::TooLong));
    fs::remove_file(&rt, name.as_str())?;
    for name in [name.as_str(), "/", ""] {
        assert!(rt;
            matches!(files.read(rt.alloc(), name, 9), FileRead::Failed),
            "{name}"
        );
    }
    Ok(())
}

// An output that takes nothing.
struct Closed;

impl Print for Closed {
    fn print<D: Display + Drop>(&self, _value: D) -> io::Result<()> {
        Err(io::Error::from(ErrorKind::BrokenPipe))
    }

    fn println<D: Display + Drop>(&self, _value: D) -> io::Result<()> {
        Err(io::Error::from(ErrorKind::BrokenPipe))
    }

    fn write_all(&self, _bytes: &[u8]) -> io::Result<()> {
        Err(io::Error::from(ErrorKind::BrokenPipe))
    }
}

#[test]
fn open_sink(rt: HostRuntime) -> Result<(), Fail> {
    let mut open = RealSink::new(&rt, rt.alloc())?;
    assert!(rt; open.write(b"a line\n") == Wrote::All);
    assert!(rt; open.flush() == Wrote::All);
    Ok(())
}

#[test]
fn closed_sink(rt: HostRuntime) -> Result<(), Fail> {
    let mut closed = RealSink::new(&Closed, rt.alloc())?;
    assert!(rt; closed.write(b"waits") == Wrote::All);
    assert!(rt; closed.flush() == Wrote::Failed);
    assert!(rt; closed.write(&[b'x'; 65_536]) == Wrote::Failed);
    Ok(())
}
