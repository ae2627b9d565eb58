ghost use Rattle.std.specs.Prelude.{◌<◌, length};

use sg_outside::{
    Files, FreeGate, Gate, Got, MemFiles, MemSink, NamedBytes, Phase, Put, RealFiles, RealOut, Sink,
};
use std::alloc::{AllocError, Global};
use std::fmt::Display;
use std::io::{Error, ErrorKind};
use std::test::Fail;
use std::{fs, io};

/// An output that is closed.
#[derive(Drop)]
struct Closed;

impl Print for Closed {
    fn print<D: Display + Drop>(&self, _value: D) -> io::Result<()> {
        Err(Error::from(ErrorKind::BrokenPipe))
    }

    fn println<D: Display + Drop>(&self, _value: D) -> io::Result<()> {
        Err(Error::from(ErrorKind::BrokenPipe))
    }

    fn write_all(&self, _bytes: &[u8]) -> io::Result<()> {
        Err(Error::from(ErrorKind::BrokenPipe))
    }
}

// One file of three bytes, in memory, of which no read fails.
fn letters_in_memory(alloc: Global) -> Result<MemFiles, AllocError> {
    let letters = NamedBytes {
        name: String::from_str(alloc, "letters")?,
        bytes: Vec::from_slice(alloc, b"abc")?,
    };
    let names = vec![in alloc; letters]?;
    Ok(MemFiles::new(names, Vec::new(alloc)))
}

fn read_from<F: Files>(files: &mut F, name: &str, limit: u64, into: &mut Vec<u8>) -> Got {
    files.read(name, limit, into)
}

fn put_to<S: Sink>(sink: &mut S, piece: &[u8]) -> Put
    requires { 0 < length piece.now }
{
    sink.put(piece)
}

#[test]
fn a_file_in_memory_is_read(rt: HostRuntime) -> Result<(), Fail> {
    let mut files = letters_in_memory(rt.alloc())?;
    let mut into = Vec::new(rt.alloc());
    let got = read_from(&mut files, "letters", 3, &mut into);
    assert_eq!(rt; (got, files.faults(), files.reads()), (Got::All, 0, 1));
    assert_eq!(rt; into.as_slice(), b"abc".as_slice());
    Ok(())
}

#[test]
fn a_sink_keeps_what_is_put(rt: HostRuntime) {
    let mut sink = MemSink::new(rt.alloc(), Vec::new(rt.alloc()), 0);
    let put = put_to(&mut sink, b"ab");
    assert_eq!(rt; (put, sink.faults()), (Put::All, 0));
    assert_eq!(rt; sink.bytes(), b"ab".as_slice());
}

#[test]
fn reads_real_files(rt: HostRuntime) -> Result<(), Fail> {
    fs::write(&rt, "letters", b"abcde".as_slice())?;
    let mut files = RealFiles::new(&rt);
    let mut into = Vec::new(rt.alloc());
    for (limit, wanted, many) in [
        (4, Got::TooLong, 5),
        (2, Got::TooLong, 3),
        (0, Got::TooLong, 1),
        (u64::MAX, Got::All, 5),
        (5, Got::All, 5),
    ] {
        let got = read_from(&mut files, "letters", limit, &mut into);
        assert_eq!(rt; (got, into.len()), (wanted, many), "{limit}");
    }
    assert_eq!(rt; into.as_slice(), b"abcde".as_slice());
    for name in ["absent", "."] {
        let got = read_from(&mut files, name, 100, &mut into);
        assert_eq!(rt; got, Got::Failed, "{name}");
    }
    assert_eq!(rt; (files.faults(), files.reads()), (2, 7));
    Ok(())
}

#[test]
fn writes_to_the_output(rt: HostRuntime) {
    let mut out = RealOut::new(&rt);
    assert_eq!(rt; put_to(&mut out, b"a piece\n"), Put::All);
    assert_eq!(rt; out.faults(), 0);
    let closed = Closed;
    let mut out = RealOut::new(&closed);
    assert_eq!(rt; put_to(&mut out, b"a piece\n"), Put::Failed { taken: 0 });
    assert_eq!(rt; out.faults(), 1);
    FreeGate.before(Phase::Activate, 0, 0);
}
