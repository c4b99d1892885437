ghost use Rattle.std.specs.Prelude.{◌<◌, length};

use crate::{Got, MemSink, MemSource, Put, Sink, Source, StdSink, StdSource, write_all};
use std::fs::File;
use std::io::pipe;
use std::test::Fail;

fn next<S: Source>(source: &mut S, into: &mut [u8]) -> Got
    requires { 0 < length into.old }
{
    source.read(into)
}

#[test]
fn source_gives_pieces_between_faults(rt: HostRuntime) -> Result<(), Fail> {
    let bytes = b"abcde".to_vec(rt.alloc())?;
    let mut source = MemSource::new(bytes, 2, [1].to_vec(rt.alloc())?);
    let mut into = *b"---";
    for (got, front) in [
        (Got::Bytes(2), b"ab-"),
        (Got::Failed, b"ab-"),
        (Got::Bytes(2), b"cd-"),
        (Got::Bytes(1), b"ed-"),
        (Got::End, b"ed-"),
    ] {
        assert_eq!(rt; next(&mut source, &mut into), got);
        assert_eq!(rt; into, *front);
    }
    Ok(())
}

#[test]
fn source_gives_one_byte_at_a_time(rt: HostRuntime) -> Result<(), Fail> {
    let bytes = b"xyz".to_vec(rt.alloc())?;
    let mut source = MemSource::new(bytes, 9, Vec::new(rt.alloc()));
    let mut into = [0];
    for byte in b"xyz" {
        assert_eq!(rt; source.read(&mut into), Got::Bytes(1));
        assert_eq!(rt; into[0], *byte);
    }
    assert_eq!(rt; source.read(&mut into), Got::End);
    Ok(())
}

#[test]
fn sink_takes_one_byte_a_call_until_full(rt: HostRuntime) -> Result<(), Fail> {
    let mut sink = MemSink::new(rt.alloc(), 2, 1, Vec::new(rt.alloc()))?;
    for (bytes, put) in [
        (b"ab".as_slice(), Put::Took(1)),
        (b"".as_slice(), Put::Took(0)),
        (b"cd".as_slice(), Put::Took(1)),
        (b"e".as_slice(), Put::Failed),
        (b"".as_slice(), Put::Took(0)),
    ] {
        assert_eq!(rt; sink.write(bytes), put);
    }
    assert_eq!(rt; sink.taken(), b"ac".as_slice());
    Ok(())
}

#[test]
fn write_all_stops_at_a_fault_and_can_go_on(rt: HostRuntime) -> Result<(), Fail> {
    let mut sink = MemSink::new(rt.alloc(), 8, 2, [1].to_vec(rt.alloc())?)?;
    assert!(rt; write_all(&mut sink, b"abcde").is_err());
    assert_eq!(rt; sink.taken(), b"ab".as_slice());
    assert!(rt; write_all(&mut sink, b"cde").is_ok());
    assert_eq!(rt; sink.taken(), b"abcde".as_slice());
    Ok(())
}

#[test]
fn bytes_go_through_a_pipe(rt: HostRuntime) -> Result<(), Fail> {
    let (reader, writer) = pipe(&rt)?;
    let mut source = StdSource::new(reader);
    let mut sink = StdSink::new(writer);
    assert!(rt; write_all(&mut sink, b"abc").is_ok());
    drop(sink);
    let mut into = *b"--";
    assert_eq!(rt; source.read(&mut into), Got::Bytes(2));
    assert_eq!(rt; into, *b"ab");
    assert_eq!(rt; source.read(&mut into), Got::Bytes(1));
    assert_eq!(rt; into, *b"cb");
    assert_eq!(rt; source.read(&mut into), Got::End);
    Ok(())
}

// The system refuses a write to a pipe that nobody reads, and a read of a folder.
#[test]
fn errors_of_the_system_are_faults(rt: HostRuntime) -> Result<(), Fail> {
    let (reader, writer) = pipe(&rt)?;
    drop(reader);
    let mut sink = StdSink::new(writer);
    assert_eq!(rt; sink.write(b"a"), Put::Failed);
    assert_eq!(rt; sink.write(b""), Put::Took(0));
    let mut source = StdSource::new(File::open(&rt, ".")?);
    assert_eq!(rt; source.read(&mut [0]), Got::Failed);
    Ok(())
}
