ghost use Rattle.std.specs.Prelude.{◌≡◌, true, IfOk};
ghost use Rattle.eac_base.specs.Connections.{is_fresh};

use crate::{
    Ack, Acks, ByteLists, FailPlan, Failed, Listener, MemoryConn, MemoryListener, MemorySink,
    MemorySource, Octets, ReadRefusal, Source, StdSink, StdSource, TcpListening, is_same, read_all,
    write_all,
};
use std::alloc::Global;
use std::io;
use std::io::{ErrorKind, Read, Write};
use std::net::{Ipv4Addr, TcpStream};
use std::test::Fail;

#[test]
fn lists_grow_where_memory_is_there(rt: HostRuntime) -> Result<(), Fail> {
    let alloc = rt.alloc();
    let mut lists = ByteLists::new(alloc);
    lists.push(b"run")?;
    let mut acks = Acks::new(alloc);
    let ack = Ack {
        chip: 3,
        import: 1,
        calls: 7,
    };
    acks.push(ack)?;
    let mut octets = Octets::with_room(alloc, 4)?;
    octets.push_all(b"ab")?;
    octets.push_all(b"cd")?;
    octets.truncate(3);
    assert_eq!(rt; lists.get(0), Some(b"run".as_slice()));
    assert_eq!(rt; acks.get(0), Some(&ack));
    assert_eq!(rt; octets.as_slice(), b"abc".as_slice());
    Ok(())
}

#[test]
fn what_was_read_is_written(rt: HostRuntime) -> Result<(), Fail> {
    let alloc = rt.alloc();
    let text = Octets::from_slice(alloc, b"day 240101\n")?;
    let mut source = MemorySource::new(text, 3, 5, FailPlan::new(alloc));
    let bytes = read_all(alloc, &mut source, 11).unwrap_or(Octets::new(alloc));
    let mut sink = MemorySink::new(alloc, 11, FailPlan::new(alloc))?;
    assert!(rt; write_all(&mut sink, bytes.as_slice()).is_ok());
    assert_eq!(rt; sink.bytes(), b"day 240101\n".as_slice());
    let text = Octets::from_slice(alloc, b"day 240101\n")?;
    let mut source = MemorySource::new(text, 3, 5, FailPlan::new(alloc));
    assert!(rt; matches!(read_all(alloc, &mut source, 10), Err(ReadRefusal::TooLong)));
    Ok(())
}

/// A stream whose next calls a signal interrupts.
#[derive(Drop)]
struct Interrupted<T> {
    calls: u8,
    inner: T,
}

impl<T> Interrupted<T> {
    fn passes(&mut self) -> bool {
        let passes = self.calls == 0;
        self.calls = self.calls.saturating_sub(1);
        passes
    }
}

impl<T: Read> Read for Interrupted<T> {
    ghost use Rattle.std.specs.Prelude.{None};

    ghost remaining = { λ _. None };

    fn read(&mut self, buf: &mut [u8]) -> io::Result<usize> {
        if self.passes() {
            self.inner.read(buf)
        } else {
            Err(io::Error::from(ErrorKind::Interrupted))
        }
    }
}

impl<T: Write> Write for Interrupted<T> {
    ghost use Rattle.std.specs.Prelude.{None};

    ghost contents = { λ _. None };

    fn write(&mut self, buf: &[u8]) -> io::Result<usize> {
        if self.passes() {
            self.inner.write(buf)
        } else {
            Err(io::Error::from(ErrorKind::Interrupted))
        }
    }

    fn flush(&mut self) -> io::Result<()> {
        Ok(())
    }
}

#[test]
fn an_interrupted_call_is_tried_again(rt: HostRuntime) -> Result<(), Fail> {
    let alloc = rt.alloc();
    let mut source = StdSource::new(Interrupted {
        calls: 2,
        inner: b"day".as_slice(),
    });
    let bytes = read_all(alloc, &mut source, 3).unwrap_or(Octets::new(alloc));
    assert!(rt; is_same(bytes.as_slice(), b"day"));
    let mut sink = StdSink::new(Interrupted {
        calls: 2,
        inner: io::sink(),
    });
    assert!(rt; write_all(&mut sink, b"day").is_ok());
    Ok(())
}

fn connection(alloc: Global, input: &[u8]) -> Result<MemoryConn, Fail>
    ensures { IfOk result (λ conn. is_fresh conn ≡ true) }
{
    let input = Octets::from_slice(alloc, input)?;
    let source = MemorySource::new(input, 2, 3, FailPlan::new(alloc));
    let sink = MemorySink::new(alloc, 8, FailPlan::new(alloc))?;
    Ok(MemoryConn::new(source, sink))
}

/// Reads the next connection to its end and writes back what came.
fn echo<L: Listener>(alloc: Global, listener: &mut L) -> Result<(), Failed> {
    let mut conn = listener.accept()?;
    let came = read_all(alloc, &mut conn, 8).unwrap_or(Octets::new(alloc));
    let written = write_all(&mut conn, came.as_slice());
    drop(came);
    listener.finish(conn);
    written
}

#[test]
fn a_connection_is_served_and_taken_back(rt: HostRuntime) -> Result<(), Fail> {
    let alloc = rt.alloc();
    let mut plan = FailPlan::new(alloc);
    plan.push(2)?;
    let mut listener = MemoryListener::new(alloc, plan);
    listener.push(connection(alloc, b"first")?)?;
    listener.push(connection(alloc, b"second")?)?;
    assert!(rt; echo(alloc, &mut listener).is_ok());
    assert!(rt; echo(alloc, &mut listener).is_err());
    assert!(rt; echo(alloc, &mut listener).is_ok());
    assert!(rt; echo(alloc, &mut listener).is_err());
    let done = listener.finished();
    assert!(rt; done.len() == 2);
    assert!(rt; is_same(done[0].bytes(), b"first"));
    assert!(rt; is_same(done[1].bytes(), b"second"));
    Ok(())
}

#[test]
fn a_connection_over_loopback_is_read_and_written(rt: HostRuntime) -> Result<(), Fail> {
    let mut listener = TcpListening::bind(&rt, 0)?;
    let mut client = TcpStream::connect(&rt, (Ipv4Addr::LOCALHOST, listener.port()?))?;
    client.write_all(b"day")?;
    let mut conn = listener.accept().map_err(|_| "no connection")?;
    let mut came = [0; 3];
    assert!(rt; matches!(Source::read(&mut conn, &mut came), Ok(3)));
    assert!(rt; write_all(&mut conn, &came).is_ok());
    listener.finish(conn);
    let mut back = [0; 4];
    assert!(rt; matches!(client.read(&mut back), Ok(3)));
    assert!(rt; is_same(&back[..3], b"day"));
    assert!(rt; matches!(client.read(&mut back), Ok(0)));
    Ok(())
}
