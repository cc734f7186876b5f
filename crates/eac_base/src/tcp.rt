// Connections over TCP, part of the trusted edge.
ghost use Rattle.std.specs.Prelude.{◌≡◌, None, IfOk};

use crate::std_streams::{read_once, write_once};
use crate::{Failed, Listener, Sink, Source, Stream};
use std::io;
use std::net::{Ipv4Addr, Net, TcpListener, TcpStream};

/// A connection over TCP. It counts its faults and tells nothing.
#[derive(Drop)]
pub struct TcpConn {
    stream: TcpStream,
    faults: u64,
    lost: u64,
}

impl Stream for TcpConn {
    ghost left = { λ _. None };

    ghost faults = { λ c. c.faults };

    ghost reads = { λ _. None };

    ghost taken = { λ _. None };

    ghost lost = { λ c. c.lost };
}

impl Source for TcpConn {
    fn read(&mut self, into: &mut [u8]) -> Result<usize, Failed> {
        match read_once(&mut self.stream, into) {
            Ok(count) => Ok(count),
            Err(_) => {
                self.faults = self.faults.saturating_add(1);
                Err(Failed)
            }
        }
    }
}

impl Sink for TcpConn {
    fn write(&mut self, from: &[u8]) -> Result<usize, Failed> {
        match write_once(&mut self.stream, from) {
            Ok(count) if 0 < count || from.is_empty() => Ok(count),
            _ => {
                self.lost = self.lost.saturating_add(1);
                Err(Failed)
            }
        }
    }
}

/// Connections to a port of loopback. It counts its faults and tells nothing but how many connections are out.
#[derive(Drop)]
pub struct TcpListening {
    listener: TcpListener,
    out: u64,
    faults: u64,
}

impl TcpListening {
    /// Listens on this port.
    pub fn bind(
        rt: &impl Net<Listener = TcpListener, Stream = TcpStream>,
        port: u16,
    ) -> io::Result<TcpListening>
        ensures { IfOk result (λ l. (l.out ≡ 0) × (l.faults ≡ 0)) }
    {
        let listener = TcpListener::bind(rt, (Ipv4Addr::LOCALHOST, port))?;
        Ok(TcpListening {
            listener,
            out: 0,
            faults: 0,
        })
    }

    #[cfg(test)]
    pub(crate) fn port(&self) -> io::Result<u16> {
        Ok(self.listener.local_addr()?.port())
    }
}

impl Listener for TcpListening {
    type Conn = TcpConn;

    ghost coming = { λ _. None };

    ghost finished = { λ _. None };

    ghost out = { λ l. l.out };

    ghost faults = { λ l. l.faults };

    fn accept(&mut self) -> Result<TcpConn, Failed> {
        if let Some(out) = self.out.checked_add(1)
            && let Ok((stream, _)) = self.listener.accept()
        {
            self.out = out;
            return Ok(TcpConn {
                stream,
                faults: 0,
                lost: 0,
            });
        }
        self.faults = self.faults.saturating_add(1);
        Err(Failed)
    }

    // Dropping a stream closes it.
    fn finish(&mut self, conn: TcpConn) {
        self.out -= 1;
        drop(conn);
    }
}
