//! This machine's own addresses, which no other machine reaches.
ghost use Rattle.program.specs.Connections.{IsHere};

use std::io;
use std::net::{Ipv4Addr, SocketAddr, SocketAddrV4, TcpListener};

/// An address that no other machine reaches. Only `here` makes one.
#[derive(Clone, Copy, Debug)]
pub struct LocalAddress(SocketAddr);

/// Leave to listen at such addresses, and at no others.
#[derive(Drop)]
pub struct Loopback<'r> {
    rt: &'r HostRuntime,
}

/// The address with this port that a server listens on.
pub fn here(port: u16) -> LocalAddress
    ensures { IsHere port result.0 }
{
    LocalAddress(SocketAddr::V4(SocketAddrV4::new(Ipv4Addr::new(127, 0, 0, 1), port)))
}

impl<'r> Loopback<'r> {
    /// Leave to listen on this machine.
    pub fn new(rt: &'r HostRuntime) -> Loopback<'r> {
        Loopback { rt }
    }

    /// Listens at the address.
    pub fn bind(&self, address: LocalAddress) -> io::Result<TcpListener> {
        TcpListener::bind(self.rt, address.0)
    }
}
