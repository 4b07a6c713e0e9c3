use dns_data::{Addr, NoMemory, Text, Transport};
use edge_net::{End, Loans, TcpEnd, UdpEnd};
use edge_sockets::{
    Why, every_address, open_tcp, open_tcp_at, open_udp, open_udp_alone, open_udp_beside,
};
use std::alloc::Global;
use std::io;
use std::io::ErrorKind;
use std::net::{Net, TcpListener, UdpSocket};
use std::rt::Files;
use std::sync::Arc;
use stream_connection::Bounds;

/// Why a side of an endpoint isn't there.
#[derive(Clone, Copy, Debug, PartialEq, Eq)]
pub enum Unopened {
    System(Why),
    NoMemory,
}

/// The addresses at which a port is open that somebody else has at one, and those of the host that
/// are left out, as the operator is told.
#[derive(Drop)]
pub struct Apart {
    pub at: Text,
    pub out: Text,
}

#[derive(Drop)]
enum Socket {
    Udp(UdpSocket),
    Tcp(TcpListener),
}

/// A port that is open by one transport: by one socket at every address, or by one at each of
/// those that are free. The sides of its workers share listeners; at every address each has a
/// socket for datagrams.
#[derive(Drop)]
pub struct Endpoint {
    port: u16,
    socket: Socket,
    // At further addresses, where the first is at one alone.
    others: Vec<Socket>,
    apart: Option<Apart>,
    // What its workers lend each other, where each has a socket of its own for datagrams.
    loans: Option<Arc<Loans, Global>>,
}

impl Endpoint {
    /// Opens a port at every address, or where somebody has it at one, at each that is free.
    pub fn open(
        rt: &(impl Net + Files),
        alloc: Global,
        port: u16,
        by: Transport,
    ) -> Result<Endpoint, Unopened> {
        let opened = match by {
            Transport::Udp => open_udp(rt, port).map(Socket::Udp),
            Transport::Tcp => open_tcp(rt, port).map(Socket::Tcp),
        };
        match opened {
            Ok(socket) => Ok(Endpoint {
                port,
                socket,
                others: Vec::new(alloc),
                apart: None,
                loans: loans_for(alloc, by),
            }),
            Err(Why::InUse) => Endpoint::open_apart(rt, alloc, port, by),
            Err(why) => Err(Unopened::System(why)),
        }
    }

    // Opens a port at each address where nobody has it.
    fn open_apart(
        rt: &(impl Net + Files),
        alloc: Global,
        port: u16,
        by: Transport,
    ) -> Result<Endpoint, Unopened> {
        let Some(addresses) = every_address(rt, alloc) else {
            return Err(Unopened::System(Why::InUse));
        };
        let mut others = Vec::new(alloc);
        let mut apart = Apart {
            at: Text::new(alloc),
            out: Text::new(alloc),
        };
        for addr in &addresses {
            let place = match open_at(rt, *addr, port, by) {
                Ok(socket) => {
                    if others.push(socket).is_err() {
                        return Err(Unopened::NoMemory);
                    }
                    &mut apart.at
                }
                Err(Why::InUse) => &mut apart.out,
                Err(_) => continue,
            };
            if add_address(alloc, place, *addr).is_err() {
                return Err(Unopened::NoMemory);
            }
        }
        match others.pop() {
            Some(socket) => Ok(Endpoint {
                port,
                socket,
                others,
                apart: Some(apart),
                loans: None,
            }),
            None => Err(Unopened::System(Why::InUse)),
        }
    }

    /// What the operator is told of a port that isn't open at every address, once.
    pub fn take_apart(&mut self) -> Option<Apart> {
        self.apart.take()
    }

    /// Whether it is of this port and transport.
    pub fn is_at(&self, port: u16, by: Transport) -> bool {
        let same = match &self.socket {
            Socket::Udp(_) => by == Transport::Udp,
            Socket::Tcp(_) => by == Transport::Tcp,
        };
        same && self.port == port
    }

    /// The share of a worker of this number. Where the system gives a port one socket alone, the
    /// workers share it.
    pub fn share(&self, net: &impl Net, alloc: Global, number: u32) -> Result<End, Unopened> {
        match &self.socket {
            Socket::Udp(first) if self.others.is_empty() => {
                let socket = match self.beside(net, first, number) {
                    Some(socket) => socket,
                    None => first.try_clone().map_err(system_fault)?,
                };
                let mut end = UdpEnd::new(alloc, socket, self.port);
                if let Some(loans) = &self.loans {
                    if let Ok(loans) = Arc::try_clone(loans) {
                        end.join(loans, number as usize);
                    }
                }
                Ok(End::Udp(end))
            }
            Socket::Udp(first) => self.share_each(alloc, first),
            Socket::Tcp(listener) => self.share_listeners(net, alloc, listener),
        }
    }

    // A share of sockets at one address each.
    fn share_each(&self, alloc: Global, first: &UdpSocket) -> Result<End, Unopened> {
        let mut others = Vec::new(alloc);
        for other in &self.others {
            if let Socket::Udp(socket) = other {
                let socket = socket.try_clone().map_err(system_fault)?;
                if others.push(socket).is_err() {
                    return Err(Unopened::NoMemory);
                }
            }
        }
        let first = first.try_clone().map_err(system_fault)?;
        match UdpEnd::at_each(alloc, first, others, self.port) {
            Ok(end) => Ok(End::Udp(end)),
            Err(_) => Err(Unopened::NoMemory),
        }
    }

    fn share_listeners(
        &self,
        net: &impl Net,
        alloc: Global,
        listener: &TcpListener,
    ) -> Result<End, Unopened> {
        let bounds = Bounds::usual();
        let mut end = TcpEnd::new(net, alloc, listener, bounds).map_err(system_fault)?;
        for other in &self.others {
            if let Socket::Tcp(listener) = other {
                end.listen(listener).map_err(system_fault)?;
            }
        }
        Ok(End::Tcp(end))
    }

    // A socket of its own for a worker that isn't the first.
    fn beside(&self, net: &impl Net, first: &UdpSocket, number: u32) -> Option<UdpSocket> {
        if number == 0 {
            return None;
        }
        open_udp_beside(net, first, self.port).ok()
    }
}

// For the workers of a port for datagrams. Where there is none, nothing is lent.
fn loans_for(alloc: Global, by: Transport) -> Option<Arc<Loans, Global>> {
    match by {
        Transport::Udp => Arc::new(alloc, Loans::new(alloc)?).ok(),
        Transport::Tcp => None,
    }
}

fn open_at(net: &impl Net, addr: Addr, port: u16, by: Transport) -> Result<Socket, Why> {
    match by {
        Transport::Udp => open_udp_alone(net, addr, port).map(Socket::Udp),
        Transport::Tcp => open_tcp_at(net, addr, port).map(Socket::Tcp),
    }
}

// Puts an address behind those that a text has.
fn add_address(alloc: Global, text: &mut Text, addr: Addr) -> Result<(), NoMemory> {
    let shown = addr.text(alloc)?;
    if !text.as_str().is_empty() {
        text.append(" ")?;
    }
    text.append(shown.as_str())
}

fn system_fault(fault: io::Error) -> Unopened {
    if fault.kind() == ErrorKind::OutOfMemory && fault.raw_os_error().is_none() {
        return Unopened::NoMemory;
    }
    Unopened::System(Why::of_error(&fault))
}
