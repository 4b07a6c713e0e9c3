ghost use Rattle.std.specs.Prelude.{◌≡◌, ◌≤◌, vec_len, Some, IfOk};
ghost use Rattle.edge_sockets.specs.{client_of};

use crate::arrival::Arrival;
use crate::clock::moment;
use crate::loans::{Loans, Seat, readable};
use dns_data::{Addr, Buffer, NoMemory};
use edge_sockets::{
    Client, PATIENCE, Sender, Unreceived, host_addresses, open_udp_at, poke, receive, reply_to,
    share_port,
};
use libc::net as c;
use libc::types::pollfd;
use std::alloc::Global;
use std::mem;
use std::net::{Net, UdpSocket};
use std::os::fd::AsRawFd;
use std::rt::Files;
use std::sync::{Arc, Wait};
use std::time::Clock;

// As many bytes as a datagram can have.
const LARGEST: usize = 65_535;

// The time after which the host's addresses are looked at again, in milliseconds, and how many
// datagrams may come before the clock is.
const BETWEEN: u64 = 10_000;

const ROW: u32 = 64;

// How often a receive may be woken for nothing before it ends as behind a second.
const LOOKS: u32 = 1_024;

/// One worker's share of a UDP port. A host with several addresses has a socket at each of them
/// beside the one at every address, since the system would pick the source of a reply by itself.
#[derive(Drop)]
pub struct UdpEnd {
    alloc: Global,
    port: u16,
    socket: UdpSocket,
    // Where the system writes the next datagram, and how many bytes the last one had.
    room: Vec<u8>,
    count: usize,
    // The addresses that were found last, and the sockets at those of them that could be bound.
    addresses: Vec<Addr>,
    others: Vec<UdpSocket>,
    // All of these, for the system to say which has a datagram.
    asked: Vec<pollfd>,
    // Which had the last datagram: 0 the one at every address, n + 1 the n-th of the others. Where
    // there are no others it is 0.
    at: usize,
    // The sender of the last datagram.
    from: Sender,
    // How many datagrams may come before the clock is looked at.
    row: u32,
    // When the addresses were looked at last.
    looked: Option<u64>,
    // Whether it stays with the sockets that it has, none of which is at every address.
    stays: bool,
    // Its place among the workers of the port, where they lend each other their sockets.
    seat: Option<Seat>,
    // Whether sockets of the port's workers were lent.
    lends: bool,
    // Whether there is one socket to receive by, and none was lent.
    alone: bool,
}

impl UdpEnd {
    /// A share of a socket that has the port at every address.
    pub fn new(alloc: Global, socket: UdpSocket, port: u16) -> UdpEnd {
        UdpEnd {
            alloc,
            port,
            socket,
            room: Vec::new(alloc),
            count: 0,
            addresses: Vec::new(alloc),
            others: Vec::new(alloc),
            asked: Vec::new(alloc),
            at: 0,
            from: Sender::nobody(),
            row: 0,
            looked: None,
            stays: false,
            seat: None,
            lends: false,
            alone: true,
        }
    }

    /// A share of sockets that have the port at an address each, of which the first is `socket`.
    pub fn at_each(
        alloc: Global,
        socket: UdpSocket,
        others: Vec<UdpSocket>,
        port: u16,
    ) -> Result<UdpEnd, NoMemory> {
        let mut end = UdpEnd::new(alloc, socket, port);
        end.stays = true;
        end.asked.push(readable(end.socket.as_raw_fd()))?;
        for other in &others {
            end.asked.push(readable(other.as_raw_fd()))?;
        }
        end.others = others;
        end.alone = end.others.is_empty();
        Ok(end)
    }

    /// Takes the place of this number among the workers of the port.
    pub fn join(&mut self, loans: Arc<Loans, Global>, number: usize) {
        self.seat = Some(Seat::new(self.alloc, loans, number));
    }

    /// Lends its sockets to the other workers of the port until the next receive, since this one
    /// won't take what comes to them for a while. Where none was lent before, those that wait are
    /// woken, since they look at their own sockets alone.
    #[cold]
    #[inline(never)]
    pub fn lend(&mut self, rt: &(impl Net + Wait)) {
        let Some(seat) = &mut self.seat else {
            return;
        };
        let is_first = !seat.is_used();
        if seat.lend(rt, &self.socket, &self.others) {
            let workers = seat.workers();
            self.lends = true;
            self.alone = false;
            if is_first {
                self.poke(rt, workers);
            }
        }
    }

    /// Waits for the next datagram, which the system writes into a room that is kept. `client`
    /// becomes who sent it.
    #[inline(always)]
    pub fn recv(&mut self, rt: &(impl Net + Clock + Files + Wait), client: &mut Client) -> Arrival
        ensures { result ≡ Arrival.Got
            → client_of self.new.from.bytes self.new.from.len ≡ Some client.new }
    {
        if self.row == 0 {
            self.row = ROW;
            self.look(rt);
        }
        self.row = self.row.saturating_sub(1);
        if self.room.len() < LARGEST && self.room.resize(LARGEST, 0).is_err() {
            return Arrival::NoMemory;
        }
        match self.receive(rt, client) {
            Ok(count) => {
                if count == 0 && self.may_lend() {
                    // It was woken, to look at the loans before the next receive.
                    self.row = 0;
                    return Arrival::Nothing;
                }
                self.count = count;
                Arrival::Got
            }
            Err(Unreceived::Nothing) => {
                self.row = 0;
                Arrival::Nothing
            }
            Err(Unreceived::Failed) => Arrival::Failed,
        }
    }

    // Whether a worker of the port has lent its sockets.
    #[cold]
    #[inline(never)]
    fn may_lend(&self) -> bool {
        match &self.seat {
            Some(seat) => seat.is_used(),
            None => false,
        }
    }

    /// The datagram that was received last, once. Its room goes along with it.
    #[inline]
    pub fn take(&mut self) -> Buffer {
        let room = mem::replace(&mut self.room, Vec::new(self.alloc));
        let count = self.count.min(room.len());
        Buffer::front(room, count)
    }

    /// Takes the room of a datagram back, for the next one.
    #[inline]
    pub fn take_back(&mut self, bytes: Buffer) {
        self.room = bytes.into_room();
    }

    /// Sends empty datagrams to the port from within, so that the blocked receives of so many
    /// workers go on. The system picks a socket by the sender's port, so each comes from another.
    /// A worker that gets none goes on within a second.
    pub fn poke(&self, net: &impl Net, count: u64) {
        for _ in 0..count.min(15) * 16 {
            poke(net, self.port);
        }
    }

    /// Replies to the sender of the last datagram, by the socket that had it, and says whether the
    /// system took it. Mostly there is one socket.
    #[inline]
    pub fn reply(&mut self, bytes: &[u8]) -> bool {
        if self.alone {
            return reply_to(&self.socket, bytes, &self.from);
        }
        self.reply_by_any(bytes)
    }

    // The same by any of the sockets, or by that of another worker.
    #[inline(never)]
    fn reply_by_any(&mut self, bytes: &[u8]) -> bool {
        if let Some(seat) = &self.seat {
            if let Some(socket) = seat.borrowed() {
                return reply_to(socket, bytes, &self.from);
            }
        }
        let socket = socket_at(&self.socket, &self.others, self.at);
        reply_to(socket, bytes, &self.from)
    }

    // The next datagram, into the room. Mostly there is one socket, and nothing of the loans is
    // looked at.
    #[inline(always)]
    fn receive(&mut self, rt: &impl Wait, client: &mut Client) -> Result<usize, Unreceived>
        ensures count { IfOk result (λ count. count ≤ vec_len self.new.room) }
        ensures client { IfOk result (λ _.
            client_of self.new.from.bytes self.new.from.len ≡ Some client.new) }
    {
        if self.alone {
            let (socket, packet) = (&self.socket, self.room.as_mut_slice());
            return receive(socket, packet, &mut self.from, client, true);
        }
        self.receive_any(rt, client)
    }

    // A datagram of any of the sockets, or of those that other workers have lent.
    #[inline(never)]
    fn receive_any(&mut self, rt: &impl Wait, client: &mut Client) -> Result<usize, Unreceived>
        ensures count { IfOk result (λ count. count ≤ vec_len self.new.room) }
        ensures client { IfOk result (λ _.
            client_of self.new.from.bytes self.new.from.len ≡ Some client.new) }
    {
        if !self.lends {
            return self.receive_own(client, PATIENCE);
        }
        if let Some(seat) = &mut self.seat {
            seat.take_back();
        }
        // Those that are lent come first now and then, or they might starve while the own one has
        // more.
        if self.row == 0 {
            match self.receive_lent(rt, client) {
                Err(Unreceived::Nothing) => {}
                received => return received,
            }
        }
        for _ in 0..LOOKS {
            match self.receive_own(client, 0) {
                Err(Unreceived::Nothing) => {}
                received => return received,
            }
            match self.receive_lent(rt, client) {
                Err(Unreceived::Nothing) => {}
                received => return received,
            }
            if let Some(seat) = &mut self.seat {
                seat.wait(rt, &self.socket, &self.others)?;
            }
        }
        Err(Unreceived::Nothing)
    }

    // A datagram of a socket that another worker has lent, without waiting.
    fn receive_lent(&mut self, rt: &impl Wait, client: &mut Client) -> Result<usize, Unreceived>
        ensures count { IfOk result (λ count. count ≤ vec_len self.new.room) }
        ensures client { IfOk result (λ _.
            client_of self.new.from.bytes self.new.from.len ≡ Some client.new) }
    {
        match &mut self.seat {
            Some(seat) => seat.receive(rt, self.room.as_mut_slice(), &mut self.from, client),
            None => Err(Unreceived::Nothing),
        }
    }

    // A datagram of any of its own sockets, for which it waits so many milliseconds. While the one
    // that had the last has more, it goes on.
    fn receive_own(&mut self, client: &mut Client, time: u16) -> Result<usize, Unreceived>
        ensures count { IfOk result (λ count. count ≤ vec_len self.new.room) }
        ensures client { IfOk result (λ _.
            client_of self.new.from.bytes self.new.from.len ≡ Some client.new) }
    {
        if self.row % 8 != 0 || self.others.is_empty() {
            let socket = socket_at(&self.socket, &self.others, self.at);
            let packet = self.room.as_mut_slice();
            match receive(socket, packet, &mut self.from, client, false) {
                Err(Unreceived::Nothing) if self.others.is_empty() => {
                    return Err(Unreceived::Nothing);
                }
                Err(Unreceived::Nothing) => {}
                received => return received,
            }
        }
        self.at = next_ready(self.asked.as_mut_slice(), self.at, time)?;
        let socket = socket_at(&self.socket, &self.others, self.at);
        let packet = self.room.as_mut_slice();
        receive(socket, packet, &mut self.from, client, false)
    }

    // Looks whether sockets were lent, and at the addresses of the host.
    #[cold]
    #[inline(never)]
    fn look(&mut self, rt: &(impl Net + Clock + Files)) {
        if !self.stays {
            self.look_at_addresses(rt);
        }
        if let Some(seat) = &self.seat {
            self.lends = seat.is_used();
        }
        self.alone = self.others.is_empty() && !self.lends;
    }

    // Looks at the addresses of the host once in ten seconds. Where they changed, the sockets at
    // them are opened anew.
    fn look_at_addresses(&mut self, rt: &(impl Net + Clock + Files)) {
        let now = moment(rt).unwrap_or(0);
        if let Some(looked) = self.looked {
            if now.saturating_sub(looked) < BETWEEN {
                return;
            }
        }
        self.looked = Some(now);
        let Some(found) = host_addresses(rt, self.alloc) else {
            return;
        };
        if found.as_slice() == self.addresses.as_slice() {
            return;
        }
        self.others.clear();
        self.at = 0;
        if let Some(seat) = &mut self.seat {
            seat.forget();
        }
        if self.open_others(rt, &found).is_err() {
            self.others.clear();
            self.addresses.clear();
            return;
        }
        self.addresses = found;
    }

    // A socket at each of the addresses that can be bound.
    fn open_others(&mut self, net: &impl Net, found: &[Addr]) -> Result<(), NoMemory> {
        self.asked.clear();
        self.asked.push(readable(self.socket.as_raw_fd()))?;
        if !found.is_empty() {
            share_port(&self.socket);
        }
        for addr in found {
            if let Ok(socket) = open_udp_at(net, *addr, self.port) {
                self.asked.push(readable(socket.as_raw_fd()))?;
                self.others.push(socket)?;
            }
        }
        Ok(())
    }
}

// The socket of a number.
fn socket_at<'a>(first: &'a UdpSocket, others: &'a [UdpSocket], at: usize) -> &'a UdpSocket {
    if at == 0 {
        return first;
    }
    match others.get(at - 1) {
        Some(socket) => socket,
        None => first,
    }
}

// The next socket behind this one that has a datagram, once one has. Nothing behind so many
// milliseconds.
fn next_ready(asked: &mut [pollfd], at: usize, time: u16) -> Result<usize, Unreceived> {
    let polled = c::poll(asked, i32::from(time));
    if polled < 0 {
        return Err(Unreceived::Failed);
    }
    let mut first = None;
    for (index, socket) in asked.iter().enumerate() {
        if socket.revents != 0 {
            if index > at {
                return Ok(index);
            }
            if first.is_none() {
                first = Some(index);
            }
        }
    }
    first.ok_or(Unreceived::Nothing)
}
