//! How the workers of a UDP port take each other's datagrams while one of them asks an upstream.
ghost use Rattle.std.specs.Prelude.{◌≡◌, ◌≤◌, length, Some, IfOk};
ghost use Rattle.edge_sockets.specs.{client_of};

use dns_data::NoMemory;
use edge_sockets::{Bell, Client, PATIENCE, Sender, Unreceived, receive};
use libc::net as c;
use libc::types::pollfd;
use std::alloc::Global;
use std::net::UdpSocket;
use std::os::fd::AsRawFd;
use std::sync::atomic::{AtomicU64, Ordering};
use std::sync::{Arc, Mutex, Wait};

// How many workers a port has at most.
const WORKERS: usize = 16;

// One worker's sockets, for the others to find, and whether they are lent: 0 or 1.
#[derive(Drop)]
struct Place {
    sockets: Mutex<Vec<Arc<UdpSocket, Global>>>,
    lent: AtomicU64,
}

/// The sockets that the workers of a UDP port lend each other. A worker lends its own before it
/// asks an upstream, and the others take what comes to them meanwhile.
#[derive(Drop)]
pub struct Loans {
    places: Vec<Place>,
    // How many workers have a place.
    seated: AtomicU64,
    // How many workers wait for a datagram.
    idle: AtomicU64,
    // 1 once a worker has lent its sockets.
    used: AtomicU64,
    // Wakes a worker that waits.
    bell: Bell,
}

impl Loans {
    /// None where memory or descriptors have run out.
    pub fn new(alloc: Global) -> Option<Loans> {
        let mut places = Vec::new(alloc);
        for _ in 0..WORKERS {
            let place = Place {
                sockets: Mutex::new(Vec::new(alloc)),
                lent: AtomicU64::new(0),
            };
            if places.push(place).is_err() {
                return None;
            }
        }
        Some(Loans {
            places,
            seated: AtomicU64::new(0),
            idle: AtomicU64::new(0),
            used: AtomicU64::new(0),
            bell: Bell::new()?,
        })
    }

    // No wake is lost: a worker that is to wait is counted as idle before it looks which sockets
    // are lent, and here they are lent before it is looked whether one is idle.
    fn lend(&self, number: usize) {
        self.used.store(1, Ordering::SeqCst);
        if let Some(place) = self.places.get(number) {
            place.lent.store(1, Ordering::SeqCst);
            if self.idle.load(Ordering::SeqCst) != 0 {
                self.bell.ring();
            }
        }
    }

    fn take_back(&self, number: usize) {
        if let Some(place) = self.places.get(number) {
            place.lent.store(0, Ordering::SeqCst);
        }
    }
}

/// One worker's place among those of its port.
#[derive(Drop)]
pub(crate) struct Seat {
    alloc: Global,
    loans: Arc<Loans, Global>,
    number: usize,
    // Whether its sockets are lent.
    lends: bool,
    // Whether the others find the sockets that it has.
    shown: bool,
    // What it waits for: the bell, its own sockets, and those that are lent.
    asked: Vec<pollfd>,
    // The socket of another worker that had the last datagram.
    borrowed: Option<Arc<UdpSocket, Global>>,
}

impl Seat {
    pub fn new(alloc: Global, loans: Arc<Loans, Global>, number: usize) -> Seat {
        loans.seated.fetch_add(1, Ordering::SeqCst);
        Seat {
            alloc,
            loans,
            number,
            lends: false,
            shown: false,
            asked: Vec::new(alloc),
            borrowed: None,
        }
    }

    /// Whether a worker of the port has lent its sockets, so that there may be some to take.
    pub fn is_used(&self) -> bool {
        self.loans.used.load(Ordering::SeqCst) != 0
    }

    /// How many workers of the port have a place.
    pub fn workers(&self) -> u64 {
        self.loans.seated.load(Ordering::SeqCst)
    }

    /// The sockets changed, and are shown anew before they are lent.
    pub fn forget(&mut self) {
        self.shown = false;
    }

    /// Lends the worker's sockets to the others, and says whether there is one.
    pub fn lend(&mut self, rt: &impl Wait, first: &UdpSocket, others: &[UdpSocket]) -> bool {
        if self.loans.seated.load(Ordering::SeqCst) < 2 {
            return false;
        }
        if !self.shown {
            self.show(rt, first, others);
        }
        self.lends = true;
        self.loans.lend(self.number);
        true
    }

    /// Takes the worker's sockets back, and lets go of that of another.
    pub fn take_back(&mut self) {
        self.borrowed = None;
        if self.lends {
            self.lends = false;
            self.loans.take_back(self.number);
        }
    }

    /// The socket of another worker that had the last datagram.
    pub fn borrowed(&self) -> Option<&UdpSocket> {
        match &self.borrowed {
            Some(socket) => Some(&**socket),
            None => None,
        }
    }

    // Puts the worker's sockets where the others find them. One for which there is no descriptor or
    // no memory isn't lent.
    fn show(&mut self, rt: &impl Wait, first: &UdpSocket, others: &[UdpSocket]) {
        let Some(place) = self.loans.places.get(self.number) else {
            return;
        };
        let mut sockets = place.sockets.lock(rt);
        sockets.clear();
        add_socket(self.alloc, &mut sockets, first);
        for other in others {
            add_socket(self.alloc, &mut sockets, other);
        }
        self.shown = true;
    }

    /// The next datagram of the sockets that others have lent, without waiting.
    pub fn receive(
        &mut self,
        rt: &impl Wait,
        packet: &mut [u8],
        from: &mut Sender,
        client: &mut Client,
    ) -> Result<usize, Unreceived>
        ensures count { IfOk result (λ count. count ≤ length packet.new) }
        ensures client { IfOk result (λ _.
            client_of from.new.bytes from.new.len ≡ Some client.new) }
    {
        for (number, place) in self.loans.places.iter().enumerate() {
            if number == self.number || place.lent.load(Ordering::SeqCst) == 0 {
                continue;
            }
            let sockets = place.sockets.lock(rt);
            for socket in sockets.iter() {
                match receive(socket, packet, from, client, false) {
                    Err(Unreceived::Nothing) => {}
                    Err(Unreceived::Failed) => return Err(Unreceived::Failed),
                    Ok(count) => {
                        self.borrowed = Arc::try_clone(socket).ok();
                        return Ok(count);
                    }
                }
            }
        }
        Err(Unreceived::Nothing)
    }

    /// Waits until the worker's own sockets or those that are lent may have a datagram, or others
    /// are lent. Nothing behind a second.
    pub fn wait(
        &mut self,
        rt: &impl Wait,
        first: &UdpSocket,
        others: &[UdpSocket],
    ) -> Result<(), Unreceived> {
        self.loans.idle.fetch_add(1, Ordering::SeqCst);
        // Where memory runs out, those that it found room for are waited for.
        let _ = self.gather(rt, first, others);
        let polled = c::poll(self.asked.as_mut_slice(), i32::from(PATIENCE));
        self.loans.idle.fetch_sub(1, Ordering::SeqCst);
        if polled < 0 {
            return Err(Unreceived::Failed);
        }
        if polled == 0 {
            return Err(Unreceived::Nothing);
        }
        if let Some(bell) = self.asked.first() {
            if bell.revents != 0 {
                self.loans.bell.hear();
            }
        }
        Ok(())
    }

    fn gather(
        &mut self,
        rt: &impl Wait,
        first: &UdpSocket,
        others: &[UdpSocket],
    ) -> Result<(), NoMemory> {
        self.asked.clear();
        self.asked.push(readable(self.loans.bell.fd()))?;
        self.asked.push(readable(first.as_raw_fd()))?;
        for other in others {
            self.asked.push(readable(other.as_raw_fd()))?;
        }
        for (number, place) in self.loans.places.iter().enumerate() {
            if number != self.number && place.lent.load(Ordering::SeqCst) != 0 {
                let sockets = place.sockets.lock(rt);
                for socket in sockets.iter() {
                    self.asked.push(readable(socket.as_raw_fd()))?;
                }
            }
        }
        Ok(())
    }
}

fn add_socket(alloc: Global, sockets: &mut Vec<Arc<UdpSocket, Global>>, socket: &UdpSocket) {
    if let Ok(socket) = socket.try_clone() {
        if let Ok(socket) = Arc::new(alloc, socket) {
            let _ = sockets.push(socket);
        }
    }
}

/// What a poll is to look for: that there is something to read.
pub(crate) fn readable(fd: i32) -> pollfd {
    pollfd {
        fd,
        events: c::POLLIN,
        revents: 0,
    }
}
