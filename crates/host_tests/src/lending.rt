//! Two workers of a UDP port, of which one asks an upstream, over loopback.

use dns_data::{Addr, Transport};
use edge_net::{Crew, End, Loans, NetSide, UdpEnd};
use edge_sockets::{open_udp, open_udp_beside};
use outside::{Outcome, Received, Side, Upstream, Wrote};
use std::alloc::Global;
use std::net::{Ipv4Addr, Net, SocketAddr, UdpSocket};
use std::sync::Arc;
use std::test::Fail;
use std::thread;
use std::time::Duration;

// 127.0.0.1.
const LOCALHOST: u32 = 0x7f00_0001;

// With as many clients each worker mostly has some.
const CLIENTS: u32 = 8;

// A client that waits for a second and a half.
fn client(rt: &impl Net, server: SocketAddr) -> Result<UdpSocket, Fail> {
    let socket = UdpSocket::bind(rt, SocketAddr::from((Ipv4Addr::LOCALHOST, 0)))?;
    socket.connect(server)?;
    socket.set_read_timeout(Some(Duration::from_millis(1_500)))?;
    Ok(socket)
}

// The sockets of two workers, and their port.
fn two_ends(rt: &impl Net, alloc: Global) -> Result<(UdpEnd, UdpEnd, u16), Fail> {
    let first = open_udp(rt, 0)?;
    let port = first.local_addr()?.port();
    let second = open_udp_beside(rt, &first, port)?;
    let Some(loans) = Loans::new(alloc) else {
        return Err(Fail::from("no loans"));
    };
    let loans = Arc::new(alloc, loans)?;
    let mut first = UdpEnd::new(alloc, first, port);
    first.join(Arc::try_clone(&loans)?, 0);
    let mut second = UdpEnd::new(alloc, second, port);
    second.join(loans, 1);
    Ok((first, second, port))
}

// Gives so many datagrams a reply each, and says how many got one.
fn reply_to_all<S: Side>(side: &mut S, count: u32) -> u32 {
    let mut replied = 0u32;
    for _ in 0..count {
        if let Received::Got(_) = side.recv() {
            if side.send(b"reply") == Wrote::Ok {
                replied = replied.saturating_add(1);
            }
        }
    }
    replied
}

#[test]
fn datagrams_do_not_wait_behind_an_ask(rt: HostRuntime) -> Result<(), Fail> {
    let silent = UdpSocket::bind(&rt, SocketAddr::from((Ipv4Addr::LOCALHOST, 0)))?;
    let to = Upstream {
        addr: Addr::V4(LOCALHOST),
        port: silent.local_addr()?.port(),
    };
    let (first, second, port) = two_ends(&rt, rt.alloc())?;
    let crew = Arc::new(rt.alloc(), Crew::new(rt.alloc()))?;
    let (alloc, other) = (rt.alloc(), Arc::try_clone(&crew)?);
    let mut first = NetSide::new(rt, alloc, End::Udp(first), port, crew);
    let mut second = NetSide::new(rt, alloc, End::Udp(second), port, other);
    // Over TCP nobody is there: it fails at once, and the port is known as one that lends.
    let refused = first.ask(&to, Transport::Tcp, b"query");
    assert!(rt; matches!(refused, Outcome::Failed));
    let asking = thread::spawn(&rt, move || first.ask(&to, Transport::Udp, b"query"))?;
    let serving = thread::spawn(&rt, move || reply_to_all(&mut second, CLIENTS))?;
    let server = SocketAddr::from((Ipv4Addr::LOCALHOST, port));
    let mut clients = Vec::new(alloc);
    for _ in 0..CLIENTS {
        let socket = client(&rt, server)?;
        socket.send(b"query")?;
        clients.push(socket)?;
    }
    for socket in &clients {
        let mut reply = [0u8; 16];
        assert_eq!(rt; socket.recv(&mut reply)?, 5);
    }
    assert_eq!(rt; serving.join(&rt), CLIENTS);
    assert!(rt; matches!(asking.join(&rt), Outcome::Silence));
    Ok(())
}
