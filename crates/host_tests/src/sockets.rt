//! The side over TCP of edge_net, over loopback. Client and side stand in one thread.

use dns_data::Buffer;
use edge_net::{Arrival, TcpEnd};
use edge_sockets::{Client, open_tcp};
use std::io::{Read, Write};
use std::net::{Ipv4Addr, SocketAddr, TcpStream};
use std::test::Fail;
use std::thread;
use std::time::Duration;
use stream_connection::Bounds;

// A query for the address of example.org, of 29 bytes, as a stream carries it.
const STREAM: &[u8; 31] = b"\x00\x1d\x12\x34\x01\x00\x00\x01\x00\x00\x00\x00\x00\x00\
    \x07example\x03org\x00\x00\x01\x00\x01";

// A side, and where it is.
#[derive(Drop)]
struct Opened {
    end: TcpEnd,
    server: SocketAddr,
}

fn open_side(rt: &HostRuntime, bounds: Bounds) -> Result<Opened, Fail> {
    let listener = open_tcp(rt, 0)?;
    let port = listener.local_addr()?.port();
    let end = TcpEnd::new(rt, rt.alloc(), &listener, bounds)?;
    let server = SocketAddr::from((Ipv4Addr::LOCALHOST, port));
    Ok(Opened { end, server })
}

fn connected(rt: &HostRuntime, server: SocketAddr) -> Result<TcpStream, Fail> {
    let stream = TcpStream::connect(rt, server)?;
    stream.set_nodelay(true)?;
    stream.set_read_timeout(Some(Duration::from_millis(5_000)))?;
    Ok(stream)
}

// A client that has sent these bytes.
fn client(rt: &HostRuntime, server: SocketAddr, bytes: &[u8]) -> Result<TcpStream, Fail> {
    let mut stream = connected(rt, server)?;
    stream.write_all(bytes)?;
    Ok(stream)
}

// The port of the client whose message comes next, which gets this reply; 0 where it doesn't, or
// where none came.
fn turn(rt: &HostRuntime, end: &mut TcpEnd, reply: &[u8]) -> u16 {
    let mut message = Buffer::new(rt.alloc());
    let mut from = Client::nobody();
    match end.recv(rt, &mut message, &mut from) {
        Arrival::Got => {
            if end.reply(&reply[..reply.len().min(65_535)]) {
                from.port
            } else {
                0
            }
        }
        _ => 0,
    }
}

fn port_of(client: &TcpStream) -> Result<u16, Fail> {
    Ok(client.local_addr()?.port())
}

// Whether the server has closed a connection.
fn is_closed(mut client: &TcpStream) -> bool {
    let mut byte = [0u8; 1];
    matches!(client.read(&mut byte), Ok(0) | Err(_))
}

// So many queries.
fn burst(rt: &HostRuntime, count: u32) -> Result<Vec<u8>, Fail> {
    let mut bytes = Vec::new(rt.alloc());
    for _ in 0..count {
        bytes.extend_from_slice(STREAM)?;
    }
    Ok(bytes)
}

// How many turns others have before the one at this port, 200 at most.
fn turns_before(rt: &HostRuntime, end: &mut TcpEnd, port: u16) -> u32 {
    for before in 0..200 {
        if turn(rt, end, b"reply") == port {
            return before;
        }
    }
    200
}

// The system is asked again behind 64 turns at the latest.
#[test]
fn many_queries_in_one_write_share_the_turns(rt: HostRuntime) -> Result<(), Fail> {
    let mut side = open_side(&rt, Bounds::usual())?;
    let many = client(&rt, side.server, &burst(&rt, 200)?)?;
    let first = turn(&rt, &mut side.end, b"reply");
    assert_eq!(rt; first, port_of(&many)?);
    let other = client(&rt, side.server, STREAM)?;
    let before = turns_before(&rt, &mut side.end, port_of(&other)?);
    assert!(rt; before <= 64, "{before} came first");
    Ok(())
}

// Whether one of so many large replies is refused.
fn is_refused(rt: &HostRuntime, end: &mut TcpEnd, count: u32) -> Result<bool, Fail> {
    let large = Vec::from_elem(rt.alloc(), 7u8, 65_535)?;
    for _ in 0..count {
        if turn(rt, end, &large) == 0 {
            return Ok(true);
        }
    }
    Ok(false)
}

#[test]
fn a_client_that_never_reads_is_closed(rt: HostRuntime) -> Result<(), Fail> {
    let mut side = open_side(&rt, Bounds::usual())?;
    let _silent = client(&rt, side.server, &burst(&rt, 400)?)?;
    assert!(rt;
        is_refused(&rt, &mut side.end, 400)?,
        "everything was taken"
    );
    assert!(rt; !side.end.reply(b"late"), "there is nobody to reply to");
    let other = client(&rt, side.server, STREAM)?;
    let next = turn(&rt, &mut side.end, b"reply");
    assert_eq!(rt; next, port_of(&other)?);
    Ok(())
}

#[test]
fn silent_and_half_clients_are_closed(rt: HostRuntime) -> Result<(), Fail> {
    let bounds = Bounds {
        part: 100,
        idle: 500,
        ..Bounds::usual()
    };
    let mut side = open_side(&rt, bounds)?;
    let silent = connected(&rt, side.server)?;
    let half = client(&rt, side.server, &STREAM[..12])?;
    let _other = client(&rt, side.server, STREAM)?;
    turn(&rt, &mut side.end, b"reply");
    thread::sleep(&rt, Duration::from_millis(1_200));
    let _last = client(&rt, side.server, STREAM)?;
    turn(&rt, &mut side.end, b"reply");
    assert!(rt; is_closed(&half) && is_closed(&silent));
    Ok(())
}
