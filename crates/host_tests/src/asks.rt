//! Asks of upstreams by edge_asks, over loopback. Each upstream stands in a thread, and follows a
//! list of acts.

use dns_data::{Addr, Transport};
use edge_asks::{Asker, Timings};
use edge_sockets::open_tcp_at;
use outside::{Outcome, Upstream};
use std::alloc::Global;
use std::io::{Read, Write};
use std::net::{Ipv4Addr, Net, SocketAddr, TcpListener, TcpStream, UdpSocket};
use std::sync::Wait;
use std::test::Fail;
use std::time::{Clock, Duration, Instant};
use std::{io, thread};

// 127.0.0.1.
const LOCALHOST: u32 = 0x7f00_0001;

const QUERY: &[u8; 29] = b"\x12\x34\x01\x00\x00\x01\x00\x00\x00\x00\x00\x00\
    \x07example\x03org\x00\x00\x01\x00\x01";

// The same with the flags of a reply that was cut.
const CUT: &[u8; 29] = b"\x12\x34\x83\x80\x00\x01\x00\x00\x00\x00\x00\x00\
    \x07example\x03org\x00\x00\x01\x00\x01";

// What an upstream does with the next ask.
#[derive(Clone, Copy, Debug)]
enum Act {
    // It sends these bytes, over TCP as they are.
    Send(&'static [u8]),
    // It sends the port of the asker, of two bytes.
    Port,
    // Somebody else sends first.
    Stray(&'static [u8]),
    // It sends one datagram, and a tenth of a second later another.
    Twice(&'static [u8], &'static [u8]),
    // It takes the ask, and sends nothing.
    Silent,
    // It sends a message of 65,535 bytes behind its length, each 7 but the first two.
    Large,
    // It sends a byte each tenth of a second, as long as somebody reads.
    Drip,
    // It resets the connection: it has taken one byte of the ask, and closes before the others.
    Reset,
    // It closes the connection, and the next ask comes by another.
    Close,
}

fn upstream_at(port: u16) -> Upstream {
    Upstream {
        addr: Addr::V4(LOCALHOST),
        port,
    }
}

fn open_udp(rt: &impl Net) -> io::Result<UdpSocket> {
    let socket = UdpSocket::bind(rt, SocketAddr::from((Ipv4Addr::LOCALHOST, 0)))?;
    socket.set_read_timeout(Some(Duration::from_millis(5_000)))?;
    Ok(socket)
}

fn open_tcp(rt: &impl Net) -> Result<TcpListener, Fail> {
    Ok(open_tcp_at(rt, Addr::V4(LOCALHOST), 0)?)
}

// Follows the acts over UDP, one for each ask.
fn serve_udp(rt: &(impl Net + Wait + Clock), socket: &UdpSocket, acts: &[Act]) {
    let mut packet = [0u8; 512];
    for act in acts {
        let Ok((_, from)) = socket.recv_from(&mut packet) else {
            return;
        };
        let port = from.port().to_be_bytes();
        match act {
            Act::Send(bytes) => put_to(socket, bytes, from),
            Act::Port => put_to(socket, &port, from),
            Act::Stray(bytes) => {
                if let Ok(other) = open_udp(rt) {
                    put_to(&other, b"stray", from);
                }
                thread::sleep(rt, Duration::from_millis(100));
                put_to(socket, bytes, from);
            }
            Act::Twice(first, second) => {
                put_to(socket, first, from);
                thread::sleep(rt, Duration::from_millis(100));
                put_to(socket, second, from);
            }
            _ => {}
        }
    }
}

fn put_to(socket: &UdpSocket, bytes: &[u8], to: SocketAddr) {
    let _ = socket.send_to(bytes, to);
}

// Follows the acts over TCP, one for each message, and accepts a connection behind each Close. Says
// how many it accepted.
fn serve_tcp(rt: &(impl Wait + Clock), listener: &TcpListener, acts: &[Act]) -> u32 {
    let mut accepted = 0u32;
    for part in acts.split(|act| matches!(act, Act::Close)) {
        let Ok((stream, _)) = listener.accept() else {
            return accepted;
        };
        accepted = accepted.saturating_add(1);
        serve_stream(rt, stream, part);
    }
    accepted
}

fn serve_stream(rt: &(impl Wait + Clock), mut stream: TcpStream, acts: &[Act]) {
    let _ = stream.set_read_timeout(Some(Duration::from_millis(5_000)));
    for act in acts {
        if !has_taken(&mut stream, act) {
            return;
        }
        match act {
            Act::Send(bytes) => put(&mut stream, bytes),
            Act::Large => put_large(&mut stream),
            Act::Drip => {
                for _ in 0..30 {
                    if stream.write_all(b"\x01").is_err() {
                        return;
                    }
                    thread::sleep(rt, Duration::from_millis(100));
                }
            }
            _ => {}
        }
    }
}

// Takes an ask, or of one that is to be reset a byte.
fn has_taken(stream: &mut TcpStream, act: &Act) -> bool {
    match act {
        Act::Reset => {
            let mut byte = [0u8; 1];
            stream.read_exact(&mut byte).is_ok()
        }
        _ => {
            let mut frame = [0u8; 31];
            stream.read_exact(&mut frame).is_ok()
        }
    }
}

// A message of the largest size, with the id of the query.
fn put_large(stream: &mut TcpStream) {
    let piece = [7u8; 1_024];
    put(stream, b"\xff\xff\x12\x34");
    for _ in 0..63 {
        put(stream, &piece);
    }
    put(stream, &piece[..1_021]);
}

fn put(stream: &mut TcpStream, bytes: &[u8]) {
    let _ = stream.write_all(bytes);
}

// What an ask gave, and the milliseconds that it took. It knows no times, so it has two seconds.
fn ask<R: Net + Wait + Clock + AllocGlobal>(
    rt: &R,
    asker: &mut Asker,
    port: u16,
    by: Transport,
) -> Result<(Outcome, u128), Fail> {
    ask_within(rt, asker, &Timings::new(rt.alloc()), port, by)
}

// The same within the time that these tell.
fn ask_within<R: Net + Wait + Clock>(
    rt: &R,
    asker: &mut Asker,
    timings: &Timings,
    port: u16,
    by: Transport,
) -> Result<(Outcome, u128), Fail> {
    let start = Instant::now(rt)?;
    let outcome = asker.ask(rt, timings, &upstream_at(port), by, QUERY);
    Ok((outcome, start.elapsed(rt)?.as_millis()))
}

fn is_got(outcome: &Outcome, want: &[u8]) -> bool {
    match outcome {
        Outcome::Got(bytes) => bytes.is(want),
        _ => false,
    }
}

#[test]
fn a_datagram_of_somebody_else_is_none_of_the_upstream(rt: HostRuntime) -> Result<(), Fail> {
    let socket = open_udp(&rt)?;
    let port = socket.local_addr()?.port();
    let acts: &'static [Act] = &[Act::Stray(CUT), Act::Twice(b"", b"second")];
    let thread = thread::spawn(&rt, move || serve_udp(&rt, &socket, acts))?;
    let mut asker = Asker::new(rt.alloc());
    let (first, _) = ask(&rt, &mut asker, port, Transport::Udp)?;
    assert!(rt; is_got(&first, CUT));
    let (empty, _) = ask(&rt, &mut asker, port, Transport::Udp)?;
    assert!(rt; is_got(&empty, b"") && is_got(&asker.more(&rt), b"second"));
    assert!(rt; matches!(asker.more(&rt), Outcome::Silence));
    thread.join(&rt);
    Ok(())
}

// The system picks among some 28,000 ports, so that of 20 hardly two are the same.
#[test]
fn each_ask_has_a_port_of_its_own(rt: HostRuntime) -> Result<(), Fail> {
    let socket = open_udp(&rt)?;
    let port = socket.local_addr()?.port();
    let acts: &'static [Act] = &[Act::Port; 20];
    let thread = thread::spawn(&rt, move || serve_udp(&rt, &socket, acts))?;
    let mut asker = Asker::new(rt.alloc());
    let mut ports = Vec::new(rt.alloc());
    for _ in 0..20 {
        if let (Outcome::Got(bytes), _) = ask(&rt, &mut asker, port, Transport::Udp)? {
            if !ports.contains(&bytes) {
                ports.push(bytes)?;
            }
        }
    }
    assert!(rt; ports.len() > 15, "{} ports", ports.len());
    thread.join(&rt);
    Ok(())
}

#[test]
fn a_refused_port_fails_at_once(rt: HostRuntime) -> Result<(), Fail> {
    let port = open_udp(&rt)?.local_addr()?.port();
    let mut asker = Asker::new(rt.alloc());
    for by in [Transport::Udp, Transport::Tcp] {
        let (outcome, took) = ask(&rt, &mut asker, port, by)?;
        assert!(rt;
            matches!(outcome, Outcome::Failed) && took < 1_500,
            "{took} ms"
        );
    }
    assert!(rt; matches!(asker.more(&rt), Outcome::Failed));
    Ok(())
}

// Two seconds the first time, and then a fifth of one, until it answers; then half a second, since
// its round trip is short.
#[test]
fn a_silent_upstream_is_waited_for_less(rt: HostRuntime) -> Result<(), Fail> {
    let socket = open_udp(&rt)?;
    let port = socket.local_addr()?.port();
    let acts: &'static [Act] = &[Act::Silent, Act::Silent, Act::Send(CUT), Act::Silent];
    let thread = thread::spawn(&rt, move || serve_udp(&rt, &socket, acts))?;
    let mut asker = Asker::new(rt.alloc());
    let timings = Timings::new(rt.alloc());
    let (first, long) = ask_within(&rt, &mut asker, &timings, port, Transport::Udp)?;
    let (second, short) = ask_within(&rt, &mut asker, &timings, port, Transport::Udp)?;
    assert!(rt; matches!(first, Outcome::Silence) && matches!(second, Outcome::Silence));
    assert!(rt; long >= 1_990 && long < 3_500, "{long} ms");
    assert!(rt; short >= 190 && short < 1_500, "{short} ms");
    thread::sleep(&rt, Duration::from_millis(2_000));
    let (third, _) = ask_within(&rt, &mut asker, &timings, port, Transport::Udp)?;
    let (fourth, known) = ask_within(&rt, &mut asker, &timings, port, Transport::Udp)?;
    assert!(rt; is_got(&third, CUT) && matches!(fourth, Outcome::Silence));
    assert!(rt; known >= 490 && known < 1_990, "{known} ms");
    thread.join(&rt);
    Ok(())
}

// A reply that was cut over UDP and is whole here, and its frame.
const WHOLE: &[u8; 29] = b"\x12\x34\x81\x80\x00\x01\x00\x00\x00\x00\x00\x00\
    \x07example\x03org\x00\x00\x01\x00\x01";

const FRAME: &[u8; 31] = b"\x00\x1d\x12\x34\x81\x80\x00\x01\x00\x00\x00\x00\x00\x00\
    \x07example\x03org\x00\x00\x01\x00\x01";

// A kept connection serves two asks; the upstream closes it, and another serves two more.
#[test]
fn a_connection_is_kept_and_opened_anew(rt: HostRuntime) -> Result<(), Fail> {
    let listener = open_tcp(&rt)?;
    let port = listener.local_addr()?.port();
    let acts: &'static [Act] = &[
        Act::Send(FRAME),
        Act::Send(FRAME),
        Act::Close,
        Act::Send(FRAME),
        Act::Large,
    ];
    let thread = thread::spawn(&rt, move || serve_tcp(&rt, &listener, acts))?;
    let mut asker = Asker::new(rt.alloc());
    for _ in 0..3 {
        let (outcome, _) = ask(&rt, &mut asker, port, Transport::Tcp)?;
        assert!(rt; is_got(&outcome, WHOLE));
    }
    let (large, _) = ask(&rt, &mut asker, port, Transport::Tcp)?;
    assert_eq!(rt; size_of(&large), 65_535);
    assert_eq!(rt; thread.join(&rt), 2);
    Ok(())
}

// How many bytes came.
fn size_of(outcome: &Outcome) -> usize {
    match outcome {
        Outcome::Got(bytes) => bytes.len(),
        _ => 0,
    }
}

// Behind each of these the connection is closed, and the next ask comes by another.
#[test]
fn bad_replies_cost_the_time_of_a_try_at_most(rt: HostRuntime) -> Result<(), Fail> {
    let listener = open_tcp(&rt)?;
    let port = listener.local_addr()?.port();
    let acts: &'static [Act] = &[
        Act::Send(b"\xff\xff\x12\x34part"),
        Act::Close,
        Act::Send(b"\x00\x02\x99\x99"),
        Act::Close,
        Act::Send(b"\x00\x00"),
        Act::Close,
        Act::Drip,
        Act::Close,
        Act::Send(FRAME),
    ];
    let thread = thread::spawn(&rt, move || serve_tcp(&rt, &listener, acts))?;
    let mut asker = Asker::new(rt.alloc());
    let (torn, _) = ask(&rt, &mut asker, port, Transport::Tcp)?;
    let (other, _) = ask(&rt, &mut asker, port, Transport::Tcp)?;
    assert!(rt; matches!(torn, Outcome::Failed) && is_got(&other, b"\x99\x99"));
    let (empty, _) = ask(&rt, &mut asker, port, Transport::Tcp)?;
    let (drip, took) = ask(&rt, &mut asker, port, Transport::Tcp)?;
    assert!(rt; is_got(&empty, b"") && matches!(drip, Outcome::Silence));
    assert!(rt; took >= 1_990 && took < 3_500, "{took} ms");
    let (last, _) = ask(&rt, &mut asker, port, Transport::Tcp)?;
    assert!(rt; is_got(&last, WHOLE));
    assert_eq!(rt; thread.join(&rt), 5);
    Ok(())
}

// A reset ends the ask of a new connection, and one that is kept is opened anew.
#[test]
fn a_reset_fails_where_the_connection_is_new(rt: HostRuntime) -> Result<(), Fail> {
    let listener = open_tcp(&rt)?;
    let port = listener.local_addr()?.port();
    let acts: &'static [Act] = &[
        Act::Send(FRAME),
        Act::Reset,
        Act::Close,
        Act::Reset,
        Act::Close,
        Act::Send(FRAME),
    ];
    let thread = thread::spawn(&rt, move || serve_tcp(&rt, &listener, acts))?;
    let mut asker = Asker::new(rt.alloc());
    let (first, _) = ask(&rt, &mut asker, port, Transport::Tcp)?;
    let (reset, took) = ask(&rt, &mut asker, port, Transport::Tcp)?;
    assert!(rt; is_got(&first, WHOLE) && matches!(reset, Outcome::Failed));
    assert!(rt; took < 1_500, "{took} ms");
    let (last, _) = ask(&rt, &mut asker, port, Transport::Tcp)?;
    assert!(rt; is_got(&last, WHOLE));
    assert_eq!(rt; thread.join(&rt), 3);
    Ok(())
}

// An upstream that has a port over both transports.
fn open_both(rt: &impl Net) -> Result<(UdpSocket, TcpListener, u16), Fail> {
    let listener = open_tcp(rt)?;
    let port = listener.local_addr()?.port();
    let socket = UdpSocket::bind(rt, SocketAddr::from((Ipv4Addr::LOCALHOST, port)))?;
    socket.set_read_timeout(Some(Duration::from_millis(5_000)))?;
    Ok((socket, listener, port))
}

// Whether a reply says that it was cut (RFC 1035, section 4.1.1).
fn is_cut(outcome: &Outcome) -> bool {
    match outcome {
        Outcome::Got(bytes) => match bytes.as_slice().get(2) {
            Some(flags) => flags & 2 != 0,
            None => false,
        },
        _ => false,
    }
}

// As one does that asks: what was cut over UDP is asked for over TCP.
#[test]
fn a_reply_that_was_cut_is_whole_over_tcp(rt: HostRuntime) -> Result<(), Fail> {
    let (socket, listener, port) = open_both(&rt)?;
    let (short, long): (&'static [Act], &'static [Act]) = (&[Act::Send(CUT)], &[Act::Send(FRAME)]);
    let over_udp = thread::spawn(&rt, move || serve_udp(&rt, &socket, short))?;
    let over_tcp = thread::spawn(&rt, move || serve_tcp(&rt, &listener, long))?;
    let mut asker = Asker::new(rt.alloc());
    let timings = Timings::new(rt.alloc());
    let (cut, _) = ask_within(&rt, &mut asker, &timings, port, Transport::Udp)?;
    assert!(rt; is_got(&cut, CUT) && is_cut(&cut));
    let (whole, _) = ask_within(&rt, &mut asker, &timings, port, Transport::Tcp)?;
    assert!(rt; is_got(&whole, WHOLE) && !is_cut(&whole));
    assert!(rt; matches!(asker.more(&rt), Outcome::Failed));
    over_udp.join(&rt);
    assert_eq!(rt; over_tcp.join(&rt), 1);
    Ok(())
}

// More than Linux lets a process have, where nobody raised that (`fs.nr_open`).
const DESCRIPTORS: u32 = 1_100_000;

// Takes all descriptors that are left. Some may be left where a process may have very many.
fn take_descriptors(alloc: Global, socket: &UdpSocket) -> Result<Vec<UdpSocket>, Fail> {
    let mut taken = Vec::new(alloc);
    for _ in 0..DESCRIPTORS {
        match socket.try_clone() {
            Ok(socket) => taken.push(socket)?,
            Err(_) => break,
        }
    }
    Ok(taken)
}

#[test]
fn an_ask_without_a_descriptor_fails(rt: HostRuntime) -> Result<(), Fail> {
    let (socket, listener, port) = open_both(&rt)?;
    let mut asker = Asker::new(rt.alloc());
    let taken = take_descriptors(rt.alloc(), &socket)?;
    if taken.len() < DESCRIPTORS as usize {
        for by in [Transport::Udp, Transport::Tcp] {
            let (outcome, took) = ask(&rt, &mut asker, port, by)?;
            assert!(rt; matches!(outcome, Outcome::Failed));
            assert!(rt; took < 1_500, "{took} ms");
        }
    }
    drop(taken);
    let (short, long): (&'static [Act], &'static [Act]) = (&[Act::Send(CUT)], &[Act::Send(FRAME)]);
    let over_udp = thread::spawn(&rt, move || serve_udp(&rt, &socket, short))?;
    let over_tcp = thread::spawn(&rt, move || serve_tcp(&rt, &listener, long))?;
    let (cut, _) = ask(&rt, &mut asker, port, Transport::Udp)?;
    let (whole, _) = ask(&rt, &mut asker, port, Transport::Tcp)?;
    assert!(rt; is_got(&cut, CUT) && is_got(&whole, WHOLE));
    over_udp.join(&rt);
    assert_eq!(rt; over_tcp.join(&rt), 1);
    Ok(())
}
