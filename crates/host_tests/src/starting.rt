//! Two sides of a run, of which one begins and the other doesn't in time, over loopback.

use edge_net::{Crew, End, NetSide, UdpEnd};
use edge_sockets::open_udp;
use outside::{Received, Side};
use std::sync::Arc;
use std::test::Fail;

#[test]
fn a_side_that_does_not_begin_ends_the_others(rt: HostRuntime) -> Result<(), Fail> {
    let alloc = rt.alloc();
    let crew = Arc::new(alloc, Crew::new(alloc))?;
    let other = Arc::try_clone(&crew)?;
    let end = UdpEnd::new(alloc, open_udp(&rt, 0)?, 0);
    let mut first = NetSide::new(rt, alloc, End::Udp(end), 0, crew);
    let end = UdpEnd::new(alloc, open_udp(&rt, 0)?, 0);
    let mut second = NetSide::new(rt, alloc, End::Udp(end), 0, other);
    // Nothing comes, and behind five seconds it is found that the second has not begun.
    assert!(rt; matches!(first.recv(), Received::NoMemory));
    assert!(rt; matches!(first.recv(), Received::NoMemory));
    // It finds the same at once.
    assert!(rt; matches!(second.recv(), Received::NoMemory));
    Ok(())
}
