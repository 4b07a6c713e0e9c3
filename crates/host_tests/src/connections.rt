use dns_data::Buffer;
use std::test::Fail;
use stream_connection::{Bounds, Connection, Next, Replied};

const TIMES: Bounds = Bounds {
    connections: 4,
    waiting: 20,
    idle: 100,
    idle_near: 50,
    part: 30,
};

#[test]
fn replies_wait_up_to_their_bound(rt: HostRuntime) {
    let mut connection = Connection::new(rt.alloc(), 0);
    let first = connection.reply(b"12345", TIMES.waiting);
    let second = connection.reply(b"123456789ab", 20);
    let third = connection.reply(b"", 20);
    assert_eq!(rt;
        [first, second, third],
        [Replied::Waits, Replied::Waits, Replied::Refused]
    );
    assert!(rt; connection.waiting().starts_with(b"\x00\x0512345"));
}

#[test]
fn a_connection_is_late_by_its_bounds(rt: HostRuntime) {
    let connection = Connection::new(rt.alloc(), 1_000);
    let late = [
        connection.is_late(&TIMES, 1, 1_100),
        connection.is_late(&TIMES, 1, 1_101),
        // Near the limit.
        connection.is_late(&TIMES, 4, 1_051),
        // The clock went back.
        connection.is_late(&TIMES, 1, 900),
    ];
    assert_eq!(rt; late, [false, true, true, false]);
}

#[test]
fn a_part_of_a_message_is_late_sooner(rt: HostRuntime) -> Result<(), Fail> {
    let mut connection = Connection::new(rt.alloc(), 1_000);
    connection.come(b"\x00\x05query\x00", 1_050)?;
    let before = [
        connection.is_late(&TIMES, 1, 1_080),
        connection.is_late(&TIMES, 1, 1_081),
    ];
    let next = connection.next(&mut Buffer::new(rt.alloc()), 1_090);
    assert_eq!(rt; (before, next), ([false, true], Next::Message));
    assert!(rt; !connection.is_late(&TIMES, 1, 1_120));
    Ok(())
}
