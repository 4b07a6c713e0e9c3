use crate::scripts::{host_of_two_sides, received_of_next};
use outside::{Host, OpenFault, Wrote};
use std::test::Fail;

#[test]
fn a_host_gives_its_sides_in_order(rt: HostRuntime) -> Result<(), Fail> {
    let mut host = host_of_two_sides(rt.alloc())?;
    let got = [
        received_of_next(&mut host, 0),
        received_of_next(&mut host, 1),
        received_of_next(&mut host, 2),
    ];
    assert_eq!(rt; got, [Some(1), Some(1), None]);
    assert_eq!(rt; host.opens().map(|opens| opens.len()), Some(2));
    Ok(())
}

#[test]
fn a_host_gives_its_watch_once_and_tells_its_lines(rt: HostRuntime) -> Result<(), Fail> {
    let mut host = host_of_two_sides(rt.alloc())?;
    assert!(rt; host.open_watch().is_ok());
    assert_eq!(rt; host.open_watch().err(), Some(OpenFault::Failed));
    assert_eq!(rt; host.tell(b"reload published 1"), Wrote::Ok);
    assert_eq!(rt; host.lines().map(|lines| lines.len()), Some(1));
    Ok(())
}
