use crate::addresses::{add_v4, add_v6};
use dns_data::Addr;
use std::test::Fail;

// As Linux 6.18 shows them, for a host with 10.9.9.1, 10.9.9.2 and fd00:9::1.
const TRIE: &str = "Main:
  +-- 0.0.0.0/1 2 0 2
     +-- 10.9.9.0/24 2 0 2
        +-- 10.9.9.0/30 2 0 1
           |-- 10.9.9.0
              /24 link UNICAST
           |-- 10.9.9.1
              /32 host LOCAL
        |-- 10.9.9.255
           /32 link BROADCAST
Local:
        +-- 10.9.9.0/30 2 0 1
           |-- 10.9.9.1
              /32 host LOCAL
           |-- 10.9.9.2
              /32 host LOCAL
        +-- 127.0.0.0/31 1 0 0
           |-- 127.0.0.0
              /8 host LOCAL
           |-- 127.0.0.1
              /32 host LOCAL
";

const INTERFACES: &str = "00000000000000000000000000000001 01 80 10 80       lo
fd000009000000000000000000000001 01 40 00 82       lo
fd000009000000000000000000000002 01 40 00 c2       lo
fe8000000000000000fc00fffe000001 04 40 20 80     eth0
";

#[test]
fn the_hosts_addresses_are_found_once(rt: HostRuntime) -> Result<(), Fail> {
    let mut found = Vec::new(rt.alloc());
    add_v4(&mut found, TRIE)?;
    add_v6(&mut found, INTERFACES)?;
    let six = Addr::V6(0xfd00_0009_0000_0000_0000_0000_0000_0001);
    let want = [Addr::V4(0x0a09_0901), Addr::V4(0x0a09_0902), six];
    assert_eq!(rt; found.as_slice(), want.as_slice());
    Ok(())
}

#[test]
fn other_text_has_no_addresses(rt: HostRuntime) -> Result<(), Fail> {
    let mut found = Vec::new(rt.alloc());
    for text in [
        "",
        "\n\n",
        "/32 host LOCAL",
        "|-- \n/32 host LOCAL",
        "|-- 10.9.9\n/32 host LOCAL",
        "zz 01 40 00 82",
        "1 01",
    ] {
        add_v4(&mut found, text)?;
        add_v6(&mut found, text)?;
    }
    assert!(rt; found.is_empty());
    Ok(())
}
