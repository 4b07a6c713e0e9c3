ghost use Rattle.std.specs.Prelude.{◌≤◌, ◌+◌, length};

use crate::sender::{Client, client_of};
use dns_data::Addr;
use std::test::Fail;

// So many of these bytes, with zeros behind them.
fn told(front: &[u8], address: &[u8], len: u32) -> Option<Client>
    requires { length front.now + length address.now ≤ 128 }
{
    let mut raw = [0u8; 128];
    raw[..front.len()].copy_from_slice(front);
    raw[front.len()..front.len() + address.len()].copy_from_slice(address);
    client_of(&raw, len)
}

const V4: [u8; 4] = [192, 0, 2, 1];

const V6: [u8; 16] = [0x20, 1, 0x0d, 0xb8, 0, 0, 0, 0, 0, 0, 0, 0, 0, 0, 0, 1];

const MAPPED: [u8; 16] = [0, 0, 0, 0, 0, 0, 0, 0, 0, 0, 255, 255, 192, 0, 2, 1];

// RFC 4291, section 2.5.5.1: not a mapped address.
const COMPATIBLE: [u8; 16] = [0, 0, 0, 0, 0, 0, 0, 0, 0, 0, 0, 0, 192, 0, 2, 1];

const BEHIND: [u8; 16] = [0, 0, 0, 0, 0, 0, 0, 1, 0, 0, 255, 255, 192, 0, 2, 1];

// Linux's ip(7) and ipv6(7): the family, the port, and for IPv6 the flow, then the address.
#[test]
fn an_ipv4_client_has_sixteen_bytes(rt: HostRuntime) -> Result<(), Fail> {
    let client = Client {
        address: Addr::V4(0xc000_0201),
        port: 53,
    };
    assert_eq!(rt; told(&[2, 0, 0, 53], &V4, 16), Some(client));
    assert_eq!(rt; told(&[2, 0, 0, 53], &V4, 15), None);
    assert_eq!(rt; told(&[2, 0, 0, 53], &V4, 0), None);
    Ok(())
}

#[test]
fn an_ipv6_client_has_twenty_eight_bytes(rt: HostRuntime) -> Result<(), Fail> {
    let client = Client {
        address: Addr::V6(0x2001_0db8_0000_0000_0000_0000_0000_0001),
        port: 50_561,
    };
    assert_eq!(rt; told(&[10, 0, 197, 129, 0, 0, 0, 0], &V6, 28), Some(client));
    assert_eq!(rt;
        told(&[10, 0, 197, 129, 1, 2, 3, 4], &V6, 28),
        Some(client),
        "with a flow"
    );
    assert_eq!(rt; told(&[10, 0, 197, 129, 0, 0, 0, 0], &V6, 27), None);
    assert_eq!(rt; told(&[10, 0, 197, 129, 0, 0, 0, 0], &V6, 16), None);
    Ok(())
}

#[test]
fn a_mapped_address_is_told_as_ipv4(rt: HostRuntime) -> Result<(), Fail> {
    let front = [10, 0, 0x84, 0x70, 0, 0, 0, 0];
    let rows = [
        (MAPPED, Addr::V4(0xc000_0201)),
        (COMPATIBLE, Addr::V6(0xc000_0201)),
        (BEHIND, Addr::V6(0x0001_0000_ffff_c000_0201)),
        (
            [255; 16],
            Addr::V6(0xffff_ffff_ffff_ffff_ffff_ffff_ffff_ffff),
        ),
    ];
    for (bytes, address) in rows {
        let client = Client {
            address,
            port: 33_904,
        };
        assert_eq!(rt; told(&front, &bytes, 28), Some(client));
    }
    Ok(())
}

#[test]
fn another_family_is_no_client(rt: HostRuntime) -> Result<(), Fail> {
    for family in [[0, 0], [1, 0], [0, 2], [0, 10], [2, 1], [10, 1]] {
        let front = [family[0], family[1], 0, 53];
        assert_eq!(rt; told(&front, &MAPPED, 28), None);
    }
    Ok(())
}
