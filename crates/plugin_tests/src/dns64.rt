//! What `dns64` makes of queries and replies. The rest of a chain is what a test hands to it.
use crate::made::{directive, push_address, push_cname, push_ptr, push_soa, query, shown};
use dns_data::{Addr, NoMemory, Query, RecordRoom, Slot, Text, kind, rcode};
use dns64_plugin::{Dns64Plan, a_query, clear_for_second, needs_second, ptr_answer, ttl};
use std::alloc::Global;
use std::process::Abort;
use std::test::Fail;

// 127.0.0.1 and ::1.
const V4_CLIENT: Addr = Addr::V4(0x7f00_0001);

const V6_CLIENT: Addr = Addr::V6(1);

// 192.0.2.33, the address of RFC 6052, section 2.4.
const V4_ADDRESS: Addr = Addr::V4(0xc000_0221);

// The name of 64:ff9b::c000:221 (RFC 3596, section 2.5).
const V6_NAME: &str = "1.2.2.0.0.0.0.c.0.0.0.0.0.0.0.0.0.0.0.0.0.0.0.0.b.9.f.f.4.6.0.0.ip6.arpa";

fn plan(alloc: Global, text: &str) -> Result<Dns64Plan, NoMemory> {
    match Dns64Plan::read(alloc, &directive(alloc, text)?) {
        Ok(plan) => Ok(plan),
        Err(_) => Err(NoMemory),
    }
}

// What a first reply without an answer bounds TTLs by, with an SOA of this TTL and then another.
fn bound_behind(alloc: Global, code: u8, soa: u16) -> Result<Option<u32>, NoMemory> {
    let mut authority = RecordRoom::new(alloc);
    push_soa(alloc, soa, &mut authority)?;
    push_soa(alloc, 5, &mut authority)?;
    Ok(needs_second(code, &[], authority.as_slice()))
}

#[test]
fn a_first_reply_bounds_the_ttl(rt: HostRuntime) -> Result<(), Fail> {
    for (code, want) in [
        (rcode::NOERROR, Some(30)),
        (rcode::REFUSED, Some(30)),
        (rcode::SERVFAIL, Some(30)),
        (rcode::NXDOMAIN, None),
    ] {
        assert_eq!(rt; bound_behind(rt.alloc(), code, 30)?, want, "{code}");
    }
    assert_eq!(rt; needs_second(rcode::NOERROR, &[], &[]), Some(600));
    assert_eq!(rt; needs_second(rcode::NXDOMAIN, &[], &[]), None);
    assert_eq!(rt; ttl::DEFAULT, 600);
    Ok(())
}

#[test]
fn a_reply_with_an_address_of_ipv6_stands(rt: HostRuntime) -> Result<(), Fail> {
    let mut answer = RecordRoom::new(rt.alloc());
    push_cname(rt.alloc(), "h.test", 60, "g.test", &mut answer)?;
    let alone = needs_second(rcode::NOERROR, answer.as_slice(), &[]);
    // An address that maps one of IPv4 counts too.
    let mapped = Addr::V6(0xffff_c000_0221);
    push_address(rt.alloc(), "g.test", 60, mapped, &mut answer)?;
    let found = needs_second(rcode::NOERROR, answer.as_slice(), &[]);
    let refused = needs_second(rcode::REFUSED, answer.as_slice(), &[]);
    assert_eq!(rt; (alone, found, refused), (Some(600), None, Some(600)));
    Ok(())
}

// Whether the rest may run twice for a query of this type.
fn translates(alloc: Global, text: &str, client: Addr, asked: u16) -> Result<bool, NoMemory> {
    let plan = plan(alloc, text)?;
    Ok(plan.translates(&query(alloc, "h.test", asked, client)))
}

#[test]
fn clients_of_ipv4_are_served_where_that_is_allowed(rt: HostRuntime) -> Result<(), Fail> {
    for (text, client, asked, want) in [
        ("; allow_ipv4", V4_CLIENT, kind::AAAA, true),
        ("; allow_ipv4", V6_CLIENT, kind::AAAA, true),
        ("; ptr", V4_CLIENT, kind::AAAA, false),
        ("; ptr", V6_CLIENT, kind::AAAA, true),
        ("; ptr", V6_CLIENT, kind::A, false),
        ("; ptr", V6_CLIENT, kind::ANY, false),
    ] {
        assert_eq!(rt;
            translates(rt.alloc(), text, client, asked)?,
            want,
            "{text} {asked}"
        );
    }
    Ok(())
}

#[test]
fn the_rest_is_asked_the_same_for_addresses_of_ipv4(rt: HostRuntime) -> Result<(), Fail> {
    let query = query(rt.alloc(), "H.test", kind::AAAA, V6_CLIENT);
    let mut second = Query::blank(rt.alloc());
    a_query(&query, &mut second)?;
    assert!(rt; second.name.equals(&query.name));
    assert_eq!(rt; (second.kind, second.client), (kind::A, V6_CLIENT));
    Ok(())
}

// The answer of a second reply of this RCODE for `h.test`, whose one address has TTL 60, with TTLs
// of at most so many seconds.
fn combined(alloc: Global, text: &str, code: u8, bound: u16) -> Result<Text, NoMemory> {
    let plan = plan(alloc, text)?;
    let mut slot = Slot::new(alloc);
    if code == rcode::REFUSED {
        slot.rcode = rcode::REFUSED;
    }
    push_address(alloc, "h.test", 60, V4_ADDRESS, &mut slot.answer)?;
    let mut spare = RecordRoom::new(alloc);
    plan.combine(alloc, u32::from(bound), &mut slot, &mut spare)?;
    shown(alloc, slot.answer.as_slice())
}

#[test]
fn an_address_stands_behind_the_prefix(rt: HostRuntime) -> Result<(), Fail> {
    for (text, code, bound, want) in [
        ("", rcode::NOERROR, 30, "h.test. 30 28 64:ff9b::c000:221; "),
        ("", rcode::NOERROR, 600, "h.test. 60 28 64:ff9b::c000:221; "),
        ("", rcode::REFUSED, 30, "h.test. 60 1 192.0.2.33; "),
        (
            "2001:db8:122:344::/96",
            rcode::NOERROR,
            600,
            "h.test. 60 28 2001:db8:122:344::c000:221; ",
        ),
    ] {
        let shown = combined(rt.alloc(), text, code, bound)?;
        assert_eq!(rt; shown.as_str(), want, "{text} {code} {bound}");
    }
    Ok(())
}

// What a client of IPv4 gets that asks for AAAA of `h.test`: where the first verdict is a reply of
// this RCODE with an SOA of TTL 30, or a code where there is none, and the second reply has one A
// of TTL 60.
fn served(alloc: Global, text: &str, first: Option<u8>) -> Result<Text, NoMemory> {
    if !translates(alloc, text, V4_CLIENT, kind::AAAA)? {
        return Text::from_str(alloc, "one run");
    }
    let bound = match first {
        Some(code) => bound_behind(alloc, code, 30)?,
        None => Some(ttl::DEFAULT),
    };
    match bound {
        Some(600) => combined(alloc, text, rcode::NOERROR, 600),
        Some(30) => combined(alloc, text, rcode::NOERROR, 30),
        Some(_) => Text::from_str(alloc, "another bound"),
        None => Text::from_str(alloc, "one run"),
    }
}

#[test]
fn the_first_verdict_decides_whether_there_is_a_second(rt: HostRuntime) -> Result<(), Fail> {
    let (least, own) = (
        "h.test. 30 28 64:ff9b::c000:221; ",
        "h.test. 60 28 64:ff9b::c000:221; ",
    );
    for (text, first, want) in [
        ("; allow_ipv4 ; ptr", Some(rcode::NOERROR), least),
        ("; allow_ipv4 ; ptr", Some(rcode::NXDOMAIN), "one run"),
        ("; allow_ipv4 ; ptr", Some(rcode::REFUSED), least),
        ("; allow_ipv4 ; ptr", None, own),
        ("; ptr", Some(rcode::NOERROR), "one run"),
    ] {
        let shown = served(rt.alloc(), text, first)?;
        assert_eq!(rt; shown.as_str(), want, "{text} {first:?}");
    }
    Ok(())
}

// A second reply: an alias, two addresses, and one behind the answer.
fn long_reply(alloc: Global, slot: &mut Slot) -> Result<(), NoMemory> {
    push_cname(alloc, "h.test", 900, "g.test", &mut slot.answer)?;
    push_address(alloc, "g.test", 700, V4_ADDRESS, &mut slot.answer)?;
    push_address(alloc, "g.test", 20, Addr::V4(0), &mut slot.answer)?;
    push_address(alloc, "ns.test", 40, V4_ADDRESS, &mut slot.additional)
}

#[test]
fn aliases_and_other_sections_stay(rt: HostRuntime) -> Result<(), Fail> {
    let plan = plan(rt.alloc(), "")?;
    let mut slot = Slot::new(rt.alloc());
    let mut spare = RecordRoom::new(rt.alloc());
    long_reply(rt.alloc(), &mut slot)?;
    plan.combine(rt.alloc(), 600, &mut slot, &mut spare)?;
    let answer = shown(rt.alloc(), slot.answer.as_slice())?;
    let additional = shown(rt.alloc(), slot.additional.as_slice())?;
    let want = "h.test. 900 5 g.test.; g.test. 600 28 64:ff9b::c000:221; g.test. 20 28 64:ff9b::; ";
    assert_eq!(rt; answer.as_str(), want);
    assert_eq!(rt; additional.as_str(), "ns.test. 40 1 192.0.2.33; ");
    Ok(())
}

// A second run of one address, combined in the room of earlier ones.
fn run_again(
    alloc: Global,
    plan: &Dns64Plan,
    slot: &mut Slot,
    spare: &mut RecordRoom,
) -> Result<Text, NoMemory> {
    clear_for_second(slot, spare);
    push_address(alloc, "h.test", 60, V4_ADDRESS, &mut slot.answer)?;
    plan.combine(alloc, 30, slot, spare)?;
    shown(alloc, slot.answer.as_slice())
}

#[test]
fn a_room_is_used_again(rt: HostRuntime) -> Result<(), Fail> {
    let plan = plan(rt.alloc(), "")?;
    let mut slot = Slot::new(rt.alloc());
    let mut spare = RecordRoom::new(rt.alloc());
    long_reply(rt.alloc(), &mut slot)?;
    slot.rcode = rcode::SERVFAIL;
    for _ in 0..3 {
        let shown = run_again(rt.alloc(), &plan, &mut slot, &mut spare)?;
        assert_eq!(rt; shown.as_str(), "h.test. 30 28 64:ff9b::c000:221; ");
        assert_eq!(rt; (slot.rcode, slot.additional.len()), (rcode::NOERROR, 0));
    }
    Ok(())
}

// The name that is asked for in place of another one, or `none`.
fn turned(alloc: Global, text: &str, query: &Query) -> Result<Text, NoMemory> {
    let plan = plan(alloc, text)?;
    let mut inner = Query::blank(alloc);
    if plan.ptr_query(alloc, query, &mut inner)? {
        return inner.name.text(alloc);
    }
    Text::from_str(alloc, "none")
}

fn is_turned<A: Abort>(
    rt: &A,
    alloc: Global,
    text: &str,
    query: &Query,
    want: &str,
) -> Result<(), NoMemory> {
    let turned = turned(alloc, text, query)?;
    assert_eq!(rt; turned.as_str(), want, "{text}");
    Ok(())
}

#[test]
fn a_name_of_an_address_leads_to_that_of_ipv4(rt: HostRuntime) -> Result<(), Fail> {
    let asked = query(rt.alloc(), V6_NAME, kind::PTR, V4_CLIENT);
    for (text, want) in [
        ("; ptr ; allow_ipv4", "33.2.0.192.in-addr.arpa."),
        ("; ptr", "none"),
        ("; allow_ipv4", "none"),
        ("2001:db8:122:344::/96 ; ptr ; allow_ipv4", "none"),
    ] {
        is_turned(&rt, rt.alloc(), text, &asked, want)?;
    }
    let other = query(rt.alloc(), V6_NAME, kind::ANY, V6_CLIENT);
    is_turned(&rt, rt.alloc(), "; ptr", &other, "none")?;
    Ok(())
}

#[test]
fn letters_of_a_name_are_alike_and_the_prefix_counts(rt: HostRuntime) -> Result<(), Fail> {
    for (owner, want) in [
        (
            "1.2.2.0.0.0.0.C.0.0.0.0.0.0.0.0.0.0.0.0.0.0.0.0.B.9.F.F.4.6.0.0.IP6.Arpa",
            "33.2.0.192.in-addr.arpa.",
        ),
        (
            "1.2.2.0.0.0.0.c.1.0.0.0.0.0.0.0.0.0.0.0.0.0.0.0.b.9.f.f.4.6.0.0.ip6.arpa",
            "none",
        ),
        (
            "1.2.2.0.0.0.0.c.0.0.0.0.0.0.0.0.0.0.0.0.0.0.0.0.c.9.f.f.4.6.0.0.ip6.arpa",
            "none",
        ),
        (
            "2.2.0.0.0.0.c.0.0.0.0.0.0.0.0.0.0.0.0.0.0.0.0.b.9.f.f.4.6.0.0.ip6.arpa",
            "none",
        ),
        ("33.2.0.192.in-addr.arpa", "none"),
    ] {
        let asked = query(rt.alloc(), owner, kind::PTR, V6_CLIENT);
        is_turned(&rt, rt.alloc(), "; ptr", &asked, want)?;
    }
    Ok(())
}

// The answer that a client gets who asked for the name of 64:ff9b::c000:221, in front of so many of
// the names of 192.0.2.33 in a reply of this RCODE.
fn pointed(alloc: Global, code: u8, count: u8) -> Result<Text, NoMemory> {
    let asked = query(alloc, V6_NAME, kind::PTR, V6_CLIENT);
    let inner = query(alloc, "33.2.0.192.in-addr.arpa", kind::PTR, V6_CLIENT);
    let mut slot = Slot::new(alloc);
    if code == rcode::NXDOMAIN {
        slot.rcode = rcode::NXDOMAIN;
    }
    if 0 < count {
        push_ptr(
            alloc,
            "33.2.0.192.in-addr.arpa",
            50,
            "h.test",
            &mut slot.answer,
        )?;
    }
    if 1 < count {
        push_ptr(
            alloc,
            "33.2.0.192.in-addr.arpa",
            40,
            "g.test",
            &mut slot.answer,
        )?;
    }
    let mut spare = RecordRoom::new(alloc);
    ptr_answer(alloc, &asked, &inner, &mut slot, &mut spare)?;
    shown(alloc, slot.answer.as_slice())
}

#[test]
fn an_alias_stands_in_front_with_the_least_ttl(rt: HostRuntime) -> Result<(), Fail> {
    for (code, count, want) in [
        (
            rcode::NOERROR,
            1,
            "1.2.2.0.0.0.0.c.0.0.0.0.0.0.0.0.0.0.0.0.0.0.0.0.b.9.f.f.4.6.0.0.ip6.arpa. 50 5 \
             33.2.0.192.in-addr.arpa.; 33.2.0.192.in-addr.arpa. 50 12 h.test.; ",
        ),
        (
            rcode::NOERROR,
            2,
            "1.2.2.0.0.0.0.c.0.0.0.0.0.0.0.0.0.0.0.0.0.0.0.0.b.9.f.f.4.6.0.0.ip6.arpa. 40 5 \
             33.2.0.192.in-addr.arpa.; 33.2.0.192.in-addr.arpa. 50 12 h.test.; \
             33.2.0.192.in-addr.arpa. 40 12 g.test.; ",
        ),
        (
            rcode::NOERROR,
            0,
            "1.2.2.0.0.0.0.c.0.0.0.0.0.0.0.0.0.0.0.0.0.0.0.0.b.9.f.f.4.6.0.0.ip6.arpa. 600 5 \
             33.2.0.192.in-addr.arpa.; ",
        ),
        (
            rcode::NXDOMAIN,
            1,
            "33.2.0.192.in-addr.arpa. 50 12 h.test.; ",
        ),
    ] {
        let shown = pointed(rt.alloc(), code, count)?;
        assert_eq!(rt; shown.as_str(), want, "{code} {count}");
    }
    Ok(())
}
