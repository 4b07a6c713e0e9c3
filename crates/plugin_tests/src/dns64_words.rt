//! What `dns64` takes and refuses.
use crate::made::directive;
use dns_data::NoMemory;
use dns64_plugin::Dns64Plan;
use plugin_api::DirectiveFault;
use std::alloc::Global;
use std::process::Abort;
use std::test::Fail;

// The line and the word of the first fault. None: the directive is taken.
fn fault(alloc: Global, text: &str) -> Result<Option<(u32, &'static str)>, NoMemory> {
    match Dns64Plan::read(alloc, &directive(alloc, text)?) {
        Ok(_) => Ok(None),
        Err(DirectiveFault::Why { line, why }) => Ok(Some((line, why.text()))),
        Err(_) => Err(NoMemory),
    }
}

fn is_refused<A: Abort>(
    rt: &A,
    alloc: Global,
    text: &str,
    line: u32,
    why: &str,
) -> Result<(), NoMemory> {
    match fault(alloc, text)? {
        Some((at, word)) => assert!(rt; at == line && word == why, "{text}: {word} at {at}"),
        None => assert!(rt; false, "{text} is taken"),
    }
    Ok(())
}

fn is_taken<A: Abort>(rt: &A, alloc: Global, text: &str) -> Result<(), NoMemory> {
    assert!(rt; fault(alloc, text)?.is_none(), "{text}");
    Ok(())
}

// 64:ff9b::/96 is the prefix for all, and 2001:db8:122:344::/96 one of a net's own (RFC 6052,
// sections 2.1 and 2.4).
#[test]
fn a_prefix_has_96_bits_of_ipv6(rt: HostRuntime) -> Result<(), Fail> {
    for text in [
        "",
        "64:ff9b::/96",
        "2001:db8:122:344::/96",
        "64:ff9b::1/96",
        "; prefix 64:ff9b::/96",
    ] {
        is_taken(&rt, rt.alloc(), text)?;
    }
    for text in [
        "64:ff9b::",
        "64:ff9b::/64",
        "64:ff9b::/128",
        "192.0.2.0/24",
        "example.org",
    ] {
        is_refused(&rt, rt.alloc(), text, 7, "net")?;
    }
    Ok(())
}

#[test]
fn a_prefix_stands_once(rt: HostRuntime) -> Result<(), Fail> {
    for (text, line, why) in [
        ("64:ff9b::/96 64:ff9b::/96", 7, "args"),
        ("64:ff9b::/96 ; prefix 64:ff9b::/96", 8, "args"),
        ("; prefix 64:ff9b::/96 ; prefix 64:ff9b::/96", 9, "args"),
        ("; prefix", 8, "args"),
        ("; prefix 64:ff9b::/96 64:ff9b::/96", 8, "args"),
        ("; ptr ; prefix 64:ff9b::/56", 9, "net"),
    ] {
        is_refused(&rt, rt.alloc(), text, line, why)?;
    }
    Ok(())
}

#[test]
fn each_option_stands_once_and_alone(rt: HostRuntime) -> Result<(), Fail> {
    is_taken(&rt, rt.alloc(), "64:ff9b::/96 ; allow_ipv4 ; ptr")?;
    for (text, line, why) in [
        ("; allow_ipv4 ; allow_ipv4", 9, "args"),
        ("; ptr ; ptr", 9, "args"),
        ("; ptr 64:ff9b::/96", 8, "args"),
        ("; allow_ipv4 all", 8, "args"),
        ("; translate_all", 8, "option"),
        ("; ptr ; translate_all", 9, "option"),
        ("lan ; translate_all", 7, "net"),
    ] {
        is_refused(&rt, rt.alloc(), text, line, why)?;
    }
    Ok(())
}
