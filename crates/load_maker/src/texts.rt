//! The texts: both forms of the Corefile, and the zone.
ghost use Rattle.std.specs.Prelude.{◌≡◌, ◌++◌, string_bytes, IfOk, OnOk};
ghost use Rattle.load_maker.specs.Texts.{conf_text, host_line, second_text, zone_text};

use dns_data::{Bytes, NoMemory};
use numbers::put_decimal;
use std::alloc::Global;

const CONF: &str = "load.test:53 {\n    reload\n    cache\n    file /db.load\n}\n";

const SECOND: &str = "# second\n";

// What stands in front of the hosts.
const APEX: &str = "$TTL 300\n\
    @ IN SOA ns.load.test. admin.load.test. 1 7200 3600 1209600 60\n\
    @ IN NS ns.other.test.\n";

// How many hosts the zone has.
const HOSTS: u16 = 1000;

/// The Corefile at the start.
pub(crate) fn conf(alloc: Global) -> Result<Bytes, NoMemory>
    ensures { IfOk result (λ bytes. bytes ≡ conf_text) }
{
    Bytes::from_slice(alloc, CONF.as_bytes())
}

/// Its second form: the same with a comment in front.
pub(crate) fn second(alloc: Global) -> Result<Bytes, NoMemory>
    ensures { IfOk result (λ bytes. bytes ≡ second_text) }
{
    let mut text = Bytes::from_slice(alloc, SECOND.as_bytes())?;
    text.append(CONF.as_bytes())?;
    Ok(text)
}

/// The zone.
pub(crate) fn zone(alloc: Global) -> Result<Bytes, NoMemory>
    ensures { IfOk result (λ bytes. bytes ≡ zone_text) }
{
    let mut text = String::from_str(alloc, APEX)?;
    let mut host = 0;
    while host < HOSTS {
        put_host(&mut text, host)?;
        host += 1;
    }
    Bytes::from_slice(alloc, text.as_bytes())
}

// The line of a host.
fn put_host(text: &mut String, host: u16) -> Result<(), NoMemory>
    ensures { OnOk result (string_bytes text.new ≡ string_bytes text.old ++ host_line host) }
{
    text.push_str("h")?;
    put_decimal(text, host)?;
    text.push_str(" IN A 10.9.")?;
    put_decimal(text, host / 256)?;
    text.push_str(".")?;
    put_decimal(text, host % 256)?;
    text.push_str("\n")?;
    Ok(())
}
