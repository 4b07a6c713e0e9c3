//! The sides that a run opens.
ghost use Rattle.dns_data.specs.declared.limit.TheConstants as limits;
ghost use Rattle.std.specs.Prelude.{◌≡◌, ◌≤◌, ◌++◌, [], map, length, MatchOption, IfOk};
ghost use Rattle.std.specs.Vec.{vec_capacity, vec_len};
ghost use Rattle.outside.specs.Hosts.{OpenedSide};
ghost use Rattle.dns_server.specs.Opening.{OpensPlaces, RefusesSides, place_of, port_sides};
ghost use Rattle.dns_server.specs.Opening.{side_count, sides_of, sides_to};

use chain_meaning::Refusal;
use dns_data::{Limit, NoMemory, Transport, limit};
use outside::{Host, OpenFault};
use std::alloc::Global;

/// Where a side is to be opened: its port, its transport, and its worker's number there.
#[derive(Clone, Copy, Debug, PartialEq, Eq)]
pub(crate) struct Place {
    pub port: u16,
    pub by: Transport,
    pub number: u32,
}

/// Why so many sides can't be opened: more than a run may have.
pub(crate) fn refused_sides(ports: &[u16], workers: u64) -> Option<Refusal>
    ensures { MatchOption result (side_count workers ports.now ≤ limits.WORKERS)
        (RefusesSides ports.now workers) }
{
    let sides = (ports.len() as u64)
        .saturating_mul(workers)
        .saturating_mul(2);
    if (limit::WORKERS as u64) < sides {
        return Some(Refusal::TooMany {
            what: Limit::Workers,
            number: limit::WORKERS as u64 + 1,
        });
    }
    None
}

/// The places of the sides of ports.
pub(crate) fn places_of(alloc: Global, ports: &[u16], workers: u64) -> Result<Vec<Place>, NoMemory>
    requires few { workers ≤ limits.WORKERS }
    ensures { IfOk result (λ places. map place_of places.items ≡ sides_of workers ports.now) }
{
    let mut places = Vec::new(alloc);
    for port in ports {
        push_places(&mut places, *port, Transport::Udp, workers)?;
        push_places(&mut places, *port, Transport::Tcp, workers)?;
    }
    Ok(places)
}

// The places of an endpoint.
fn push_places(
    places: &mut Vec<Place>,
    port: u16,
    by: Transport,
    workers: u64,
) -> Result<(), NoMemory>
    requires few { workers ≤ limits.WORKERS }
    ensures { IfOk result (λ _. map place_of places.new.items
        ≡ map place_of places.old.items ++ sides_to port by workers) }
{
    for number in 0..workers {
        let number = number as u32;
        places.push(Place { port, by, number })?;
    }
    Ok(())
}

/// Opens a side at each place, in their order. There is room for them.
pub(crate) fn open_places<H: Host>(
    host: &mut H,
    places: &[Place],
    sides: &mut Vec<H::Side>,
) -> Result<(), OpenFault>
    requires none { sides.old.items ≡ [] }
    requires room { length places.now ≤ vec_capacity sides.old }
    ensures opens { OpensPlaces (H.state host.old) (H.state host.new) (map place_of places.now)
        (map H.Side.state sides.new.items) result }
{
    for place in places {
        let side = host.open_side(place.port, place.by, place.number)?;
        sides.push_reserved(side);
    }
    Ok(())
}
