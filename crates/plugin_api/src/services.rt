ghost use Rattle.std.specs.Prelude.{◌≡◌, [], ◌∷◌, IfOk};
ghost use Rattle.plugin_api.specs.Index.{service_on};

use dns_data::{NoMemory, Seq};
use std::alloc::Global;

/// A port, and the number of the block that serves it.
#[derive(Clone, Copy, Debug)]
pub struct Service {
    pub port: u16,
    pub block: u32,
}

/// A list of one service.
pub fn one_service(alloc: Global, service: Service) -> Result<Seq<Service>, NoMemory>
    ensures { IfOk result (λ services. services ≡ service ∷ []) }
{
    let mut services = Seq::with_capacity(alloc, 1)?;
    services.push(service)?;
    Ok(services)
}

/// The block that serves a port, among those that serve a zone.
#[inline]
#[tactic(auto, unfolding(crate::specs::Index::service_on))]
pub fn service_on(services: &[Service], port: u16) -> Option<u32>
    ensures { result ≡ service_on port services.now }
{
    for service in services {
        if service.port == port {
            return Some(service.block);
        }
    }
    None
}
