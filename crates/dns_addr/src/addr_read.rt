ghost use Rattle.std.specs.Prelude.{◌≡◌};
ghost use Rattle.dns_addr.specs.AddrText.{addr_of};

use crate::Addr;
use crate::v4::read_v4;
use crate::v6::read_v6;

impl Addr {
    /// The address that a text spells: IPv4 as four decimal numbers without needless zeros, or IPv6
    /// (RFC 4291, section 2.2).
    #[tactic(auto, unfolding(crate::specs::AddrText::addr_of))]
    pub fn read(text: &[u8]) -> Option<Addr>
        ensures { result ≡ addr_of text.now }
    {
        match read_v4(text) {
            Some(addr) => Some(Addr::V4(addr)),
            None => Some(Addr::V6(read_v6(text)?)),
        }
    }
}
