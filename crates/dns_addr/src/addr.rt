/// An address of the internet, as a number: 32 bits for IPv4, 128 bits for IPv6, the first byte of
/// the address highest.
#[derive(Clone, Copy, Debug, PartialEq, Eq)]
pub enum Addr {
    V4(u32),
    V6(u128),
}
