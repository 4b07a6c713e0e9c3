use outside::Upstream;

/// An upstream with its number in the directive, from 0.
#[derive(Clone, Copy, Debug)]
pub struct Numbered {
    pub number: u32,
    pub upstream: Upstream,
}
