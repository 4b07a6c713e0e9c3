use reload_watch::Source;

/// How to serve.
#[derive(Clone, Copy, Debug)]
pub(crate) struct Setup<'a> {
    pub source: Source<'a>,
    pub port: u16,
    pub workers: u64,
    pub most: u64,
}
