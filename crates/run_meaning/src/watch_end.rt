/// Why no further look for a changed configuration is made: the watch has ended, or what serves has
/// no `reload`.
#[derive(Clone, Copy, Debug, PartialEq, Eq)]
pub enum WatchEnd {
    End,
    NoReload,
}
