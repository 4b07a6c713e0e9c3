//! How long and how many: limits of the wire format, and of this server. A name in `.._END` is the
//! first number that is too large.
ghost use Rattle.std.specs.Prelude.{◌≡◌};
ghost use Rattle.dns_data.specs.Limits.{limit_text};

pub use dns_names::limit::{LABEL_BYTES, NAME_BYTES};

/// Bytes of a character-string (RFC 1035, section 3.3).
pub const STRING_BYTES: usize = 255;

/// Bytes of RDATA, whose length stands in 16 bits (RFC 1035, section 3.2.1).
pub const RDATA_BYTES: usize = 65_535;

/// A TTL, in seconds, is below this (RFC 2181, section 8).
pub const TTL_END: u32 = 1 << 31;

/// An opcode and an RCODE of a header have 4 bits (RFC 1035, section 4.1.1).
pub const CODE_END: u8 = 16;

/// Bytes of the header of a message (RFC 1035, section 4.1.1).
pub const HEADER_BYTES: usize = 12;

/// A pointer leads to an offset below this (RFC 1035, section 4.1.4).
pub const POINTER_END: usize = 16_384;

/// Bytes of a message, whose length stands in 16 bits over TCP (RFC 1035, section 4.2.2).
pub const MESSAGE_BYTES: u32 = 65_535;

/// Bytes of a message over UDP, for a client that says nothing of its own size (RFC 1035, section
/// 4.2.1).
pub const UDP_BYTES: u32 = 512;

/// The payload size that this server's OPT records tell (RFC 6891, section 6.2.5).
pub const EDNS_BYTES: u16 = 1_232;

/// Datagrams that a worker takes at most, where no smaller number is asked.
pub const TURNS: u64 = 1 << 46;

/// Datagrams that `--queries` may ask for.
pub const QUERIES: u64 = 1_000_000_000;

/// Calls in a row that fail before a worker ends.
pub const FAILURES: u64 = 64;

/// Workers of a run.
pub const WORKERS: usize = 32;

/// Blocks of a Corefile.
pub const BLOCKS: usize = 64;

/// Directives of a block.
pub const DIRECTIVES: usize = 64;

/// Lines of a Corefile, those of its imports among them.
pub const LINES: usize = 65_536;

/// How deep imports go.
pub const IMPORT_DEPTH: usize = 16;

/// Patterns of a Corefile.
pub const PATTERNS: usize = 64;

/// Files that a Corefile names.
pub const FILES: usize = 256;

/// Bytes of one file.
pub const FILE_BYTES: usize = 1_048_576;

/// Bytes of a file that are read: one more than it may have, so that a longer one is seen.
pub const READ_BYTES: usize = 1_048_577;

/// Bytes of the Corefile and its files together.
pub const BUNDLE_BYTES: usize = 16_777_216;

/// Records of a zone.
pub const ZONE_RECORDS: usize = 100_000;

/// Upstreams of one directive.
pub const UPSTREAMS: usize = 15;

/// Of what there may only be so many. Exceeding it refuses a whole configuration.
#[derive(Clone, Copy, Debug, PartialEq, Eq)]
pub enum Limit {
    /// Workers of a run: `WORKERS`.
    Workers,
    /// Blocks of a Corefile: `BLOCKS`.
    Blocks,
    /// Directives of a block: `DIRECTIVES`.
    Directives,
    /// Lines of a Corefile, those of its imports among them: `LINES`.
    Lines,
    /// Patterns of a Corefile: `PATTERNS`.
    Patterns,
    /// Bytes of one file: `FILE_BYTES`.
    FileBytes,
    /// Bytes of the Corefile and its files together: `BUNDLE_BYTES`.
    BundleBytes,
    /// Files that a Corefile names: `FILES`.
    Files,
    /// Records of a zone: `ZONE_RECORDS`.
    ZoneRecords,
    /// Upstreams of one directive: `UPSTREAMS`.
    Upstreams,
}

impl Limit {
    /// Of what there are too many, as an operator sees it.
    pub fn text(self) -> &'static str
        ensures { result.now ≡ limit_text self }
    {
        match self {
            Limit::Workers => "workers",
            Limit::Blocks => "blocks",
            Limit::Directives => "directives",
            Limit::Lines => "lines",
            Limit::Patterns => "patterns",
            Limit::FileBytes => "file bytes",
            Limit::BundleBytes => "bundle bytes",
            Limit::Files => "files",
            Limit::ZoneRecords => "zone records",
            Limit::Upstreams => "upstreams",
        }
    }
}
