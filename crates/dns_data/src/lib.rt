//! DNS names, records and messages as plain data (RFC 1035, sections 3 and 4), and the lists and
//! texts that hold them.
#![tactic(auto)]

mod answer;
mod block;
pub mod class;
mod directive;
mod file;
pub mod kind;
pub mod limit;
mod message;
pub mod opcode;
mod query;
pub mod rcode;
mod record;
mod record_set;
mod room;
mod slot;
mod zone;

pub use answer::Answer;
pub use block::{Block, BlockKey};
pub use directive::{Directive, Line};
pub use dns_addr::{Addr, Net};
pub use dns_lists::{Buffer, Bytes, Copies, NoMemory, Seq, Text, are_bytes, are_equal};
pub use dns_names::{Labels, Name, NameFault, byte_at, same_letters};
pub use file::FileText;
pub use limit::Limit;
pub use message::{Message, Opt, Question, Transport};
pub use query::Query;
pub use record::{Rdata, Record, Soa, is_known_type};
pub use room::RecordRoom;
pub use slot::Slot;
pub use zone::Zone;

pub type Blocks = Seq<Block>;

pub type BlockKeys = Seq<BlockKey>;

pub type Directives = Seq<Directive>;

pub type FileTexts = Seq<FileText>;

pub type Lines = Seq<Line>;

pub type Names = Seq<Name>;

pub type Records = Seq<Record>;

/// Character-strings, of at most 255 bytes each (RFC 1035, section 3.3).
pub type Strings = Seq<Bytes>;

pub type Texts = Seq<Text>;
