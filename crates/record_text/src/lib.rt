//! Records in master file format, one to a text (RFC 1035, section 5.1), and the words that they
//! are made of.
#![tactic(auto)]

mod fault;
mod fields;
mod form;
mod head;
mod hex;
mod read;
mod rows;
mod string;
mod ttl;
mod word;

pub use fault::RecordFault;
pub use form::{Form, Place};
pub use head::{AddressHead, is_simple, read_address, read_address_head};
pub use read::{read_of_owner, read_owned, read_record};
pub use ttl::read_ttl;
pub use word::{Word, Words, first_word, read_name};
