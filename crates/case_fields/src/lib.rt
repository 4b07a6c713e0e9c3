//! The fields of the lines by which the programs of tests are told what to do: bytes in hexadecimal.
#![tactic(auto)]

mod fault;
mod fields;
mod putting;

pub use fault::CaseFault;
pub use fields::{bytes_field, read_bytes, read_text};
pub use putting::{put_bytes, put_number, put_word};
