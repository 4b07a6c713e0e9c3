//! The plugin `template`: records that are made of a query by patterns and texts.
#![tactic(auto)]

mod answering;
mod compile;
mod filling;
mod lines;
mod options;
mod part;
mod piece;
mod piece_read;
mod plan;
mod reading;
mod record_parts;
mod say;
mod searching;
mod words;

pub use answering::TemplateSay;
pub use options::{Earlier, Opens, Seen};
pub use part::Part;
pub use piece::{Piece, Place};
pub use plan::TemplatePlan;
pub use record_parts::{RecordParts, Sections};
pub use say::{TemplateRoom, decide};
