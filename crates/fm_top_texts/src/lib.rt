//! The texts of a file's records, in fields that end with a byte 0.
//!
//! [`plan_texts`] follows a path to a sequence of byte values and tells where its bytes lie in a record; [`RecordTexts`]
//! has a line for each record of a loaded file. A text ends at its first 0 and is UTF-8, or the line tells why there is
//! none.
#![tactic(auto)]

mod laws;
mod lines;
mod plan;
mod record_texts;
mod writing;

pub use laws::{bytes_have_one_text, paths_have_one_plan};
pub use plan::{TextPlan, plan_texts};
pub use record_texts::RecordTexts;
