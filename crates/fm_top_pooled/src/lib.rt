//! Bytes of records in a pool of their own, and what a crew of passes answers of them.
#![tactic(auto)]

mod asking;
mod finishing;
mod grouping;
mod loading;
mod pooled;
mod record_file;
mod shape;
mod stock;
mod stocking;
mod tallying;
mod wanting;

pub use finishing::take_apart;
pub use grouping::{TABLE_LIMIT, VALUES_LIMIT, table_size, values_in};
pub use pooled::Pooled;
pub use record_file::RecordFile;
pub use tallying::COUNTS_SIZE;
pub use wanting::unless_wanting;
