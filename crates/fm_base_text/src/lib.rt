//! Texts seen as their bytes, and the numbers that words spell: what queries, scripts and the tool's words read alike.
//! Bytes as they are printed.
#![tactic(auto)]

mod bytes;
mod number;
mod text;

pub use bytes::push_bytes;
pub use number::{parse_decimal, parse_signed_decimal};
pub use text::Text;
