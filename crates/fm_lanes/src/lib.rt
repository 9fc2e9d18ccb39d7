//! Values in bytes: the six kinds of value, their coding as two's complement in either byte order, and the bytes of
//! words that they stand in.
#![tactic(auto)]

mod coding;
mod lane;
mod order;
mod value;
mod value_kind;
mod words;

pub use coding::{decode, encode, turned};
pub use lane::{bits, mask, read};
pub use order::Order;
pub use value::Value;
pub use value_kind::ValueKind;
pub use words::words_of;
