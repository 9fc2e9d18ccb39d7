//! The canonical JSON of layouts.
//!
//! A layout's JSON is an object with the key `type` and those that its type asks for. The canonical text is compact and
//! has its keys in byte order; `order` is written exactly where it is `big`, `align` exactly where the alignment isn't
//! the one that the constructor gives, and `name` exactly where there is one.
//!
//! The text of version 2 has that of the layout under the key `layout`, and names no types.
#![tactic(auto)]

mod canonical;
mod members;
mod writing;

pub use writing::{layout_to_json, layout_to_json2};
