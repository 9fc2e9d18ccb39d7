//! Paths into layouts: where they lead, and what their open indices do to the offset.
//!
//! **The problem.** A path such as `.rows[].amount` leads to as many places as there are rows. Which place an access
//! means is known only with its indices, and a walk through the layout at each access, or a list of all places, would
//! be the price of it.
//!
//! **The idea.** Following a path is a sum: each step adds a fixed offset, and each open step a stride times its index.
//! [`resolve`] goes along the path once and keeps the offset, and of each open step the stride and the bound
//! ([`Resolved`]). From then on an offset is a sum over the indices, each tested against its bound.
//!
//! **Both sides.** What a path means is said by the list of all places of a layout (`fm_path_meaning`), and knows
//! nothing of strides; what is computed knows nothing of the list.
//!
//! **Why it is safe.** At admitted indices the two agree: the offset is that of the place which following the path
//! finds, and that place lies inside the root (`places_lie_inside`). Values lie apart but in unions
//! (`values_lie_apart`).
//!
//! **What is not promised.** A value at the end of each path: one to a group or a sequence has an offset
//! ([`byte_offset`]) and a layout ([`select`]), and [`resolve`] refuses it. The list of a layout's values
//! ([`list_places`]) takes memory and goes down by recursion, once a level.
#![tactic(auto)]

mod dims;
mod laws;
mod listing;
mod moves;
mod resolution;
mod resolved;
mod value_spec;

pub use dims::Dims;
pub use fm_path_meaning::Dim;
pub use fm_path_text::{NameText, PathStep, parse_path};
pub use laws::{lines_are_of_values, places_lie_inside, places_stand_once, values_lie_apart};
pub use listing::list_places;
pub use resolution::{byte_offset, locate, resolve, select};
pub use resolved::Resolved;
pub use value_spec::ValueSpec;
