//! Memory layouts, as trees that mean what Java's `MemoryLayout` means (JEP 454, Java SE 22).
//!
//! **The problem.** A value that stands where its alignment forbids it, or a size that wraps, is found out late: at an
//! access that is far from where the layout was made.
//!
//! **The idea.** A layout says what stands where in a run of bytes: a value, padding, a sequence of one element, a
//! struct of members one after the other, or a union of members that all stand at the start. It has a size and an
//! alignment in bytes, and perhaps a name.
//!
//! A record of 16 bytes, an id, a kind, two bytes of padding and an amount:
//!
//! ```
//! let id = Layout::value(ValueKind::Int).with_name(alloc, "id")?;
//! let kind = Layout::value(ValueKind::Short).with_name(alloc, "kind")?;
//! let gap = Layout::padding(2)?;
//! let amount = Layout::value(ValueKind::Long).with_name(alloc, "amount")?;
//! match vec![in alloc; id, kind, gap, amount] {
//!     Ok(members) => Layout::structure(members),
//!     Err(_) => Err(Refusal::Memory),
//! }
//! ```
//!
//! (`demo_layout.rt` of `fm_top` has these lines; what a `vec!` hands back in its error is no `Refusal`.)
//!
//! **Why it is safe.** Every layout is well formed: a constructor refuses what isn't, by the first rule that is broken.
//! So who has a layout asks nothing of it any more.
//!
//! **What is not promised.** Padding that is put in by itself: without the 2 bytes of padding `structure` answers that
//! member 2 would stand at offset 6, which is no multiple of its alignment. Any depth: dropping, copying and comparing
//! go down the tree by recursion, and how many levels fit depends on the stack.
#![tactic(auto)]

mod form;
mod layout;
mod name;

pub use form::Form;
pub use layout::Layout;
pub use name::is_name;
