//! Handles: accesses to the value that a path into a layout leads to (`VarHandle`, JEP 454, Java SE 22).
//!
//! **The problem.** Where a value stands follows from a layout, a path, and an index for each step that the path leaves
//! open. Worked out by hand an offset goes wrong unseen; found anew at each access it costs a walk through the layout.
//!
//! **The idea.** A handle is made of a layout and a path, once, and then reads, puts and updates the value wherever the
//! layout stands: a call takes a segment, a base, which is the layout's offset in it in bytes, and the indices. Offsets
//! are a sum over the indices; no call walks the layout or takes memory.
//!
//! In Java, adding to the price of a sale:
//!
//! ```java
//! MemoryLayout sale = structLayout(JAVA_LONG.withName("id"), JAVA_LONG.withName("price"));
//! VarHandle price = sale.varHandle(groupElement("price"));
//! long before = (long) price.getAndAdd(segment, 0L, more);
//! ```
//!
//! and here, as `fm_example` has it:
//!
//! ```
//! let path = parse_path(alloc, ".price")?;
//! let price = VarHandle::of(resolve(alloc, &layout, &path)?);
//! price.get_and_add(rt, theirs, sale, 0, &[], more)
//! ```
//!
//! A call asks for as many indices as the path leaves open, and for a value of the layout's kind. A handle tells both,
//! by `resolved().dims().len()` and `resolved().value().kind`; the example looks once, when it makes the handle.
//!
//! **Why it is safe.** The bytes touched are those of the place that following the path finds in the layout
//! (`stands_at_its_path`), within the segment. An update changes the value in one step of one visit.
//!
//! **What is not promised.** That `get` and `set` of a value that crosses a word are one step: they go piece by piece.
//! An update works where the value lies in one word alone: an int or a long whose alignment is at least its size. Those
//! with a `long` in their names wait for nobody; the others take `rt`, since they try again where another caller came
//! between.
#![tactic(auto)]

mod handle;
mod inside;
mod laws;
mod visits;
mod word;

pub use handle::{Support, VarHandle};
pub use inside::{add_inside, exchange_inside};
pub use laws::{sets_then_gets, stands_at_its_path};
pub use word::{is_same, long_in, word_of};
