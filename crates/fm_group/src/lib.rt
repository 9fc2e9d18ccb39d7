//! How often each value occurs in records, counted by threads in one table that they share.
//!
//! **The problem.** Threads that count values of any type can't have a counter for each number there may be. A map a
//! thread has to be merged; a map that all share has to be locked.
//!
//! **The idea.** The table is a segment of places, each with a claim and a count, two longs. [`Values`] numbers the
//! values of a path in the records of a segment from 0. A place is claimed for a value by a compare-and-set of its
//! number plus 1 where 0 stood, and stands for this value's number from then on. [`CountTable::count`] tries the places
//! in an order that the number gives ([`PlaceOrder`]), up to one that was free or is claimed for an equal number, and
//! adds 1 to its count.
//!
//! ```
//! let values = Values::of(path, records);
//! let table = CountTable::with_order(places, values, PlaceOrder::Mixed);
//! for ordinal in 0..table.values().len() {
//!     table.count(&mut memory, ordinal)?;
//! }
//! let groups = table.read_groups(alloc, &mut memory)?;
//! ```
//!
//! [`CountTable::read_groups`] answers the numbers that places are claimed for, in rising order, each once, with the sum
//! of the counts beside its claims ([`Groups`]).
//!
//! **Why it is safe.** A claim is only put where 0 stood, and never taken away: whoever meets it finds the same value
//! there. A count is only added to, in the visit that claimed its place or behind one that met the claim. So no
//! thread's count is lost, however their steps come between each other.
//!
//! **What is not promised.** How many places are tried: as many as there are, where numbers collide. The number of a
//! value is the one that this call read: others may write the records meanwhile.
#![tactic(auto)]

mod counting;
mod laws;
mod order;
mod places;
mod reading;
mod table;
mod values;

pub use fm_group_lists::Groups;
pub use laws::{numbers_by_ordinal, resolved_is_few, tries_each_place};
pub use order::PlaceOrder;
pub use places::count_values;
pub use table::CountTable;
pub use values::Values;
