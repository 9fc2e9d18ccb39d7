//! How often each number comes among the values of records, counted by a crew of passes in one table that they share.
//!
//! **The problem.** A table's groups are right once every value was counted, and nobody counts any more. A crew's passes
//! end one by one, and the pass that drew them makes no access; so who reads, and when?
//!
//! **The idea.** The values are dealt out beforehand, a share a pass, which differ by at most one value: there is nothing
//! to take turns at. When all have counted, all are gathered but the last of them; it sees what the others did, reads the
//! table, and is gathered too (`work_crew_then` of `fm_workers_crew`). Where a share was refused nobody reads, and the
//! first refusal in the order of the draws is answered.
//!
//! ```
//! let groups = group_with(rt, alloc, &pool, &mut pass, &table, 4, &FreeGate)?;
//! ```
//!
//! **Why it is safe.** All counts stand before what the reader does, whatever their order among each other, so it reads
//! what they came to: the groups of all numbers in the records, where the table began with bytes that are 0 and nobody
//! else changed it or the records (`groups_are_read` of `fm_group_laws`). All entries are those of the drawn passes.
//!
//! **What is not promised.** Which place stands for which number, and in which order entries of two passes come. After a
//! refusal, what the table holds.
#![tactic(auto)]

mod counting;
mod dealing;
mod ending;
mod group;
mod grouping;
mod share;

pub use group::group_with;
