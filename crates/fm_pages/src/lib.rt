//! Pages of a pool's arenas: which page has a word of an arena, and how a pass gets one for a part.
//!
//! **The problem.** Two passes may want a page for the same part of an arena at once, and a page that is given back
//! comes to another arena. A pass that looks for a word must not find it in a page that has gone on since.
//!
//! **Who wants a page** claims one by an exchange of its bit ([`claim`]), so it is in one hand alone. Then it exchanges
//! the part's map word 0 for the page ([`map`]). Who comes second finds the page of the first there, and keeps its own,
//! which [`free_page`] or another part spends.
//!
//! **Who gives pages back** is the pass that ended the arena (`fm_close`): it makes a map word 0 first, wipes the
//! page's words that have a given byte, and sets its bit last.
//!
//! **Why it is safe.** A map word of an arena goes back to 0 only once the arena has ended, and it doesn't end while a
//! pass is inside. So what a pass reads there ([`place_of`]) stands until it leaves.
//!
//! **What is not promised.** Which page is claimed; that a page is still free where the call before saw one: bits are
//! looked at one word after another, and others take and give pages meanwhile. `PoolFull` says that each word of page
//! bits was 0 at a step of the call, and not that all were at one. No call takes memory.
#![tactic(auto)]

mod claiming;
mod covering;
mod giving;
mod maker;
mod mapping;
mod page;
mod placing;
mod providing;

pub use claiming::{claim, free_page};
pub use covering::cover;
pub use giving::try_at;
pub use maker::Maker;
pub use mapping::map;
pub use page::Page;
pub use placing::place_of;
