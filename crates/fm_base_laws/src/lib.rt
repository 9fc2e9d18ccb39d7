//! Laws of histories beside those of `fm_base`: in which order arenas were opened, what keeps an arena's count of given
//! bytes and its holds, that a byte which others spare is what one caller's entries leave, words that are only claimed,
//! and sums over entries by those who made them.
#![tactic(auto)]

mod laws;

pub use laws::{
    claimed_by_some, claims_stand, given_stays, left_is_found, opened_in_order, own_decide,
    stays_unheld, weighs_by_callers,
};
