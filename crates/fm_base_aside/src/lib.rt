//! What a caller's own entries come to where others only look.
#![tactic(auto)]
