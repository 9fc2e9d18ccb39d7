//! Crews of passes: drawn, run as threads, each at a task of its own, and gathered again.
#![tactic(auto)]

mod beside;
mod crew;
mod laws;
mod then;
mod work;
mod worker;

pub use beside::{Beside, work_crew_beside};
pub use crew::work_crew;
pub use laws::crews_come_again;
pub use then::{Then, work_crew_then};
pub use work::Work;
