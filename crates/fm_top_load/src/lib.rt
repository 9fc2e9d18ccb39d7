//! Files read whole: into a list of bytes, or into an arena of any memory.
#![tactic(auto)]

mod held;
mod load_fault;
mod loaded;
mod loading;
mod portion;
mod putting;
mod reached;
mod room;
mod stretch;
mod whole_file;
mod whole_records;

pub use held::{RECORD_FILE_LIMIT, open_held, put_held};
pub use load_fault::LoadFault;
pub use loaded::{Loaded, load};
pub use loading::load_into;
pub use portion::Portion;
pub use putting::put_stretch;
pub use reached::Reached;
pub use room::Room;
pub use stretch::Stretch;
pub use whole_file::{LAYOUT_FILE_LIMIT, read_rest, read_whole};
pub use whole_records::check_records;
