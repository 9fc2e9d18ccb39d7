use crate::given::Given;
use fm_path_text::NameText;

/// An arena that is alive at the end of a script's run: the name that the script gives it, and its bytes.
#[derive(Debug, Drop)]
pub struct AliveArena {
    pub name: NameText,
    pub bytes: Given,
}
