use crate::fold::Fold;
use fm_base_text::Text;
use fm_path::Resolved;

/// An item of a query: its text, and what it asks of the chosen records.
#[derive(Debug, Drop)]
pub struct Item {
    pub text: Text,
    pub asked: Asked,
}

/// What an item asks of the chosen records.
#[derive(Debug, Drop)]
pub enum Asked {
    /// How many there are.
    Count,
    /// This of the path's values in them.
    Of(Fold, Resolved),
}
