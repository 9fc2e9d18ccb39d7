use fm_lanes::{Order, ValueKind};
use fm_path_text::NameText;

/// Where a value stands: its kind and byte order, and its offset in bytes from the segment's start.
#[derive(Drop)]
pub struct Cell {
    pub segment: NameText,
    pub kind: ValueKind,
    pub order: Order,
    pub offset: u64,
}
