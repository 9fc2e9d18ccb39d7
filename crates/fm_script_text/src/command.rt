use crate::cell::Cell;
use crate::close_by::CloseBy;
use fm_base::Kind;
use fm_path_text::NameText;

/// What a line of a script asks for. Sizes, alignments and offsets are in bytes.
#[derive(Drop)]
pub enum Command {
    /// `open NAME KIND`
    Open {
        name: NameText,
        kind: Kind,
    },
    /// `alloc ARENA NAME SIZE ALIGN`
    Alloc {
        arena: NameText,
        name: NameText,
        size: u64,
        align: u64,
    },
    /// `slice SEG NAME OFFSET SIZE`
    Slice {
        segment: NameText,
        name: NameText,
        offset: u64,
        size: u64,
    },
    /// `readonly SEG NAME`
    Readonly {
        segment: NameText,
        name: NameText,
    },
    /// `get SEG TYPE OFFSET`
    Get(Cell),
    /// `set SEG TYPE OFFSET VALUE`
    Set(Cell, i64),
    /// `add SEG TYPE OFFSET VALUE`
    Add(Cell, i64),
    /// `cas SEG TYPE OFFSET OLD NEW`
    Cas(Cell, i64, i64),
    /// `fill SEG BYTE`
    Fill {
        segment: NameText,
        byte: u8,
    },
    /// `copy SRC DST`
    Copy {
        source: NameText,
        target: NameText,
    },
    /// `mismatch SEG SEG`
    Mismatch {
        segment: NameText,
        other: NameText,
    },
    /// `alive ARENA`
    Alive {
        arena: NameText,
    },
    /// `hold ARENA NAME`
    Hold {
        arena: NameText,
        name: NameText,
    },
    /// `unhold HOLD`
    Unhold {
        hold: NameText,
    },
    /// `again HANDLE NAME`
    Again {
        handle: NameText,
        name: NameText,
    },
    /// `back HANDLE`
    Back {
        handle: NameText,
    },
    /// `close ARENA`, or `closepoll ARENA`
    Close {
        arena: NameText,
        by: CloseBy,
    },
}
