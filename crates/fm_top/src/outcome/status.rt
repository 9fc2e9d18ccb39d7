/// How a run of the tool ends.
#[derive(Clone, Copy, Debug, PartialEq, Eq)]
pub enum Status {
    /// All else: the answer was printed.
    Answered = 0,
    /// The words are no command.
    Usage = 1,
    /// A file doesn't exist.
    Missing = 2,
    /// A read failed.
    Unread = 3,
    /// The layout was refused.
    LayoutRefused = 4,
    /// The query or path was refused.
    QueryRefused = 5,
    /// The record file's length is no multiple of the record's size.
    Ragged = 6,
    /// A file has more bytes than its limit, or more values than are grouped.
    TooLong = 7,
    /// A write failed.
    Unwritten = 8,
    /// Memory ran out.
    NoMemory = 9,
    /// The script was refused.
    ScriptRefused = 10,
}

impl Status {
    ghost use Rattle.std.specs.Prelude.{◌≡◌};
    ghost use Rattle.fm_top.specs.Run.{code_of};

    /// The status as the process answers it.
    pub fn code(self) -> u8
        ensures { result ≡ code_of self }
    {
        self as u8
    }
}
