ghost use Rattle.std.specs.Prelude.{◌≡◌};
ghost use Rattle.fm_top.specs.declared.outcome.stop.Stop.TheVariants.{Memory};

use crate::outcome::status::Status;
use fm_base::Refusal;
use std::alloc::AllocError;

/// Why a run comes to no answer, wherever it stops.
#[derive(Clone, Copy, Debug, PartialEq, Eq)]
pub enum Stop<'a> {
    /// The words are no command.
    Usage,
    /// There is no file of this name.
    Missing(&'a str),
    /// A read failed.
    Unread,
    /// A file has more bytes than its limit, or more values than are grouped.
    TooLong,
    /// The layout is refused.
    LayoutRefused(Refusal),
    /// The query or the path is refused.
    QueryRefused(Refusal),
    /// So many bytes stand behind the last whole record.
    Ragged(u64),
    /// The script is refused at this line.
    ScriptRefused(u64),
    /// Memory ran out.
    Memory,
}

impl Stop<'_> {
    ghost use Rattle.fm_top.specs.Ending.{told};

    /// The status that tells it.
    pub fn status(self) -> Status
        ensures { result ≡ (told self.entry).status }
    {
        match self {
            Stop::Usage => Status::Usage,
            Stop::Missing(_) => Status::Missing,
            Stop::Unread => Status::Unread,
            Stop::TooLong => Status::TooLong,
            Stop::LayoutRefused(_) => Status::LayoutRefused,
            Stop::QueryRefused(_) => Status::QueryRefused,
            Stop::Ragged(_) => Status::Ragged,
            Stop::ScriptRefused(_) => Status::ScriptRefused,
            Stop::Memory => Status::NoMemory,
        }
    }
}

impl From<AllocError> for Stop<'_> {
    ghost from_gives = { λ _ e. e ≡ Memory };

    fn from(_: AllocError) -> Self {
        Stop::Memory
    }
}
