use fm_base::Refusal;

/// Why a file wasn't loaded.
#[derive(Clone, Copy, Debug, PartialEq, Eq)]
pub enum LoadFault {
    /// There is no file of that name.
    Missing,
    /// A read failed.
    Failed,
    /// The file has more bytes than the limit.
    TooLong,
    /// So many bytes stand behind the last whole record.
    Ragged(u64),
    /// Memory ran out.
    Memory,
    /// The arena refused room for the file, or was closed.
    Refused(Refusal),
}
