/// A record file that is to be loaded into a pool, and what its pool has room for.
#[derive(Clone, Copy)]
pub struct RecordFile<'a> {
    pub name: &'a str,
    /// How many bytes a record has.
    pub record_size: u64,
    /// How many bytes the file may have. It saves memory where it is right or too large; what is read doesn't depend on it.
    pub guess: Option<u64>,
    /// How many bytes another arena can have beside that of the records.
    pub beside: u64,
}
