/// How far a stretch of a file was read: so many bytes, and whether the file ends with them.
#[derive(Clone, Copy)]
pub struct Reached {
    pub count: u64,
    pub ended: bool,
}
