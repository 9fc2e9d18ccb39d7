use fm_workers_chunks::Chunk;

/// A chunk that was put, and whether the file ends with it.
#[derive(Drop)]
pub struct Made {
    pub chunk: Chunk,
    pub ended: bool,
}
