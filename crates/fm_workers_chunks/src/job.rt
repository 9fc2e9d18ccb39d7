use crate::chunk::Chunk;

/// What a worker takes.
#[derive(Drop)]
pub enum Job {
    Serve(Chunk),
    /// It ends here.
    Stop,
}
