use std::alloc::{AllocError, Global};

/// The words of the vector that is read.
const WORDS: usize = 8_192;

/// Loads words of a vector, so often, and answers them joined by exclusive or; what was found says which is next.
///
/// Word w holds w times `count`, wrapping.
pub fn loads(alloc: Global, count: u64) -> Result<u64, AllocError> {
    let mut words = vec![in alloc; 0_u64; WORDS]?;
    for word in 0..WORDS {
        words[word] = (word as u64).wrapping_mul(count);
    }
    let mut joined: u64 = 0;
    for turn in 0..count {
        joined ^= words[(joined.wrapping_add(turn) % WORDS as u64) as usize];
    }
    Ok(joined)
}
