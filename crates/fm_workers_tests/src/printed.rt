use fm_base::Refusal;
use fm_io::SureSink;
use fm_records::{Answer, Query, write_answer};
use std::alloc::Global;

/// An answer's text.
pub(crate) fn printed(alloc: Global, q: &Query, answer: &Answer) -> Result<Vec<u8>, Refusal> {
    let mut out = SureSink::new(alloc);
    match write_answer(alloc, &mut out, q, answer) {
        Ok(()) => Ok(out.written().to_vec(alloc)?),
        Err(_) => Err(Refusal::Memory),
    }
}
