ghost use Rattle.std.specs.Prelude.{IfOk, IfErr};
ghost use Rattle.fm_path_text.specs.Grammar.{IsTextOf, IsNoPath};

use crate::part::{Move, Part};
use crate::sign::Sign;
use crate::step::PathStep;
use fm_base::Refusal;
use std::alloc::Global;

/// The path that this text spells: `.` alone is the layout itself; else up to 64 pieces without spaces, each
/// `.NAME`, `.#N`, `[N]`, `[]` or `[F:S]`, with numbers up to 2^40.
///
/// Refused: `BadQuery` with the length in bytes of the longest prefix that begins some path's text, where the
/// text is none; `Memory`.
pub fn parse_path(alloc: Global, text: &str) -> Result<Vec<PathStep>, Refusal>
    ensures path { IfOk result (λ path. IsTextOf text.now path.items) }
    ensures refused { IfErr result (IsNoPath text.now) }
{
    let mut path = Vec::new(alloc);
    let mut part = Part::Between;
    for (at, byte) in text.as_bytes().iter().enumerate() {
        match part.next(path.len(), Sign::of(*byte)) {
            Move::Dead => return Err(Refusal::BadQuery(at as u64)),
            Move::Stay(to) => part = to,
            Move::Finish(step, to) => {
                let Ok(()) = path.push(step) else {
                    return Err(Refusal::Memory);
                };
                part = to;
            }
        }
    }
    match part.finish(path)? {
        Some(path) => Ok(path),
        None => Err(Refusal::BadQuery(text.len() as u64)),
    }
}
