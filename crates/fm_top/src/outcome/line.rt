ghost use Rattle.std.specs.Prelude.{◌≡◌, ◌++◌, IfOk, string_bytes};
ghost use Rattle.fm_top.specs.Outcome.{line};

use std::alloc::{AllocError, Global};

/// The line of a label and what stands behind it.
pub fn text_line(alloc: Global, label: &str, rest: &str) -> Result<String, AllocError>
    ensures { IfOk result (λ text. string_bytes text ≡ line (label.now ++ rest.now)) }
{
    let mut text = String::from_str(alloc, label)?;
    text.push_str(rest)?;
    text.push('\n')?;
    Ok(text)
}
