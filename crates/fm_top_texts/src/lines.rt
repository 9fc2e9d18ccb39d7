ghost use Rattle.std.specs.Prelude.{◌≡◌, ◌≢◌, ◌++◌, codes, Err, OnOk, string_bytes};
ghost use Rattle.fm_base_text.specs.Hex.{hex_text};
ghost use Rattle.fm_top_texts.specs.Lines.{line_text};
ghost use Rattle.fm_text.specs.Texts.{text_bytes};

use fm_base::Refusal;
use fm_base_text::push_bytes;
use std::alloc::AllocError;

/// Adds the line of a text, or of its refusal. Want of memory for the text is one for the line.
pub fn push_line(pending: &mut String, found: Result<String, Refusal>) -> Result<(), AllocError>
    ensures line { OnOk result
        (string_bytes pending.new ≡ string_bytes pending.old ++ line_text (text_bytes found)) }
    ensures known { OnOk result (found ≢ Err Refusal.Memory) }
{
    match found {
        Ok(text) => push_text(pending, &text)?,
        Err(Refusal::Memory) => return Err(AllocError),
        Err(refusal) => write!(pending, "refused {refusal}")?,
    }
    pending.push('\n')
}

fn push_text(pending: &mut String, text: &str) -> Result<(), AllocError>
    ensures { OnOk result
        (string_bytes pending.new ≡ string_bytes pending.old ++ (codes "text" ++ hex_text text.now)) }
{
    pending.push_str("text")?;
    push_bytes(pending, text.as_bytes())
}
