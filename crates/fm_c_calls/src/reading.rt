ghost use Rattle.std.specs.Prelude.{◌≡◌, IfOk, IfErr};
ghost use Rattle.std.specs.Str.{IsUtf8};
ghost use Rattle.fm_c_calls.specs.Reading.{IsLayoutOf, IsNoLayout, IsNoText};

use fm_base::Refusal;
use fm_layout::Layout;
use fm_ljson::layout_from_json;
use std::alloc::Global;

/// The layout whose JSON the bytes are. Refused: as `layout_from_json`.
pub fn read_layout(alloc: Global, json: &[u8]) -> Result<Layout, Refusal>
    ensures layout { IfOk result (IsLayoutOf json.now) }
    ensures refused { IfErr result (IsNoLayout json.now) }
{
    layout_from_json(alloc, json)
}

/// The text that the bytes are. Refused: `NotText` with the length in bytes of the longest front that is UTF-8.
pub fn read_text(bytes: &[u8]) -> Result<&str, Refusal>
    ensures text { IfOk result (λ text. text.now ≡ bytes.now) }
    ensures utf8 { IfOk result (λ text. IsUtf8 text.now) }
    ensures refused { IfErr result (IsNoText bytes.now) }
{
    match std::str::from_utf8(bytes) {
        Ok(text) => Ok(text),
        Err(error) => Err(Refusal::NotText(error.valid_up_to() as u64)),
    }
}
