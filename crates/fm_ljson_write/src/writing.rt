ghost use Rattle.std.specs.Prelude.{◌≡◌, IfOk, IfErr};
ghost use Rattle.serde_json.specs.View.{view};
ghost use Rattle.serde_json.specs.Written.{compact_text};
ghost use Rattle.fm_ljson_write.specs.Canonical.{canonical_text, document_text, StandsFor};
ghost use Rattle.fm_ljson_write.specs.Limits.{ReadsAs};

use crate::canonical::{document_json, json_of};
use fm_base::Refusal;
use fm_layout::Layout;
use serde_json::Value;
use std::alloc::{AllocError, Global};

/// The canonical text of the layout, as UTF-8. Refused: `Memory`.
///
/// It reads as an equal layout where that has at most 40 levels and 65,536 layouts in it, and no sequence of more than
/// 2^40 elements, which one whose elements have no bytes may have.
pub fn layout_to_json(alloc: Global, layout: &Layout) -> Result<Vec<u8>, Refusal>
    ensures text { IfOk result (λ bytes. bytes.items ≡ canonical_text layout.now) }
    ensures reads_back { IfOk result (λ bytes. ReadsAs layout.now bytes.items) }
    ensures memory { IfErr result (λ refusal. refusal ≡ Refusal.Memory) }
{
    Ok(text_of(alloc, layout, &json_of(alloc, layout)?)?)
}

/// The text in the version that may name types: it names none, and has the canonical text of the layout. Refused:
/// `Memory`.
///
/// It reads as an equal layout where that of `layout_to_json` does.
pub fn layout_to_json2(alloc: Global, layout: &Layout) -> Result<Vec<u8>, Refusal>
    ensures text { IfOk result (λ bytes. bytes.items ≡ document_text layout.now) }
    ensures reads_back { IfOk result (λ bytes. ReadsAs layout.now bytes.items) }
    ensures memory { IfErr result (λ refusal. refusal ≡ Refusal.Memory) }
{
    Ok(text_of(alloc, layout, &document_json(alloc, layout)?)?)
}

/// The compact text of a value that stands for the layout.
fn text_of(alloc: Global, layout: &Layout, json: &Value) -> Result<Vec<u8>, AllocError>
    requires { StandsFor (view json.now) layout.now }
    ensures text { IfOk result (λ bytes. bytes.items ≡ compact_text (view json.now)) }
    ensures reads_back { IfOk result (λ bytes. ReadsAs layout.now bytes.items) }
{
    let _size = layout.size();
    Ok(json.to_vec(alloc)?)
}
