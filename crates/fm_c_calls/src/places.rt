ghost use Rattle.fm_c_calls.specs.Reading.{Lists};

use crate::output::put_front;
use crate::reading::read_layout;
use fm_base::Refusal;
use fm_path::list_places;
use std::alloc::Global;

/// Puts the text that lists the places of the layout whose JSON the bytes are, as `fmem layout` prints it.
///
/// Refused: as `layout_from_json` of `fm_ljson`; `Memory`. A refused call puts nothing.
pub fn list(alloc: Global, json: &[u8], out: &mut [u8]) -> Result<u64, Refusal>
    ensures { Lists json.now out.old out.new result }
{
    let layout = read_layout(alloc, json)?;
    let text = list_places(alloc, &layout)?;
    Ok(put_front(out, text.as_str().as_bytes()))
}
