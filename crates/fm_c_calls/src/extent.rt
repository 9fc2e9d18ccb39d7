ghost use Rattle.fm_c_calls.specs.Reading.{Measures};

use crate::reading::read_layout;
use fm_base::Refusal;
use std::alloc::Global;

/// How long a layout is and how it is aligned, in bytes.
#[repr(C)]
#[derive(Clone, Copy, Debug, PartialEq, Eq)]
pub struct Extent {
    pub size: u64,
    pub alignment: u64,
}

/// Puts how long the layout is whose JSON the bytes are, and how it is aligned.
///
/// Refused: as `layout_from_json` of `fm_ljson`. A refused call puts nothing.
pub fn measure(alloc: Global, json: &[u8], extent: &mut Extent) -> Result<u64, Refusal>
    ensures { Measures json.now extent.old extent.new result }
{
    let layout = read_layout(alloc, json)?;
    *extent = Extent {
        size: layout.size(),
        alignment: layout.alignment(),
    };
    Ok(0)
}
