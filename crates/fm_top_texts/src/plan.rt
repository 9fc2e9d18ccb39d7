ghost use Rattle.std.specs.Prelude.{◌≡◌, ◌≢◌, IfErr, IfOk};
ghost use Rattle.fm_top_texts.specs.Plans.{bytes_in, is_byte, IsTextPlanned, IsTextUnplanned, LiesWithin};

use fm_base::Refusal;
use fm_lanes::ValueKind;
use fm_layout::{Form, Layout};
use fm_path::{locate, parse_path};
use std::alloc::Global;

/// Where the texts of records stand: records of `size` bytes have one each in `count` bytes, `offset` bytes from the
/// record's start.
#[derive(Clone, Copy, Debug, PartialEq, Eq)]
pub struct TextPlan {
    pub size: u64,
    pub offset: u64,
    pub count: u64,
}

/// Where the text stands that a path comes to in records of this layout.
///
/// Refused: as `parse_path`; as `byte_offset`; then `Unsupported` where the path ends at no sequence of byte values. A
/// boolean is no byte. `Memory` may come before the layout is looked at.
pub fn plan_texts(alloc: Global, layout: &Layout, path: &str) -> Result<TextPlan, Refusal>
    ensures planned { IfOk result (IsTextPlanned path.now layout.now) }
    ensures within { IfOk result LiesWithin }
    ensures refused { IfErr result (λ e. e ≢ Refusal.Memory → IsTextUnplanned path.now layout.now e) }
{
    let path = parse_path(alloc, path)?;
    let (offset, end) = locate(layout, &path)?;
    match byte_count(end) {
        Some(count) => Ok(TextPlan {
            size: layout.size(),
            offset,
            count,
        }),
        None => Err(Refusal::Unsupported),
    }
}

/// How many byte values this is a sequence of; `None` exactly where it is none of them.
fn byte_count(layout: &Layout) -> Option<u64>
    ensures { result ≡ bytes_in layout.now }
{
    match (layout.form(), layout.element()) {
        (Form::Sequence(count), Some(element)) if is_byte(element) => Some(count),
        _ => None,
    }
}

fn is_byte(layout: &Layout) -> bool
    ensures { result ≡ is_byte layout.now }
{
    matches!(layout.form(), Form::Value(ValueKind::Byte, _))
}
