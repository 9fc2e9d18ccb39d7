ghost use Rattle.std.specs.Prelude.{◌≡◌, IfOk};
ghost use Rattle.fm_ljson_write.specs.Canonical.{document_text};
ghost use Rattle.fm_top.specs.Ending.{text_of};
ghost use Rattle.fm_top.specs.Outcome.{line, printed};

use crate::command::LayoutText;
use crate::outcome::output::Output;
use fm_layout::Layout;
use fm_ljson_write::layout_to_json2;
use fm_path::list_places;
use std::alloc::{AllocError, Global};

/// What is printed of a layout.
pub fn text_of_layout(
    alloc: Global,
    text: LayoutText,
    layout: &Layout,
) -> Result<Output, AllocError>
    ensures { IfOk result (λ printed_text. text_of printed_text ≡ printed text layout.now) }
{
    match text {
        LayoutText::Places => match list_places(alloc, layout) {
            Ok(text) => Ok(Output::Whole(text)),
            // It is refused for want of memory alone.
            Err(_) => Err(AllocError),
        },
        LayoutText::Json => json_line(alloc, layout),
    }
}

/// The JSON of a layout, as a line.
fn json_line(alloc: Global, layout: &Layout) -> Result<Output, AllocError>
    ensures { IfOk result (λ text. text_of text ≡ line (document_text layout.now)) }
{
    // It is refused for want of memory alone.
    let Ok(mut bytes) = layout_to_json2(alloc, layout) else {
        return Err(AllocError);
    };
    bytes.push(b'\n')?;
    Ok(Output::Bytes(bytes))
}
