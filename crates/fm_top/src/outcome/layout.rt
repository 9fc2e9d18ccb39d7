ghost use Rattle.std.specs.Prelude.{⊤, None};
ghost use Rattle.fm_top.specs.Ends.{EndsFile};
ghost use Rattle.fm_top.specs.Run.{EndsBy};
ghost use Rattle.fm_top.specs.Words.{Layout};

use crate::command::LayoutCommand;
use crate::outcome::layout_printed::text_of_layout;
use crate::outcome::left::Left;
use crate::outcome::reply::Reply;
use crate::outcome::stop::Stop;
use crate::outcome::stopping::{of_file, of_layout};
use fm_io::Files;
use fm_ljson::layout_from_json;
use fm_top_load::{LAYOUT_FILE_LIMIT, read_whole};
use std::alloc::Global;

/// Reads the file of a layout, and answers with the layout's text.
pub fn layout_reply<'a, F: Files>(
    alloc: Global,
    files: &mut F,
    command: &LayoutCommand<'a>,
) -> Result<Reply, Stop<'a>>
    ensures { EndsFile command.now.file.now LAYOUT_FILE_LIMIT ⊤
        (λ found. EndsBy (Layout command.now.text command.now.file.now) found None)
        (F.view files.old)
        (F.view files.new) result }
{
    let bytes = read_whole(alloc, files, command.file, LAYOUT_FILE_LIMIT);
    let bytes = of_file(command.file, bytes)?;
    let layout = of_layout(layout_from_json(alloc, &bytes))?;
    Ok(Reply {
        text: text_of_layout(alloc, command.text, &layout)?,
        left: Left::Nothing,
    })
}
