ghost use Rattle.std.specs.Prelude.{⊤, None};
ghost use Rattle.fm_top.specs.Ends.{EndsFile};
ghost use Rattle.fm_top.specs.Run.{EndsBy};
ghost use Rattle.fm_top.specs.Words.{HasValue, Sum};

use crate::command::SumCommand;
use crate::outcome::host::Host;
use crate::outcome::left::Left;
use crate::outcome::line::text_line;
use crate::outcome::output::Output;
use crate::outcome::reply::Reply;
use crate::outcome::stop::Stop;
use crate::outcome::stopping::of_file;
use crate::outcome::sum_values::sum_values;
use fm_io::{Files, Gate};
use fm_top_load::{RECORD_FILE_LIMIT, load};
use itoa::Buffer;
use std::sync::Wait;

/// Reads the file of a sum, and answers with it.
pub fn sum_reply<'a, R: Wait, F: Files, G: Gate>(
    host: &Host<'_, R, G>,
    files: &mut F,
    sum: &SumCommand<'a>,
) -> Result<Reply, Stop<'a>>
    requires { HasValue sum.now.size sum.now.at sum.now.kind }
    ensures { EndsFile sum.now.file.now RECORD_FILE_LIMIT ⊤
        (λ found. EndsBy (Sum sum.now.size sum.now.at sum.now.kind sum.now.file.now) found None)
        (F.view files.old)
        (F.view files.new) result }
{
    let loaded = load(host.rt, host.alloc, files, sum.file, sum.size);
    let mut loaded = of_file(sum.file, loaded)?;
    let sum = sum_values(&mut loaded, sum.size, sum.at, sum.kind);
    let text = text_line(host.alloc, "sum ", Buffer::new().format(sum))?;
    Ok(Reply {
        text: Output::Whole(text),
        left: Left::Nothing,
    })
}
