//! What a run comes to, up to the writing: a file for each command's answer, and one for each part of an end.

ghost use Rattle.std.specs.Prelude.{◌≡◌};
ghost use Rattle.fm_top_options.specs.Options.{texts};
ghost use Rattle.fm_top.specs.Asked.{request_of};
ghost use Rattle.fm_top.specs.Ends.{EndsRequest, EndsWords};
ghost use Rattle.fm_top.specs.Words.{AreFaulty, CanBeAsked};

mod answered;
mod ask;
mod demo;
mod demo_layout;
mod group;
mod host;
mod kept;
mod layout;
mod layout_printed;
mod left;
mod line;
mod output;
mod plan;
mod pool;
mod printing;
mod reply;
mod script;
mod status;
mod stop;
mod stopping;
mod sum;
mod sum_values;
mod telling;
mod texts;

use crate::command::{Subcommand, command_of};
use crate::outcome::ask::ask_reply;
use crate::outcome::demo::demo_reply;
use crate::outcome::layout::layout_reply;
use crate::outcome::reply::Reply;
use crate::outcome::script::script_reply;
use crate::outcome::stop::Stop;
use crate::outcome::sum::sum_reply;
use fm_io::{Files, Gate};
pub use host::Host;
pub use kept::Kept;
pub use printing::print_end;
pub use script::SCRIPT_FILE_LIMIT;
pub use status::Status;
use std::alloc::AllocGlobal;
use std::random::RandomSource;
use std::sync::Wait;
use std::thread::Threads;

/// What the run of these words comes to. Words that are no command read no file.
pub fn reply_of<'a, R, F: Files, G: Gate>(
    host: &Host<'_, R, G>,
    files: &mut F,
    words: &'a [String],
) -> Result<Reply, Stop<'a>>
where
    R: Threads + Wait + Sync + RandomSource + AllocGlobal,
    ensures ends { EndsWords (texts words.now)
        (F.view files.old)
        (F.view files.new) result }
    ensures reads_nothing { AreFaulty (texts words.now) → files.new ≡ files.old }
{
    match command_of(host.alloc, words)? {
        Some(command) => command_reply(host, files, &command),
        None => Err(Stop::Usage),
    }
}

/// Does what the command asks for, up to the writing.
fn command_reply<'a, R, F: Files, G: Gate>(
    host: &Host<'_, R, G>,
    files: &mut F,
    command: &Subcommand<'a>,
) -> Result<Reply, Stop<'a>>
where
    R: Threads + Wait + Sync + RandomSource + AllocGlobal,
    requires { CanBeAsked (request_of command.now) }
    ensures { EndsRequest (request_of command.now)
        (F.view files.old)
        (F.view files.new) result }
{
    match command {
        Subcommand::Sum(sum) => sum_reply(host, files, sum),
        Subcommand::Layout(layout) => layout_reply(host.alloc, files, layout),
        Subcommand::Ask(ask) => ask_reply(host, files, ask),
        Subcommand::Demo(demo) => Ok(demo_reply(host, demo)?),
        Subcommand::Run(run) => script_reply(host, files, run.file),
    }
}
