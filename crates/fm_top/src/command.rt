//! What the words of a command line ask for: a file for each form of them.

ghost use Rattle.std.specs.Prelude.{IfOk, IfSome, IfNone};
ghost use Rattle.fm_top_options.specs.Options.{texts};
ghost use Rattle.fm_top.specs.Asked.{request_of};
ghost use Rattle.fm_top.specs.Words.{Asks, AreFaulty};

mod ask;
mod demo;
mod file_words;
mod layout;
mod layout_text;
mod number;
mod question;
mod script;
mod sum;
mod texts;
mod threaded;
mod threads;
mod wish;

use crate::command::ask::{ask_words, group_words};
use crate::command::demo::demo_words;
use crate::command::layout::layout_words;
use crate::command::script::script_words;
use crate::command::sum::sum_words;
use crate::command::texts::texts_words;
pub use ask::AskCommand;
pub use demo::DemoCommand;
pub use layout::LayoutCommand;
pub use layout_text::LayoutText;
pub use question::Question;
pub use script::RunCommand;
use std::alloc::{AllocError, Global};
pub use sum::SumCommand;
pub use wish::Wish;

/// What the words ask for.
#[derive(Clone, Copy)]
pub enum Subcommand<'a> {
    Sum(SumCommand<'a>),
    Layout(LayoutCommand<'a>),
    Ask(AskCommand<'a>),
    Demo(DemoCommand),
    Run(RunCommand<'a>),
}

/// What the words ask for, and nothing where they are of no form.
pub fn command_of<'a>(
    alloc: Global,
    words: &'a [String],
) -> Result<Option<Subcommand<'a>>, AllocError>
    ensures found { IfOk result (λ found.
        IfSome found (λ command. Asks (texts words.now) (request_of command))) }
    ensures none { IfOk result (λ found. IfNone found (AreFaulty (texts words.now))) }
{
    if let Some(layout) = layout_words(words, "layout", LayoutText::Places) {
        return Ok(Some(Subcommand::Layout(layout)));
    }
    if let Some(layout) = layout_words(words, "migrate", LayoutText::Json) {
        return Ok(Some(Subcommand::Layout(layout)));
    }
    if let Some(run) = script_words(words) {
        return Ok(Some(Subcommand::Run(run)));
    }
    if let Some(sum) = sum_words(words) {
        return Ok(Some(Subcommand::Sum(sum)));
    }
    if let Some(ask) = texts_words(words) {
        return Ok(Some(Subcommand::Ask(ask)));
    }
    if let Some(ask) = ask_words(alloc, words, "query", Question::Query)? {
        return Ok(Some(Subcommand::Ask(ask)));
    }
    if let Some(ask) = ask_words(alloc, words, "stream", Question::Stream)? {
        return Ok(Some(Subcommand::Ask(ask)));
    }
    if let Some(ask) = ask_words(alloc, words, "tally", Question::Tally)? {
        return Ok(Some(Subcommand::Ask(ask)));
    }
    if let Some(ask) = group_words(alloc, words)? {
        return Ok(Some(Subcommand::Ask(ask)));
    }
    match demo_words(alloc, words)? {
        Some(demo) => Ok(Some(Subcommand::Demo(demo))),
        None => Ok(None),
    }
}
