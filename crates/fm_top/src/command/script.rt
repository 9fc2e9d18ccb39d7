ghost use Rattle.std.specs.Prelude.{IfSome, IfNone, List, ℕ};
ghost use Rattle.fm_top_options.specs.Options.{texts};
ghost use Rattle.fm_top.specs.Words.{IsRun};

use crate::command::file_words::file_words;

/// `run FILE`: what the script of the file does.
#[derive(Clone, Copy)]
pub struct RunCommand<'a> {
    pub file: &'a str,
}

/// The script that the words ask for, if they do.
pub fn script_words(words: &[String]) -> Option<RunCommand<'_>>
    ensures found { IfSome result (λ command. IsRun (texts words.now) command.file.now) }
    ensures none { IfNone result ((file : List ℕ) → IsRun (texts words.now) file → ⊥) }
{
    match file_words(words, "run") {
        Some(file) => Some(RunCommand { file }),
        None => None,
    }
}
