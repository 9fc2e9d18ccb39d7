ghost use Rattle.std.specs.Prelude.{◌≡◌, IfSome, IfNone, List, ℕ};
ghost use Rattle.fm_top_options.specs.Options.{texts};
ghost use Rattle.fm_top.specs.Words.{IsLayout, layout_word};

use crate::command::file_words::file_words;
use crate::command::layout_text::LayoutText;

/// `layout FILE` or `migrate FILE`: what stands where in the layout that the file has, or its JSON.
#[derive(Clone, Copy)]
pub struct LayoutCommand<'a> {
    pub text: LayoutText,
    pub file: &'a str,
}

/// What the words ask of a layout by this command, which is that for this text.
pub fn layout_words<'a>(
    words: &'a [String],
    command: &str,
    text: LayoutText,
) -> Option<LayoutCommand<'a>>
    requires { command.now ≡ layout_word text }
    ensures found { IfSome result (λ command.
        IsLayout (texts words.now) command.text command.file.now) }
    ensures none { IfNone result ((file : List ℕ) → IsLayout (texts words.now) text file → ⊥) }
{
    match file_words(words, command) {
        Some(file) => Some(LayoutCommand { text, file }),
        None => None,
    }
}
