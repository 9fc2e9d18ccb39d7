ghost use Rattle.std.specs.Prelude.{IfSome, IfNone, List, ℕ};
ghost use Rattle.fm_top_options.specs.Options.{texts};
ghost use Rattle.fm_top.specs.Words.{IsAsk, IsTexts, four};

use crate::command::ask::AskCommand;
use crate::command::file_words::is_file_word;
use crate::command::wish::Wish;

/// `texts LAYOUT PATH FILE`: the texts that the words ask for, if they do.
pub fn texts_words(words: &[String]) -> Option<AskCommand<'_>>
    ensures found { IfSome result (λ ask.
        IsAsk (texts words.now) ask.wish ask.layout.now ask.text.now ask.file.now) }
    ensures none { IfNone result ((layout path file : List ℕ) →
        IsTexts (texts words.now) layout path file → ⊥) }
{
    let [command, layout, path, file] = words else {
        return None;
    };
    texts_of(command, layout, path, file)
}

/// The same of these four words.
fn texts_of<'a>(
    command: &str,
    layout: &'a str,
    path: &'a str,
    file: &'a str,
) -> Option<AskCommand<'a>>
    ensures found { IfSome result (λ ask. IsAsk (four command.now layout.now path.now file.now)
        ask.wish ask.layout.now ask.text.now ask.file.now) }
    ensures none { IfNone result ((l p f : List ℕ) →
        IsTexts (four command.now layout.now path.now file.now) l p f → ⊥) }
{
    if command != "texts" || !is_file_word(layout) || !is_file_word(file) {
        return None;
    }
    Some(AskCommand {
        wish: Wish::Texts,
        layout,
        text: path,
        file,
    })
}
