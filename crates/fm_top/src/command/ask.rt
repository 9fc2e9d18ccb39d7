ghost use Rattle.std.specs.Prelude.{◌≡◌, IfOk, IfSome, IfNone, List, ℕ};
ghost use Rattle.fm_top_options.specs.Options.{lent, texts};
ghost use Rattle.fm_top.specs.Words.{IsAsk, question_word, three};
ghost use Rattle.fm_top.specs.declared.command.wish.Wish.TheVariants as wish;

use crate::command::question::Question;
use crate::command::threaded::{Threaded, threaded_words};
use crate::command::wish::Wish;
use std::alloc::{AllocError, Global};

/// `query [--threads N] LAYOUT QUERY FILE`, `stream` with the same words, `tally [--threads N] LAYOUT PATH FILE`, `group`
/// with the same words, or `texts LAYOUT PATH FILE`: what this text asks of the records of the file, by the layout that its
/// file has.
#[derive(Clone, Copy)]
pub struct AskCommand<'a> {
    pub wish: Wish,
    pub layout: &'a str,
    pub text: &'a str,
    pub file: &'a str,
}

/// What the words ask of records by this question, whose command is this.
pub fn ask_words<'a>(
    alloc: Global,
    words: &'a [String],
    command: &str,
    question: Question,
) -> Result<Option<AskCommand<'a>>, AllocError>
    requires { command.now ≡ question_word question }
    ensures found { IfOk result (λ found. IfSome found (λ ask.
        IsAsk (texts words.now) ask.wish ask.layout.now ask.text.now ask.file.now)) }
    ensures none { IfOk result (λ found. IfNone found ((threads : ℕ) (layout text file : List ℕ) →
        IsAsk (texts words.now) (wish.Answer question threads) layout text file → ⊥)) }
{
    match threaded_words(alloc, words, command)? {
        Some(said) => Ok(ask_by(Wish::Answer(question, said.threads), &said)),
        None => Ok(None),
    }
}

/// What the words ask of records by `group`.
pub fn group_words<'a>(
    alloc: Global,
    words: &'a [String],
) -> Result<Option<AskCommand<'a>>, AllocError>
    ensures found { IfOk result (λ found. IfSome found (λ ask.
        IsAsk (texts words.now) ask.wish ask.layout.now ask.text.now ask.file.now)) }
    ensures none { IfOk result (λ found. IfNone found ((threads : ℕ) (layout text file : List ℕ) →
        IsAsk (texts words.now) (wish.Group threads) layout text file → ⊥)) }
{
    match threaded_words(alloc, words, "group")? {
        Some(said) => Ok(ask_by(Wish::Group(said.threads), &said)),
        None => Ok(None),
    }
}

/// What the words that say this ask of records by this wish.
fn ask_by<'a>(wish: Wish, said: &Threaded<'a>) -> Option<AskCommand<'a>>
    ensures found { IfSome result (λ ask.
        (ask.wish ≡ wish)
        × (lent said.now.words.items ≡ three ask.layout.now ask.text.now ask.file.now)) }
    ensures none { IfNone result ((layout text file : List ℕ) →
        lent said.now.words.items ≡ three layout text file → ⊥) }
{
    let [layout, text, file] = said.words.as_slice() else {
        return None;
    };
    Some(AskCommand {
        wish,
        layout: *layout,
        text: *text,
        file: *file,
    })
}
