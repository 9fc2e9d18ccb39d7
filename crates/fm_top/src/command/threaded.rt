ghost use Rattle.std.specs.Prelude.{◌≡◌, IfOk, IfSome, IfNone, List, ℕ};
ghost use Rattle.fm_top_options.specs.Options.{lent, lent_one, texts};
ghost use Rattle.fm_top.specs.Words.{AreThreadsBy, IsThreaded};

use crate::command::threads::threads_by;
use fm_top_options::{Options, options_of};
use std::alloc::{AllocError, Global};

/// What the words of a command with threads say: how many, and the words besides, which stand in their order.
#[derive(Drop)]
pub struct Threaded<'a> {
    pub threads: u64,
    pub words: Vec<&'a str>,
}

/// What the words say, if they are those of this command.
pub fn threaded_words<'a>(
    alloc: Global,
    words: &'a [String],
    command: &str,
) -> Result<Option<Threaded<'a>>, AllocError>
    ensures found { IfOk result (λ found. IfSome found (λ said.
        IsThreaded (texts words.now) command.now said.threads (lent said.words.items))) }
    ensures none { IfOk result (λ found. IfNone found ((threads : ℕ) (names : List (List ℕ)) →
        IsThreaded (texts words.now) command.now threads names → ⊥)) }
{
    let [first, behind @ ..] = words else {
        return Ok(None);
    };
    if first.as_str() != command {
        return Ok(None);
    }
    match options_of(alloc, behind)? {
        Some(options) => Ok(threaded_by(options)),
        None => Ok(None),
    }
}

/// The same of the words behind the command, if so many threads may be asked for.
fn threaded_by<'a>(options: Options<'a>) -> Option<Threaded<'a>>
    ensures found { IfSome result (λ said.
        AreThreadsBy (lent_one options.entry.threads) said.threads
        × (lent said.words.items ≡ lent options.entry.words.items)) }
    ensures none { IfNone result ((threads : ℕ) →
        AreThreadsBy (lent_one options.entry.threads) threads → ⊥) }
{
    let Options { threads, words } = options;
    match threads_by(threads) {
        Some(threads) => Some(Threaded { threads, words }),
        None => None,
    }
}
