ghost use Rattle.std.specs.Prelude.{◌≡◌, ◌∷◌, [], IfOk, IfSome, IfNone, ℕ};
ghost use Rattle.std.specs.Fmt.{decimal};
ghost use Rattle.fm_top_options.specs.Options.{lent, texts};
ghost use Rattle.fm_top.specs.Words.{IsCount, IsDemo};

use crate::command::number::number_up_to;
use crate::command::threaded::{Threaded, threaded_words};
use fm_top_demo::MOST_RECORDS;
use std::alloc::{AllocError, Global};

/// `demo [--threads N] COUNT`: what two queries answer over so many records that are made.
#[derive(Clone, Copy)]
pub struct DemoCommand {
    pub threads: u64,
    pub count: u64,
}

/// The demonstration that the words ask for.
pub fn demo_words(alloc: Global, words: &[String]) -> Result<Option<DemoCommand>, AllocError>
    ensures found { IfOk result (λ found.
        IfSome found (λ demo. IsDemo (texts words.now) demo.threads demo.count)) }
    ensures none { IfOk result (λ found. IfNone found ((threads count : ℕ) →
        IsDemo (texts words.now) threads count → ⊥)) }
{
    match threaded_words(alloc, words, "demo")? {
        Some(said) => Ok(demo_by(&said)),
        None => Ok(None),
    }
}

/// The same of what the words say.
fn demo_by(said: &Threaded<'_>) -> Option<DemoCommand>
    ensures found { IfSome result (λ demo. (demo.threads ≡ said.now.threads) × IsCount demo.count
        × (lent said.now.words.items ≡ decimal demo.count ∷ [])) }
    ensures none { IfNone result ((count : ℕ) → IsCount count →
        lent said.now.words.items ≡ decimal count ∷ [] → ⊥) }
{
    let [count] = said.words.as_slice() else {
        return None;
    };
    match number_up_to(count, u64::from(MOST_RECORDS)) {
        Some(count) => Some(DemoCommand {
            threads: said.threads,
            count,
        }),
        None => None,
    }
}
