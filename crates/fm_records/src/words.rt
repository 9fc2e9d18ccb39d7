ghost use Rattle.std.specs.Prelude.{◌≡◌, [], true, false, Some, None};
ghost use Rattle.fm_records.specs.Reads.{CanRead, Fetches, IsWordOf, Sees, or_closed};
ghost use Rattle.fm_records.specs.Words.{found_at, if_new, kept_after};

use fm_base::Memory;
use fm_segment::Segment;
use std::marker::Model;

/// Words that were read, so that they aren't read again.
pub(crate) trait Keep {
    ghost use Rattle.std.specs.Prelude.{List};
    ghost use Rattle.fm_records.specs.Words.{Seen, found_at};

    /// What is kept: words with what was found there, in the order in which they were read.
    ghost kept: { Self → List Seen };

    /// What is kept of these and one more.
    ghost keeps: { List Seen → Seen → List Seen };

    /// What was found at a word, where it is kept.
    fn find(&self, word: u64) -> Option<u64>
        ensures { result ≡ found_at (kept self.now) word };

    /// Keeps one more.
    fn keep(&mut self, word: u64, found: u64)
        ensures { kept self.new ≡ keeps (kept self.old) (word, found) };
}

/// How many words the paths of a query with no open step have at most.
const MOST_WORDS: usize = 64;

/// The words of a record that were read for paths with no open step.
#[derive(Drop)]
pub(crate) struct Kept {
    len: usize,
    words: [(u64, u64); 64],
}

impl Model for Kept {
    ghost use Rattle.std.specs.Prelude.{◌≡◌, ◌≤◌, List, length, take};
    ghost use Rattle.fm_records.specs.Words.{Seen};

    ghost Value = { List Seen };

    ghost view = { λ k. take k.len k.words };

    ghost invariant = { λ k. (length k.words ≡ 64) × (k.len ≤ 64) };
}

impl Kept {
    /// None yet.
    pub(crate) fn none() -> Kept
        ensures { result ≡ [] }
    {
        Kept {
            len: 0,
            words: [(0, 0); 64],
        }
    }

    /// Forgets all.
    pub(crate) fn clear(&mut self)
        ensures { self.new ≡ [] }
    {
        self.len = 0;
    }
}

impl Keep for Kept {
    ghost use Rattle.fm_records.specs.Words.{kept_all};

    ghost kept = { λ k. k };

    ghost keeps = { kept_all };

    #[inline(always)]
    fn find(&self, word: u64) -> Option<u64> {
        for k in 0..self.len {
            let (kept, found) = self.words[k];
            if kept == word {
                return Some(found);
            }
        }
        None
    }

    #[inline(always)]
    fn keep(&mut self, word: u64, found: u64) {
        if self.len < MOST_WORDS {
            self.words[self.len] = (word, found);
            self.len += 1;
        }
    }
}

/// The two words that were read last in a row of values.
#[derive(Clone, Copy, Drop)]
pub(crate) enum Last {
    /// None yet.
    None,
    One(u64, u64),
    /// The last one, and the one before.
    Two(u64, u64, u64, u64),
}

impl Keep for Last {
    ghost use Rattle.fm_records.specs.Words.{kept_last};
    ghost use Rattle.fm_records.specs.Rows.{words_of};

    ghost kept = { words_of };

    ghost keeps = { kept_last };

    #[inline(always)]
    fn find(&self, word: u64) -> Option<u64> {
        match *self {
            Last::None => None,
            Last::One(last, found) => found_if(last == word, found),
            Last::Two(last, found, before, older) => {
                if last == word {
                    Some(found)
                } else {
                    found_if(before == word, older)
                }
            }
        }
    }

    #[inline(always)]
    fn keep(&mut self, word: u64, found: u64) {
        *self = match *self {
            Last::None => Last::One(word, found),
            Last::One(last, older) => Last::Two(word, found, last, older),
            Last::Two(last, older, _, _) => Last::Two(word, found, last, older),
        };
    }
}

/// Nothing: a value that is alone in its record is read once anyway.
#[derive(Drop)]
pub(crate) struct Nothing;

impl Keep for Nothing {
    ghost use Rattle.std.specs.Prelude.{[]};
    ghost use Rattle.fm_records.specs.Words.{kept_none};

    ghost kept = { λ nothing. [] };

    ghost keeps = { kept_none };

    #[inline(always)]
    fn find(&self, word: u64) -> Option<u64> {
        None
    }

    #[inline(always)]
    fn keep(&mut self, word: u64, found: u64) {}
}

fn found_if(is: bool, found: u64) -> Option<u64>
    ensures yes { is ≡ true → result ≡ Some found }
    ensures no { is ≡ false → result ≡ None }
{
    if is { Some(found) } else { None }
}

/// What was found at a word that is known, or is found there in a visit; none where the arena is closed.
#[inline(always)]
pub(crate) fn fetch<M: Memory>(m: &mut M, s: &Segment, word: u64, known: Option<u64>) -> Option<u64>
    requires can { CanRead (M.view m.old) s.now }
    requires word { IsWordOf s.now word }
    ensures { Sees (M.view m.old) (M.view m.new) s.now (Fetches known word) (or_closed result) }
{
    if let Some(found) = known {
        return Some(found);
    }
    match m.enter(s.arena()) {
        Ok(()) => {}
        // The caller may use the arena.
        Err(_) => return None,
    }
    let found = m.load(word);
    m.leave();
    Some(found)
}

/// Keeps a word that wasn't known.
#[inline(always)]
pub(crate) fn learn<K: Keep>(kept: &mut K, word: u64, known: Option<u64>, found: u64)
    ensures { K.kept kept.new ≡ kept_after K.keeps (K.kept kept.old) (if_new known word found) }
{
    if known.is_none() {
        kept.keep(word, found);
    }
}
