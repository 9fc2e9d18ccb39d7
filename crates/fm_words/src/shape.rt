ghost use Rattle.std.specs.Prelude.{◌↔◌, IsTrue};
ghost use Rattle.fm_words.specs.Within.{Within};

const MOST_PASSES: u32 = 4_096;

const MOST_SLOTS: u32 = 64;

const MOST_PAGES: u32 = 4_096;

const MOST_PAGE_WORDS: u32 = 1_048_576;
/// In all pages together: 128 MiB.
const MOST_WORDS: u64 = 16_777_216;

/// How many of everything a pool has. An arena gets at most `reach * page_words * 8` bytes.
#[derive(Clone, Copy, Debug, PartialEq, Eq)]
pub struct Shape {
    /// Passes that can be drawn, with the first: 1 to 4,096.
    pub passes: u32,
    /// Arenas at a time: 1 to 64.
    pub slots: u32,
    /// Pages of memory: 1 to 4,096.
    pub pages: u32,
    /// Words of eight bytes in a page: 1 to 1,048,576.
    pub page_words: u32,
    /// Pages of one arena at most: 1 to `pages`.
    pub reach: u32,
    /// Arenas that one slot can have, one after another: at least 1.
    pub generations: u32,
}

impl Shape {
    ghost use Rattle.std.specs.Prelude.{◌↔◌, IsTrue};
    ghost use Rattle.fm_words.specs.Shapes.{IsValid};

    /// Whether a pool can have this shape: each number lies within its limits, and all pages together have at
    /// most 16,777,216 words.
    pub fn is_valid(&self) -> bool
        ensures { IsTrue result ↔ IsValid self.now }
    {
        is_within(self.passes, MOST_PASSES)
            && is_within(self.slots, MOST_SLOTS)
            && is_within(self.pages, MOST_PAGES)
            && is_within(self.page_words, MOST_PAGE_WORDS)
            && is_within(self.reach, self.pages)
            && is_within(self.generations, u32::MAX)
            && u64::from(self.pages) * u64::from(self.page_words) <= MOST_WORDS
    }
}

fn is_within(n: u32, most: u32) -> bool
    ensures { IsTrue result ↔ Within 1 most n }
{
    1 <= n && n <= most
}
