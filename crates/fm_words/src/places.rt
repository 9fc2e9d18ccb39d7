use crate::shape::Shape;

/// The words before the marks: front, draw and slot bits.
const SINGLE_WORDS: u64 = 3;

/// From one mark to the next: a cache line, since each pass stores its mark at each visit.
const MARK_WORDS: u64 = 8;

/// Places of words in the table, from 0. It has the single words first, then a mark for each pass with seven words behind
/// it that nobody uses, a session for each slot, a count of given bytes for each slot, the map words of each slot, and the pages, one after another; then the
/// words of page bits, the words of number bits, and last a term for each number.
///
/// What a visit looks at comes first, since its places are computed at each visit.
impl Shape {
    ghost use Rattle.std.specs.Prelude.{◌≡◌};
    ghost use Rattle.fm_words.specs.Shapes.{IsValid};
    ghost use Rattle.fm_words.specs.Places.{
      IsPlace,
      at,
      draw,
      front,
      given,
      map,
      mark,
      page_bits,
      page_word,
      session,
      slot_bits,
      number_bits,
      term,
      words,
      page_groups,
      groups,
      sessions_from,
      given_from,
      maps_from,
      pages_from,
      page_bits_from,
      numbers_from,
      terms_from,
    };

    /// How many words the table has.
    pub fn words(&self) -> u64
        requires { IsValid self.now }
        ensures { result ≡ words self.now }
    {
        self.terms_from() + u64::from(self.passes)
    }

    /// The place of the front word, which is always 0.
    pub fn front_place(&self) -> u64
        ensures { result ≡ at self.now front }
    {
        0
    }

    /// The place of the count of drawn pass numbers.
    pub fn draw_place(&self) -> u64
        ensures { result ≡ at self.now draw }
    {
        1
    }

    /// The place of the word whose bit k is 1 where slot k can be taken.
    pub fn slot_bits_place(&self) -> u64
        ensures { result ≡ at self.now slot_bits }
    {
        2
    }

    /// How many words of page bits there are.
    pub fn page_groups(&self) -> u32
        requires { IsValid self.now }
        ensures { result ≡ page_groups self.now }
    {
        (self.pages + 63) / 64
    }

    /// The place of the word whose bit k is 1 where the page `64 * group + k` can be claimed.
    pub fn page_bits_place(&self, group: u32) -> u64
        requires valid { IsValid self.now }
        requires place { IsPlace self.now (page_bits group) }
        ensures { result ≡ at self.now (page_bits group) }
    {
        self.page_bits_from() + u64::from(group)
    }

    /// The place of a pass's mark.
    pub fn mark_place(&self, pass: u32) -> u64
        requires { IsPlace self.now (mark pass) }
        ensures { result ≡ at self.now (mark pass) }
    {
        SINGLE_WORDS + MARK_WORDS * u64::from(pass)
    }

    /// The place of a slot's session.
    pub fn session_place(&self, slot: u32) -> u64
        requires { IsPlace self.now (session slot) }
        ensures { result ≡ at self.now (session slot) }
    {
        self.sessions_from() + u64::from(slot)
    }

    /// The place of the count of bytes that the arena in a slot has given.
    pub fn given_place(&self, slot: u32) -> u64
        requires { IsPlace self.now (given slot) }
        ensures { result ≡ at self.now (given slot) }
    {
        self.given_from() + u64::from(slot)
    }

    /// The place of a slot's map word of this part.
    pub fn map_place(&self, slot: u32, index: u32) -> u64
        requires valid { IsValid self.now }
        requires place { IsPlace self.now (map slot index) }
        ensures { result ≡ at self.now (map slot index) }
    {
        self.maps_from() + u64::from(slot) * u64::from(self.reach) + u64::from(index)
    }

    /// How many words of number bits there are.
    pub fn groups(&self) -> u32
        requires { IsValid self.now }
        ensures { result ≡ groups self.now }
    {
        (self.passes + 63) / 64
    }

    /// The place of the word whose bit k is 1 where the number `64 * group + k` can be drawn.
    pub fn number_bits_place(&self, group: u32) -> u64
        requires valid { IsValid self.now }
        requires place { IsPlace self.now (number_bits group) }
        ensures { result ≡ at self.now (number_bits group) }
    {
        self.numbers_from() + u64::from(group)
    }

    /// The place of a number's term.
    pub fn term_place(&self, number: u32) -> u64
        requires valid { IsValid self.now }
        requires place { IsPlace self.now (term number) }
        ensures { result ≡ at self.now (term number) }
    {
        self.terms_from() + u64::from(number)
    }

    /// The place of a word of a page.
    pub fn page_place(&self, page: u32, word: u32) -> u64
        requires valid { IsValid self.now }
        requires place { IsPlace self.now (page_word page word) }
        ensures { result ≡ at self.now (page_word page word) }
    {
        self.pages_from() + u64::from(page) * u64::from(self.page_words) + u64::from(word)
    }

    fn sessions_from(&self) -> u64
        ensures { result ≡ sessions_from self.now }
    {
        SINGLE_WORDS + MARK_WORDS * u64::from(self.passes)
    }

    fn given_from(&self) -> u64
        ensures { result ≡ given_from self.now }
    {
        self.sessions_from() + u64::from(self.slots)
    }

    fn maps_from(&self) -> u64
        ensures { result ≡ maps_from self.now }
    {
        self.given_from() + u64::from(self.slots)
    }

    fn pages_from(&self) -> u64
        requires { IsValid self.now }
        ensures { result ≡ pages_from self.now }
    {
        self.maps_from() + u64::from(self.slots) * u64::from(self.reach)
    }

    fn page_bits_from(&self) -> u64
        requires { IsValid self.now }
        ensures { result ≡ page_bits_from self.now }
    {
        self.pages_from() + u64::from(self.pages) * u64::from(self.page_words)
    }

    fn numbers_from(&self) -> u64
        requires { IsValid self.now }
        ensures { result ≡ numbers_from self.now }
    {
        self.page_bits_from() + u64::from(self.page_groups())
    }

    fn terms_from(&self) -> u64
        requires { IsValid self.now }
        ensures { result ≡ terms_from self.now }
    {
        self.numbers_from() + u64::from(self.groups())
    }
}
