ghost use Rattle.fm_words.specs.Places.{EveryWordHasOnePlace};

/// Every word of a table is that of one place: places lie within the table, no two at the same word, and no word is
/// without a place.
pub fn every_word_has_one_place()
    ensures { EveryWordHasOnePlace }
{}
