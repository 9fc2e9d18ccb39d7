ghost use Rattle.std.specs.Prelude.{◌≡◌};
ghost use Rattle.fm_records_query.specs.Reader.{word_text};

use crate::fold::Fold;

/// The word that begins an item.
#[derive(Clone, Copy)]
pub enum Word {
    Counting,
    Folding(Fold),
}

impl Word {
    /// The word, with the bracket behind it if it has one.
    pub fn text(self) -> &'static str
        ensures { result.now ≡ word_text self }
    {
        match self {
            Word::Counting => "count",
            Word::Folding(Fold::Sum) => "sum(",
            Word::Folding(Fold::Least) => "min(",
            Word::Folding(Fold::Greatest) => "max(",
            Word::Folding(Fold::All) => "list(",
        }
    }
}
