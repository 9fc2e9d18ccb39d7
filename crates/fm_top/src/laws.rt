ghost use Rattle.fm_top.specs.Laws.{HaveOneOutcome};

/// Over files that tell, words have one outcome, also where they are refused.
pub fn words_have_one_outcome()
    ensures { HaveOneOutcome }
{}
