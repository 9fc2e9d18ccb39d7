ghost use Rattle.fm_script_text.specs.Laws.{EachTextHasOneAnswer};

/// A text spells one script at most, is refused at one line at most, and never both.
pub fn each_text_has_one_answer()
    ensures { EachTextHasOneAnswer }
{}
