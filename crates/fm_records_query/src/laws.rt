ghost use Rattle.fm_records_query.specs.Laws.{LayoutsHaveOneRefusal, RefusedTextsHaveNoPlan, TextsHaveOnePlan, TextsHaveOneRefusal};

/// A layout that is none of a record is so for one reason: `check_record` has one refusal to answer.
pub fn layouts_have_one_refusal()
    ensures { LayoutsHaveOneRefusal }
{}

/// Over a layout a text comes to one query.
pub fn texts_have_one_plan()
    ensures { TextsHaveOnePlan }
{}

/// Over a layout a text is refused for one reason: but for want of memory `parse_query` has one refusal to answer.
pub fn texts_have_one_refusal()
    ensures { TextsHaveOneRefusal }
{}

/// A text that is refused, want of memory aside, is no query over that layout.
pub fn refused_texts_have_no_plan()
    ensures { RefusedTextsHaveNoPlan }
{}
