ghost use Rattle.fm_top_texts.specs.Laws.{BytesHaveOneText, PathsHaveOnePlan, PathsHaveOneRefusal, RefusedPathsHaveNoPlan};

/// Does nothing. What it promises holds of all bytes: they have no other text, and no other reason to have none, than
/// what is printed of them.
pub fn bytes_have_one_text()
    ensures { BytesHaveOneText }
{}

/// Does nothing. What it promises holds of every layout and the text of every path: it comes to one plan, or is refused
/// for one reason.
pub fn paths_have_one_plan()
    ensures plan { PathsHaveOnePlan }
    ensures refusal { PathsHaveOneRefusal }
    ensures apart { RefusedPathsHaveNoPlan }
{}
