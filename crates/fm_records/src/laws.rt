ghost use Rattle.fm_records.specs.Laws.{NumbersStandAtPlaces, ListsAdmitted, AnswersJoin, LeastIsLeast, GreatestIsGreatest, AnswersAreOfTheQuery, PlacesHaveTheBytes, AnswersOverBytes, ReadsWhatIsAsked, ReadsWordsOnce};
ghost use Rattle.fm_records.specs.Few.{AnswersAreFew, FewCanJoin};
ghost use Rattle.fm_records.specs.Shares.{SparedAreFound, SharesJoin, SharesAnswer, SharesRead};

/// The number of a resolved path at admitted indices is that of the bytes of the place to which following the path
/// comes, in the layout's list of all places.
#[tactic(auto, using(crate::proofs::Standing::number_stands))]
pub fn numbers_stand_at_places()
    ensures { NumbersStandAtPlaces }
{}

/// The lists of indices over which an item's values go are those that its path admits.
#[tactic(auto, using(crate::proofs::Indices::listed_admitted, crate::proofs::Indices::admitted_listed))]
pub fn lists_admitted()
    ensures { ListsAdmitted }
{}

/// The answer over whole records, joined with that over the bytes behind them, is the answer over both.
pub fn answers_join()
    ensures { AnswersJoin }
{}

/// The least of numbers is one of them, and none is below it.
#[tactic(auto, using(crate::proofs::Ends::is_least))]
pub fn least_is_least()
    ensures { LeastIsLeast }
{}

/// The greatest of numbers is one of them, and none is above it.
#[tactic(auto, using(crate::proofs::Ends::is_greatest))]
pub fn greatest_is_greatest()
    ensures { GreatestIsGreatest }
{}

/// The answer over any bytes has what each item asks for.
pub fn answers_are_of_the_query()
    ensures { AnswersAreOfTheQuery }
{}

/// Where an arena has all bytes of a region, those at the region's places are its bytes.
#[tactic(auto, using(crate::proofs::AnsweringBytes::places_have))]
pub fn places_have_the_bytes()
    ensures { PlacesHaveTheBytes }
{}

/// The answer of a query whose Reads found the bytes of one list is that over these bytes.
pub fn answers_over_bytes()
    ensures { AnswersOverBytes }
{}

/// Such a query has read each word of each value that an item asks for in a chosen record.
pub fn reads_what_is_asked()
    ensures { ReadsWhatIsAsked }
{}

/// Where no path of a query has an open step, no word of a record is read twice.
pub fn reads_words_once()
    ensures { ReadsWordsOnce }
{}

/// An answer over a segment comes from no more numbers than the segment has bytes.
pub fn answers_are_few()
    ensures { AnswersAreFew }
{}

/// Answers of one query that come from so few numbers can be joined.
#[tactic(auto, using(crate::proofs::Few::few_join))]
pub fn few_can_join()
    ensures { FewCanJoin }
{}

// ---- shares of a segment, each answered by the Reads of one caller

/// Each Read of a caller finds the bytes of a region that all entries spare.
pub fn spared_are_found()
    ensures { SparedAreFound }
{}

/// Whatever the Reads found, the answers of shares can be joined.
#[tactic(auto, using(crate::proofs::Sharing::shares_join))]
pub fn shares_join()
    ensures { SharesJoin }
{}

/// Where the entries spare the segment, its shares come to the answer over its bytes.
#[tactic(auto, using(crate::proofs::Sharing::shares_answer))]
pub fn shares_answer()
    ensures { SharesAnswer }
{}

/// And each word of each value that is asked for in a chosen record was read.
pub fn shares_read()
    ensures { SharesRead }
{}
