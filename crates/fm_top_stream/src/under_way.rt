use fm_records::Answer;
use fm_rule::Pass;
use fm_top_load::Portion;

/// A stream under way.
#[derive(Drop)]
pub(crate) struct UnderWay {
    pub(crate) pass: Pass,
    /// The answer over the chunks that have gone through.
    pub(crate) answer: Answer,
    /// What the last read brought.
    pub(crate) portion: Portion,
}
