use crate::placed::Placed;
use fm_records::Answer;
use fm_rule::Pass;
use fm_top_load::Portion;

/// What a crew answered over a chunk, and the next chunk, which was put beside that.
#[derive(Drop)]
pub(crate) struct Ahead {
    pub(crate) pass: Pass,
    pub(crate) answer: Answer,
    pub(crate) portion: Portion,
    /// None where the file has ended.
    pub(crate) next: Option<Placed>,
}
