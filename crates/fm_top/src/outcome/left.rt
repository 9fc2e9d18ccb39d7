use fm_rule::Finished;
use fm_script::Report;

/// What a run leaves.
#[derive(Drop)]
pub enum Left {
    /// Nothing but what it wrote.
    Nothing,
    /// The pool that a query, a tally, a grouping or a demonstration used.
    Pool(Finished),
    /// The report of a script.
    Report(Report),
}
