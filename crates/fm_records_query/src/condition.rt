use crate::operator::Operator;
use fm_base_text::Text;
use fm_path::Resolved;

/// A condition of a query: its text, and how the path's value in a record compares with a number.
#[derive(Debug, Drop)]
pub struct Condition {
    pub text: Text,
    pub path: Resolved,
    pub operator: Operator,
    pub literal: i64,
}
