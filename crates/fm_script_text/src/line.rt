use crate::command::Command;
use crate::who::Who;
use fm_base_text::Text;

/// A line of a script, with its number in the script's file, from 1.
#[derive(Drop)]
pub struct Line {
    pub number: u64,
    pub text: Text,
    pub who: Who,
    pub command: Command,
}
