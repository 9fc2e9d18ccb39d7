use fm_script_lines::Reply;
use fm_script_text::Text;

/// A script's line, with all its words, and what it was answered.
#[derive(Debug, Drop)]
pub struct ReportLine {
    pub text: Text,
    pub reply: Reply,
}
