ghost use Rattle.std.specs.Prelude.{◌≡◌, IfOk, OnOk, List, ℕ, if◌then◌else◌};
ghost use Rattle.fm_script_text.specs.Rules.{made};
ghost use Rattle.fm_script_lines.specs.Numbers.{AreNumbers, is_made, number_at};
ghost use Rattle.fm_script_lines.specs.Ordering.{lines_at};

use fm_path_text::NameText;
use fm_script_text::Line;
use std::alloc::{AllocError, Global};
use std::collections::BTreeMap;
use std::str;

/// The number of the line that makes each name.
#[derive(Drop)]
pub struct Numbers {
    pub(crate) makers: BTreeMap<String, usize>,
}

impl Numbers {
    /// Those of these lines, of which the first has number 0.
    pub fn of_lines(alloc: Global, lines: &[&Line]) -> Result<Numbers, AllocError>
        ensures { IfOk result (AreNumbers (lines_at lines.now)) }
    {
        let mut names = Numbers {
            makers: BTreeMap::new(alloc),
        };
        for (number, line) in lines.iter().enumerate() {
            names.note(alloc, number, line)?;
        }
        Ok(names)
    }

    /// Keeps the number of this line.
    fn note(&mut self, alloc: Global, number: usize, line: &Line) -> Result<(), AllocError>
        ensures { OnOk result ((name : List ℕ) → number_at self.new name
            ≡ (if is_made name (made line.now.command) then Some number
            else number_at self.old name)) }
    {
        let Some((name, _)) = line.command.makes() else {
            return Ok(());
        };
        let key = String::from_str(alloc, text_of(name))?;
        self.makers.insert(key, number)?;
        Ok(())
    }

    /// The number of the line that makes this name.
    pub fn of(&self, name: &NameText) -> Option<usize>
        ensures { result ≡ number_at self.now name.now }
    {
        self.makers.get(text_of(name)).copied()
    }
}

/// The name as text.
fn text_of(name: &NameText) -> &str
    ensures { result.now ≡ name.now }
{
    match str::from_utf8(name.as_bytes()) {
        Ok(text) => text,
        Err(_) => "",
    }
}
