ghost use Rattle.std.specs.Prelude.{◌↔◌, IfSome, IfNone, IsTrue, List, ℕ};
ghost use Rattle.fm_lanes.specs.declared.value_kind.ValueKind.{ValueKind};
ghost use Rattle.fm_top_options.specs.Options.{texts};
ghost use Rattle.fm_top.specs.Words.{HasValue, IsSum, five};

use crate::command::file_words::is_file_word;
use fm_base_text::parse_decimal;
use fm_lanes::ValueKind;

/// The most bytes of a record that is summed.
const LARGEST_RECORD: u64 = 1_048_576;

/// `sum SIZE AT TYPE FILE`: the sum of the value of this kind at byte `at` of each record of `size` bytes.
#[derive(Clone, Copy)]
pub struct SumCommand<'a> {
    pub size: u64,
    pub at: u64,
    pub kind: ValueKind,
    pub file: &'a str,
}

/// The sum that the words ask for.
pub fn sum_words(words: &[String]) -> Option<SumCommand<'_>>
    ensures found { IfSome result (λ sum.
        IsSum (texts words.now) sum.size sum.at sum.kind sum.file.now) }
    ensures none { IfNone result ((size at : ℕ) (kind : ValueKind) (file : List ℕ) →
        IsSum (texts words.now) size at kind file → ⊥) }
{
    let [command, size, at, kind, file] = words else {
        return None;
    };
    sum_command(command, size, at, kind, file)
}

/// The sum that these five words ask for.
fn sum_command<'a>(
    command: &str,
    size: &str,
    at: &str,
    kind: &str,
    file: &'a str,
) -> Option<SumCommand<'a>>
    ensures found { IfSome result (λ sum.
        IsSum (five command.now size.now at.now kind.now file.now) sum.size sum.at sum.kind sum.file.now) }
    ensures none { IfNone result ((size_of at_of : ℕ) (of : ValueKind) (name : List ℕ) →
        IsSum (five command.now size.now at.now kind.now file.now) size_of at_of of name → ⊥) }
{
    if command != "sum" || !is_file_word(file) {
        return None;
    }
    let (Some(size), Some(at)) = (parse_decimal(size), parse_decimal(at)) else {
        return None;
    };
    let Some(kind) = ValueKind::named(kind) else {
        return None;
    };
    if has_value(size, at, kind) {
        Some(SumCommand {
            size,
            at,
            kind,
            file,
        })
    } else {
        None
    }
}

/// A value of this kind stands at byte `at` of each record of `size` bytes, aligned to its width.
fn has_value(size: u64, at: u64, kind: ValueKind) -> bool
    ensures { IsTrue result ↔ HasValue size at kind }
{
    let width = u64::from(kind.width());
    0 < size
        && size <= LARGEST_RECORD
        && size % width == 0
        && at % width == 0
        && at <= size
        && width <= size - at
}
