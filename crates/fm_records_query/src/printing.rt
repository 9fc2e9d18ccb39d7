ghost use Rattle.std.specs.Prelude.{◌≡◌, IfOk};
ghost use Rattle.std.specs.String.{string_bytes};
ghost use Rattle.fm_path_text.specs.Grammar.{piece_of, pieces_of, path_text};
ghost use Rattle.fm_records_query.specs.Grammar.{item_text, condition_text};

use crate::syntax::{ConditionSyntax, ItemSyntax};
use crate::word::Word;
use fm_base_text::Text;
use fm_path::{NameText, PathStep};
use std::alloc::{AllocError, Global};

/// The item's text.
pub fn item_text(alloc: Global, item: &ItemSyntax) -> Result<Text, AllocError>
    ensures { IfOk result (λ text. text ≡ item_text item.now) }
{
    match item {
        ItemSyntax::Count => Ok(Text::of(String::from_str(alloc, "count")?)),
        ItemSyntax::Of(fold, path) => {
            let path = path_text(alloc, path.as_slice())?;
            let word = Word::Folding(*fold).text();
            Ok(Text::of(format!(in alloc; "{word}{path})")?))
        }
    }
}

/// The condition's text.
pub fn condition_text(alloc: Global, condition: &ConditionSyntax) -> Result<Text, AllocError>
    ensures { IfOk result (λ text. text ≡ condition_text condition.now) }
{
    let path = path_text(alloc, condition.path.as_slice())?;
    let operator = condition.operator.text();
    let literal = condition.literal;
    Ok(Text::of(format!(in alloc; "{path}{operator}{literal}")?))
}

fn path_text(alloc: Global, path: &[PathStep]) -> Result<String, AllocError>
    ensures { IfOk result (λ text. string_bytes text ≡ path_text path.now) }
{
    if path.is_empty() {
        return Ok(String::from_str(alloc, ".")?);
    }
    pieces_text(alloc, path)
}

/// The steps one behind the other.
fn pieces_text(alloc: Global, path: &[PathStep]) -> Result<String, AllocError>
    ensures { IfOk result (λ text. string_bytes text ≡ pieces_of path.now) }
{
    let mut text = String::new(alloc);
    for (k, step) in path.iter().enumerate() {
        let piece = piece_text(alloc, step)?;
        text.push_str(&piece)?;
    }
    Ok(text)
}

fn piece_text(alloc: Global, step: &PathStep) -> Result<String, AllocError>
    ensures { IfOk result (λ text. string_bytes text ≡ piece_of step.now) }
{
    match step {
        PathStep::Name(name) => name_text(alloc, name),
        PathStep::Group(n) => Ok(format!(in alloc; ".#{n}")?),
        PathStep::At(n) => Ok(format!(in alloc; "[{n}]")?),
        PathStep::Each => Ok(String::from_str(alloc, "[]")?),
        PathStep::EachFrom(first, step) => Ok(format!(in alloc; "[{first}:{step}]")?),
    }
}

/// A dot and the name.
fn name_text(alloc: Global, name: &NameText) -> Result<String, AllocError>
    ensures { IfOk result (λ text. string_bytes text ≡ piece_of (PathStep.Name name.now)) }
{
    let mut text = String::from_str(alloc, ".")?;
    for (k, byte) in name.as_bytes().iter().enumerate() {
        text.push(char::from(*byte))?;
    }
    Ok(text)
}
