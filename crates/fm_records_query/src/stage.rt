ghost use Rattle.std.specs.Prelude.{◌≡◌, ◌<◌, ◌≤◌, IfOk, length, [], get_or, nat_eq};
ghost use Rattle.fm_path_text.specs.Reader.{IsBounded};
ghost use Rattle.fm_records_query.specs.Reader.{starts, spelled, turns, spells, is_mark, marks, in_path, behind, compares, negates, in_literal, next, where_word, and_word, word_text, IsNumber, IsReady};
ghost use Rattle.fm_records_query.specs.Read.{steps_if_any};

use crate::fold::Fold;
use crate::number::Number;
use crate::operator::Operator;
use crate::steps::Steps;
use crate::syntax::{ConditionSyntax, ItemSyntax};
use crate::word::Word;
use fm_path::PathStep;
use fm_path_text::{Move, Part, Sign};
use std::alloc::{AllocError, Global};

/// Whose path is read.
#[derive(Clone, Copy)]
pub enum Role {
    OfItem(Fold),
    OfCondition,
}

/// How far an item or a condition has been read.
#[derive(Drop)]
pub enum Stage {
    /// An item begins.
    Start,
    /// So many bytes of the word that begins an item.
    Spelling(Word, usize),
    /// Whole steps of a path, and a part of one more.
    InPath(Role, Steps, Part),
    /// A whole item, and so many bytes of ` where `.
    Behind(ItemSyntax, usize),
    /// `PATH!`
    Bang(Steps),
    /// A path and an operator, which may be the first byte of a longer one.
    Compare(Steps, Operator),
    /// A path, an operator and `-`.
    Minus(Steps, Operator),
    /// A condition as far as this of its number, and so many bytes of ` and `.
    Literal(Steps, Operator, Number, usize),
}

/// What a byte does to the stage.
#[derive(Drop)]
pub enum Turn {
    /// No query's text goes on so.
    Dead,
    /// The item or condition goes on.
    Stay(Stage),
    /// The item has ended, and the next item or the first condition has begun as far as this.
    NextItem(ItemSyntax, Stage),
    /// The condition has ended, and the next one has begun as far as this.
    NextCondition(ConditionSyntax, Stage),
}

/// The most items, and the most conditions.
const MOST_PARTS: usize = 16;

impl Stage {
    /// What a byte does here, behind so many whole items and conditions.
    pub fn next(
        self,
        alloc: Global,
        items: usize,
        conditions: usize,
        byte: u8,
    ) -> Result<Turn, AllocError>
        requires items { items ≤ 16 }
        requires conditions { conditions ≤ 16 }
        requires ready { IsReady self }
        ensures { IfOk result (λ turn. turn ≡ next items conditions self byte) }
    {
        match self {
            Stage::Start => Ok(starts(byte)),
            Stage::Spelling(word, n) => Ok(spells(alloc, word, n, byte)),
            Stage::InPath(role, steps, part) => in_path(role, steps, part, byte),
            Stage::Behind(item, n) => Ok(behind(alloc, items, item, n, byte)),
            Stage::Bang(path) if byte == b'=' => {
                Ok(Turn::Stay(Stage::Compare(path, Operator::NotEqual)))
            }
            Stage::Bang(_) => Ok(Turn::Dead),
            Stage::Compare(path, operator) => Ok(compares(path, operator, byte)),
            Stage::Minus(path, operator) => Ok(negates(path, operator, byte)),
            Stage::Literal(path, operator, number, n) => {
                Ok(in_literal(alloc, conditions, path, operator, number, n, byte))
            }
        }
    }
}

fn starts(byte: u8) -> Turn
    ensures { result ≡ starts byte }
{
    match byte {
        b'c' => Turn::Stay(Stage::Spelling(Word::Counting, 1)),
        b's' => Turn::Stay(Stage::Spelling(Word::Folding(Fold::Sum), 1)),
        b'm' => Turn::Stay(Stage::Spelling(Word::Folding(Fold::Least), 1)),
        b'l' => Turn::Stay(Stage::Spelling(Word::Folding(Fold::All), 1)),
        _ => Turn::Dead,
    }
}

/// One more byte of a word.
fn spells(alloc: Global, word: Word, n: usize, byte: u8) -> Turn
    requires { n < length (word_text word) }
    ensures { result ≡ spells word n byte }
{
    if is_next(word.text(), n, byte) {
        Turn::Stay(spelled(alloc, word, n + 1))
    } else {
        turns(word, n, byte)
    }
}

/// Whether this is byte `n` of the text.
fn is_next(text: &str, n: usize, byte: u8) -> bool
    requires { n < length text.now }
    ensures { result ≡ nat_eq (get_or text.now n 0) byte }
{
    text.as_bytes()[n] == byte
}

/// So many bytes of a word, or what comes behind all of it.
fn spelled(alloc: Global, word: Word, n: usize) -> Stage
    ensures { result ≡ spelled word n }
{
    if n != word.text().len() {
        return Stage::Spelling(word, n);
    }
    match word {
        Word::Counting => Stage::Behind(ItemSyntax::Count, 0),
        Word::Folding(fold) => Stage::InPath(Role::OfItem(fold), Steps::new(alloc), Part::Between),
    }
}

/// The other word that begins as this one does.
fn turns(word: Word, n: usize, byte: u8) -> Turn
    ensures { result ≡ turns word n byte }
{
    match (word, n, byte) {
        (Word::Folding(Fold::Least), 1, b'a') => {
            Turn::Stay(Stage::Spelling(Word::Folding(Fold::Greatest), 2))
        }
        _ => Turn::Dead,
    }
}

fn in_path(role: Role, mut steps: Steps, part: Part, byte: u8) -> Result<Turn, AllocError>
    requires short { length steps ≤ 64 }
    requires bounded { IsBounded part }
    ensures { IfOk result (λ turn. turn ≡ in_path role steps part byte) }
{
    if is_mark(byte) {
        return match part.finish(steps.into_vec()) {
            Ok(path) => Ok(marks(role, byte, path)),
            Err(_) => Err(AllocError),
        };
    }
    match part.next(steps.len(), Sign::of(byte)) {
        Move::Dead => Ok(Turn::Dead),
        Move::Stay(to) => Ok(Turn::Stay(Stage::InPath(role, steps, to))),
        Move::Finish(step, to) => {
            steps.push(step)?;
            Ok(Turn::Stay(Stage::InPath(role, steps, to)))
        }
    }
}

/// Whether the byte ends a path.
fn is_mark(byte: u8) -> bool
    ensures { result ≡ is_mark byte }
{
    byte == b'!' || byte == b')' || byte == b'<' || byte == b'=' || byte == b'>'
}

/// Such a byte behind a path, if that is whole.
fn marks(role: Role, byte: u8, path: Option<Vec<PathStep>>) -> Turn
    ensures { result ≡ marks role byte (steps_if_any path) }
{
    let Some(path) = path else {
        return Turn::Dead;
    };
    let path = Steps::of(path);
    match (role, byte) {
        (Role::OfItem(fold), b')') => Turn::Stay(Stage::Behind(ItemSyntax::Of(fold, path), 0)),
        (Role::OfCondition, b'=') => Turn::Stay(Stage::Compare(path, Operator::Equal)),
        (Role::OfCondition, b'<') => Turn::Stay(Stage::Compare(path, Operator::Below)),
        (Role::OfCondition, b'>') => Turn::Stay(Stage::Compare(path, Operator::Above)),
        (Role::OfCondition, b'!') => Turn::Stay(Stage::Bang(path)),
        _ => Turn::Dead,
    }
}

/// Behind a whole item and so many bytes of ` where `.
fn behind(alloc: Global, items: usize, item: ItemSyntax, n: usize, byte: u8) -> Turn
    requires items { items ≤ 16 }
    requires few { n < 7 }
    ensures { result ≡ behind items item n byte }
{
    if n == 0 && byte == b',' {
        if items + 1 < MOST_PARTS {
            Turn::NextItem(item, Stage::Start)
        } else {
            Turn::Dead
        }
    } else if is_next(" where ", n, byte) {
        if n == 6 {
            Turn::NextItem(item, first_of_path(alloc))
        } else {
            Turn::Stay(Stage::Behind(item, n + 1))
        }
    } else {
        Turn::Dead
    }
}

/// The path of a condition begins.
fn first_of_path(alloc: Global) -> Stage
    ensures { result ≡ Stage.InPath Role.OfCondition [] Part.Between }
{
    Stage::InPath(Role::OfCondition, Steps::new(alloc), Part::Between)
}

/// Behind an operator: `=` that makes it longer, `-` or a digit.
fn compares(path: Steps, operator: Operator, byte: u8) -> Turn
    ensures { result ≡ compares path operator byte }
{
    match (byte, operator) {
        (b'=', Operator::Below) => Turn::Stay(Stage::Compare(path, Operator::AtMost)),
        (b'=', Operator::Above) => Turn::Stay(Stage::Compare(path, Operator::AtLeast)),
        (b'-', _) => Turn::Stay(Stage::Minus(path, operator)),
        (b'0'..=b'9', _) => {
            let number = Number::Up(u64::from(byte - b'0'));
            Turn::Stay(Stage::Literal(path, operator, number, 0))
        }
        _ => Turn::Dead,
    }
}

fn negates(path: Steps, operator: Operator, byte: u8) -> Turn
    ensures { result ≡ negates path operator byte }
{
    match byte {
        b'1'..=b'9' => {
            let number = Number::Down(u64::from(byte - b'0'));
            Turn::Stay(Stage::Literal(path, operator, number, 0))
        }
        _ => Turn::Dead,
    }
}

/// In a condition's number, or behind it and so many bytes of ` and `.
fn in_literal(
    alloc: Global,
    conditions: usize,
    path: Steps,
    operator: Operator,
    number: Number,
    n: usize,
    byte: u8,
) -> Turn
    requires conditions { conditions ≤ 16 }
    requires number { IsNumber number }
    requires few { n < 5 }
    ensures { result ≡ in_literal conditions path operator number n byte }
{
    if n == 0 && byte.is_ascii_digit() {
        return match number.longer(byte - b'0') {
            Some(number) => Turn::Stay(Stage::Literal(path, operator, number, 0)),
            None => Turn::Dead,
        };
    }
    if !is_next(" and ", n, byte) || conditions + 1 >= MOST_PARTS {
        return Turn::Dead;
    }
    if n == 4 {
        let literal = number.value();
        let condition = ConditionSyntax {
            path,
            operator,
            literal,
        };
        Turn::NextCondition(condition, first_of_path(alloc))
    } else {
        Turn::Stay(Stage::Literal(path, operator, number, n + 1))
    }
}
