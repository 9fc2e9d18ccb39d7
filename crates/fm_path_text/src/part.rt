ghost use Rattle.std.specs.Prelude.{◌≡◌, ℕ, ◌<◌, ◌≤◌, ◌++◌, ◌∷◌, ◌||◌, [], pos, neg_ℤ, IfOk, IsTrue, length};
ghost use Rattle.fm_layout.specs.Name.{is_letter, is_digit};
ghost use Rattle.fm_path_text.specs.Grammar.{most_number, most_pieces};
ghost use Rattle.fm_path_text.specs.Reader.{longer_number, next, next_in_brackets, opens, closes, spells, IsSound, IsBounded, whole, Holds};

use crate::name_text::NameText;
use crate::sign::Sign;
use crate::step::PathStep;
use std::alloc::AllocError;

/// What has been read of a piece of a path's text.
#[derive(Drop)]
pub enum Part {
    /// Nothing: the last piece has ended, or none has begun.
    Between,
    /// `.`
    Dot,
    /// `.NAME`
    Word(NameText),
    /// `.#`
    Hash,
    /// `.#N`
    Number(u64),
    /// `[`
    Open,
    /// `[N`
    Index(u64),
    /// `[F:`
    Colon(u64),
    /// `[F:-`
    Minus(u64),
    /// `[F:S`
    Up(u64, u64),
    /// `[F:-S`
    Down(u64, u64),
}

/// What a byte does to the part that has been read.
#[derive(Drop)]
pub enum Move {
    /// No path's text goes on so.
    Dead,
    /// The piece goes on.
    Stay(Part),
    /// The piece has ended, and the next one has begun as far as this part.
    Finish(PathStep, Part),
}

const MOST_NUMBER: u64 = 1 << 40;

const MOST_PIECES: usize = 64;

impl Part {
    /// What a sign does here, behind so many whole pieces.
    pub fn next(self, pieces: usize, sign: Sign) -> Move
        requires pieces { pieces ≤ most_pieces }
        requires sound { IsSound sign }
        requires bounded { IsBounded self }
        ensures { result ≡ next self pieces sign }
    {
        match (self, sign) {
            (Part::Between, Sign::Dot) => opens(pieces, Part::Dot),
            (Part::Between, Sign::Open) => opens(pieces, Part::Open),
            (Part::Dot, Sign::Hash) => Move::Stay(Part::Hash),
            (Part::Dot, Sign::Letter(byte)) => Move::Stay(Part::Word(NameText::of_letter(byte))),
            (Part::Word(name), Sign::Letter(byte)) => spells(name, byte),
            (Part::Word(name), Sign::Digit(digit)) => spells(name, b'0' + digit),
            (Part::Word(name), Sign::Dot) => closes(pieces, PathStep::Name(name), Part::Dot),
            (Part::Word(name), Sign::Open) => closes(pieces, PathStep::Name(name), Part::Open),
            (Part::Hash, Sign::Digit(digit)) => Move::Stay(Part::Number(u64::from(digit))),
            (Part::Number(n), Sign::Digit(digit)) => longer_number(n, digit).map_or(
                Move::Dead,
                |n| Move::Stay(Part::Number(n)),
            ),
            (Part::Number(n), Sign::Dot) => closes(pieces, PathStep::Group(n), Part::Dot),
            (Part::Number(n), Sign::Open) => closes(pieces, PathStep::Group(n), Part::Open),
            (part, sign) => part.next_in_brackets(sign),
        }
    }

    /// What a sign does behind a bracket that is open.
    fn next_in_brackets(self, sign: Sign) -> Move
        requires sound { IsSound sign }
        requires bounded { IsBounded self }
        ensures { result ≡ next_in_brackets self sign }
    {
        match (self, sign) {
            (Part::Open, Sign::Close) => ends(PathStep::Each),
            (Part::Open, Sign::Digit(digit)) => Move::Stay(Part::Index(u64::from(digit))),
            (Part::Index(n), Sign::Digit(digit)) => longer_number(n, digit).map_or(
                Move::Dead,
                |n| Move::Stay(Part::Index(n)),
            ),
            (Part::Index(n), Sign::Close) => ends(PathStep::At(n)),
            (Part::Index(n), Sign::Colon) => Move::Stay(Part::Colon(n)),
            (Part::Colon(first), Sign::Minus) => Move::Stay(Part::Minus(first)),
            (Part::Colon(first), Sign::Digit(digit)) => Move::Stay(Part::Up(
                first,
                u64::from(digit),
            )),
            (Part::Minus(_), Sign::Digit(0)) => Move::Dead,
            (Part::Minus(first), Sign::Digit(digit)) => Move::Stay(Part::Down(
                first,
                u64::from(digit),
            )),
            (Part::Up(first, n), Sign::Digit(digit)) => longer_number(n, digit).map_or(
                Move::Dead,
                |n| Move::Stay(Part::Up(first, n)),
            ),
            (Part::Up(first, n), Sign::Close) => ends(PathStep::EachFrom(first, up(n))),
            (Part::Down(first, n), Sign::Digit(digit)) => longer_number(n, digit).map_or(
                Move::Dead,
                |n| Move::Stay(Part::Down(first, n)),
            ),
            (Part::Down(first, n), Sign::Close) => ends(PathStep::EachFrom(first, down(n))),
            _ => Move::Dead,
        }
    }

    /// The path of these whole pieces and this part of one more, if the text may end here.
    pub fn finish(self, path: Vec<PathStep>) -> Result<Option<Vec<PathStep>>, AllocError>
        ensures { IfOk result (λ found. Holds found (whole path.items self)) }
    {
        match self {
            Part::Dot => Ok(if path.is_empty() { Some(path) } else { None }),
            Part::Between => Ok(if path.is_empty() { None } else { Some(path) }),
            Part::Word(name) => with_step(path, PathStep::Name(name)),
            Part::Number(n) => with_step(path, PathStep::Group(n)),
            _ => Ok(None),
        }
    }
}

/// The path with one step more.
fn with_step(mut path: Vec<PathStep>, step: PathStep) -> Result<Option<Vec<PathStep>>, AllocError>
    ensures { IfOk result (λ found. Holds found (Some (path.items ++ step ∷ []))) }
{
    path.push(step)?;
    Ok(Some(path))
}

/// The first byte of a piece, if there may be one more piece.
fn opens(pieces: usize, part: Part) -> Move
    ensures { result ≡ opens pieces part }
{
    if pieces < MOST_PIECES {
        Move::Stay(part)
    } else {
        Move::Dead
    }
}

/// The end of a piece where the next one begins, if there may be one more.
fn closes(pieces: usize, step: PathStep, part: Part) -> Move
    requires { pieces ≤ most_pieces }
    ensures { result ≡ closes pieces step part }
{
    if pieces + 1 < MOST_PIECES {
        Move::Finish(step, part)
    } else {
        Move::Dead
    }
}

/// The end of a piece whose bracket closes.
fn ends(step: PathStep) -> Move
    ensures { result ≡ Move.Finish step Part.Between }
{
    Move::Finish(step, Part::Between)
}

/// One more byte of a name, if there is room.
fn spells(mut name: NameText, byte: u8) -> Move
    requires { IsTrue (is_letter byte || is_digit byte) }
    ensures { result ≡ spells name byte }
{
    if name.len() < 64 {
        name.push(byte);
        Move::Stay(Part::Word(name))
    } else {
        Move::Dead
    }
}

/// A number with one more digit, if there is one: no zero leads, and the number isn't too great.
fn longer_number(n: u64, digit: u8) -> Option<u64>
    requires { digit < 10 }
    ensures { result ≡ longer_number n digit }
{
    if n == 0 || n > MOST_NUMBER {
        return None;
    }
    let longer = 10 * n + u64::from(digit);
    if longer <= MOST_NUMBER {
        Some(longer)
    } else {
        None
    }
}

fn up(n: u64) -> i64
    requires { n ≤ most_number }
    ensures { result ≡ pos n }
{
    n as i64
}

fn down(n: u64) -> i64
    requires { n ≤ most_number }
    ensures { result ≡ neg_ℤ (pos n) }
{
    -up(n)
}
