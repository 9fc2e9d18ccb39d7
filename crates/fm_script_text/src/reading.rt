ghost use Rattle.std.specs.Prelude.{◌≡◌};
ghost use Rattle.fm_script_text.specs.Reader.{opening, two, filled, sized, cell_named, with_value, with_two, got, valued, swapped, arena_command, bytes_command, command_named, line_named};

use crate::cell::Cell;
use crate::close_by::CloseBy;
use crate::command::Command;
use crate::cutting::{cut, cut3, cut4, cut5};
use crate::who::Who;
use crate::words::{arena_kind_of, byte_of, literal_of, name_of, number_of, type_of, who_of};
use fm_base::Kind;
use fm_path_text::NameText;

const MOST: u64 = 1 << 40;

/// Who runs the line of this text, and what it asks for.
pub fn line_of(text: &str) -> Option<(Who, Command)>
    ensures { result ≡ line_named text.now }
{
    let (who, verb, args) = cut3(text)?;
    who_of(who).zip(command_of(verb, args))
}

/// What this verb and these arguments ask for.
fn command_of(verb: &str, args: &str) -> Option<Command>
    ensures { result ≡ command_named verb.now args.now }
{
    match verb {
        "open" => opening(args).map(|(name, kind)| Command::Open { name, kind }),
        "alloc" => sized(args).map(|((arena, name), (size, align))| Command::Alloc {
            arena,
            name,
            size,
            align,
        }),
        "slice" => sized(args).map(|((segment, name), (offset, size))| Command::Slice {
            segment,
            name,
            offset,
            size,
        }),
        "readonly" => two(args).map(|(segment, name)| Command::Readonly { segment, name }),
        _ => bytes_command_of(verb, args),
    }
}

/// What they ask for of the bytes of a segment, or of an arena.
fn bytes_command_of(verb: &str, args: &str) -> Option<Command>
    ensures { result ≡ bytes_command verb.now args.now }
{
    match verb {
        "get" => got(args).map(Command::Get),
        "set" => valued(args).map(|(cell, value)| Command::Set(cell, value)),
        "add" => valued(args).map(|(cell, value)| Command::Add(cell, value)),
        "cas" => swapped(args).map(|(cell, old, new)| Command::Cas(cell, old, new)),
        "fill" => filled(args).map(|(segment, byte)| Command::Fill { segment, byte }),
        "copy" => two(args).map(|(source, target)| Command::Copy { source, target }),
        "mismatch" => two(args).map(|(segment, other)| Command::Mismatch { segment, other }),
        _ => arena_command_of(verb, args),
    }
}

/// What they ask for of an arena, a hold or a handle.
fn arena_command_of(verb: &str, args: &str) -> Option<Command>
    ensures { result ≡ arena_command verb.now args.now }
{
    match verb {
        "alive" => name_of(args).map(|arena| Command::Alive { arena }),
        "hold" => two(args).map(|(arena, name)| Command::Hold { arena, name }),
        "unhold" => name_of(args).map(|hold| Command::Unhold { hold }),
        "again" => two(args).map(|(handle, name)| Command::Again { handle, name }),
        "back" => name_of(args).map(|handle| Command::Back { handle }),
        "close" => name_of(args).map(|arena| Command::Close {
            arena,
            by: CloseBy::Visits,
        }),
        "closepoll" => name_of(args).map(|arena| Command::Close {
            arena,
            by: CloseBy::Polls,
        }),
        _ => None,
    }
}

/// `NAME KIND`
fn opening(text: &str) -> Option<(NameText, Kind)>
    ensures { result ≡ opening text.now }
{
    let (name, kind) = cut(text)?;
    name_of(name).zip(arena_kind_of(kind))
}

/// Two names.
fn two(text: &str) -> Option<(NameText, NameText)>
    ensures { result ≡ two text.now }
{
    let (first, second) = cut(text)?;
    name_of(first).zip(name_of(second))
}

/// `SEG BYTE`
fn filled(text: &str) -> Option<(NameText, u8)>
    ensures { result ≡ filled text.now }
{
    let (segment, byte) = cut(text)?;
    name_of(segment).zip(byte_of(byte))
}

/// Two names and two numbers.
fn sized(text: &str) -> Option<((NameText, NameText), (u64, u64))>
    ensures { result ≡ sized text.now }
{
    let (first, second, third, fourth) = cut4(text)?;
    let names = name_of(first).zip(name_of(second));
    names.zip(number_of(MOST, third).zip(number_of(MOST, fourth)))
}

/// `SEG TYPE OFFSET`
fn got(text: &str) -> Option<Cell>
    ensures { result ≡ got text.now }
{
    let (segment, kind, offset) = cut3(text)?;
    cell_of(segment, kind, offset)
}

/// `SEG TYPE OFFSET VALUE`
fn valued(text: &str) -> Option<(Cell, i64)>
    ensures { result ≡ valued text.now }
{
    let (segment, kind, offset, value) = cut4(text)?;
    with_value(cell_of(segment, kind, offset), value)
}

/// `SEG TYPE OFFSET OLD NEW`
fn swapped(text: &str) -> Option<(Cell, i64, i64)>
    ensures { result ≡ swapped text.now }
{
    let (segment, kind, offset, old, new) = cut5(text)?;
    with_two(cell_of(segment, kind, offset), old, new)
}

fn cell_of(segment: &str, kind: &str, offset: &str) -> Option<Cell>
    ensures { result ≡ cell_named segment.now kind.now offset.now }
{
    let segment = name_of(segment)?;
    let (kind, order) = type_of(kind)?;
    let offset = number_of(MOST, offset)?;
    Some(Cell {
        segment,
        kind,
        order,
        offset,
    })
}

fn with_value(cell: Option<Cell>, value: &str) -> Option<(Cell, i64)>
    ensures { result ≡ with_value cell value.now }
{
    let cell = cell?;
    let value = literal_of(cell.kind, value)?;
    Some((cell, value))
}

fn with_two(cell: Option<Cell>, old: &str, new: &str) -> Option<(Cell, i64, i64)>
    ensures { result ≡ with_two cell old.now new.now }
{
    let cell = cell?;
    let old = literal_of(cell.kind, old)?;
    let new = literal_of(cell.kind, new)?;
    Some((cell, old, new))
}
