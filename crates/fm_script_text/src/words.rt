ghost use Rattle.std.specs.Prelude.{◌≡◌, ◌≤◌, IfSome};
ghost use Rattle.fm_script_text.specs.Reader.{name_named, number_named, literal_named, is_of_kind, arena_kind_named, type_named, worker, who_named};

use crate::who::Who;
use fm_base::Kind;
use fm_base_text::{parse_decimal, parse_signed_decimal};
use fm_lanes::{Order, ValueKind};
use fm_path_text::NameText;

const MOST_WORKERS: u64 = 16;

/// The name that this word is.
pub fn name_of(word: &str) -> Option<NameText>
    ensures { result ≡ name_named word.now }
{
    NameText::of(word)
}

/// The number that the word spells in decimal digits, with no sign and no leading zero, if it is at most `most`.
pub fn number_of(most: u64, word: &str) -> Option<u64>
    ensures number { result ≡ number_named most word.now }
    ensures bound { IfSome result (λ n. n ≤ most) }
{
    let n = parse_decimal(word)?;
    if n <= most { Some(n) } else { None }
}

/// The byte that the word spells.
pub fn byte_of(word: &str) -> Option<u8>
    ensures { result ≡ number_named 255 word.now }
{
    match number_of(255, word) {
        Some(n) => Some(n as u8),
        None => None,
    }
}

/// The number of this kind that the word spells, with no leading zero, no `+` and no `-0`.
pub fn literal_of(kind: ValueKind, word: &str) -> Option<i64>
    ensures { result ≡ literal_named kind word.now }
{
    let n = parse_signed_decimal(word)?;
    if is_of_kind(kind, n) { Some(n) } else { None }
}

/// Whether a value of this kind can be this number.
fn is_of_kind(kind: ValueKind, n: i64) -> bool
    ensures { result ≡ is_of_kind kind n }
{
    match kind {
        ValueKind::Byte => -0x80 <= n && n < 0x80,
        ValueKind::Boolean => 0 <= n && n < 2,
        ValueKind::Char => 0 <= n && n < 0x1_0000,
        ValueKind::Short => -0x8000 <= n && n < 0x8000,
        ValueKind::Int => -0x8000_0000 <= n && n < 0x8000_0000,
        ValueKind::Long => true,
    }
}

/// The kind of arena that the word names.
pub fn arena_kind_of(word: &str) -> Option<Kind>
    ensures { result ≡ arena_kind_named word.now }
{
    match word {
        "global" => Some(Kind::Global),
        "auto" => Some(Kind::Automatic),
        "confined" => Some(Kind::Confined),
        "shared" => Some(Kind::Shared),
        _ => None,
    }
}

/// The kind and the order of values that the word names.
pub fn type_of(word: &str) -> Option<(ValueKind, Order)>
    ensures { result ≡ type_named word.now }
{
    match word {
        "byte" => Some((ValueKind::Byte, Order::Little)),
        "byte-be" => Some((ValueKind::Byte, Order::Big)),
        "boolean" => Some((ValueKind::Boolean, Order::Little)),
        "boolean-be" => Some((ValueKind::Boolean, Order::Big)),
        "char" => Some((ValueKind::Char, Order::Little)),
        "char-be" => Some((ValueKind::Char, Order::Big)),
        "short" => Some((ValueKind::Short, Order::Little)),
        "short-be" => Some((ValueKind::Short, Order::Big)),
        "int" => Some((ValueKind::Int, Order::Little)),
        "int-be" => Some((ValueKind::Int, Order::Big)),
        "long" => Some((ValueKind::Long, Order::Little)),
        "long-be" => Some((ValueKind::Long, Order::Big)),
        _ => None,
    }
}

/// Who runs a line that begins with this word.
pub fn who_of(word: &str) -> Option<Who>
    ensures { result ≡ who_named word.now }
{
    match word {
        "first" => Some(Who::First),
        "last" => Some(Who::Last),
        _ => worker(number_of(MOST_WORKERS, word)),
    }
}

fn worker(number: Option<u64>) -> Option<Who>
    requires { IfSome number (λ n. n ≤ 16) }
    ensures { result ≡ worker number }
{
    match number {
        None => None,
        Some(0) => None,
        Some(n) => Some(Who::Worker(n as u32)),
    }
}
