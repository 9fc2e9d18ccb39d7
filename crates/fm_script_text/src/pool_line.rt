ghost use Rattle.std.specs.Prelude.{◌≡◌, IfSome, IfNone};
ghost use Rattle.fm_script_text.specs.Reader.{shape_named, numbers_named};
ghost use Rattle.fm_script_text.specs.Syntax.{SaysPool};
ghost use Rattle.fm_words.specs.declared.shape.Shape.{Shape};

use crate::cutting::{cut, cut5};
use crate::words::number_of;
use fm_words::Shape;

const MOST_WORDS: u64 = 4_194_304;

const MOST: u64 = u32::MAX as u64;

/// The shape that a pool's line says, with one pass.
pub fn pool_of(text: &str) -> Option<Shape>
    ensures found { IfSome result (λ z. SaysPool text.now z) }
    ensures alone { IfSome result (λ z. z.passes ≡ 1) }
    ensures none { IfNone result ((z : Shape) → SaysPool text.now z → ⊥) }
{
    let Some(shape) = shape_of(text) else {
        return None;
    };
    let words = u64::from(shape.pages) * u64::from(shape.page_words);
    if !shape.is_valid() {
        return None;
    }
    if words > MOST_WORDS {
        return None;
    }
    Some(shape)
}

/// The shape that the text spells, with one pass, whether a pool can have it or not.
fn shape_of(text: &str) -> Option<Shape>
    ensures { result ≡ shape_named text.now }
{
    let (word, rest) = cut(text)?;
    if word != "pool" {
        return None;
    }
    let (slots, reach, page_words, generations, pages) = cut5(rest)?;
    numbers_of(slots, reach, page_words, generations, pages)
}

/// The shape of these numbers.
fn numbers_of(
    slots: &str,
    reach: &str,
    page_words: &str,
    generations: &str,
    pages: &str,
) -> Option<Shape>
    ensures { result ≡ numbers_named slots.now reach.now page_words.now generations.now pages.now }
{
    let slots = number_of(MOST, slots)?;
    let reach = number_of(MOST, reach)?;
    let page_words = number_of(MOST, page_words)?;
    let generations = number_of(MOST, generations)?;
    let pages = number_of(MOST, pages)?;
    Some(Shape {
        passes: 1,
        slots: slots as u32,
        pages: pages as u32,
        page_words: page_words as u32,
        reach: reach as u32,
        generations: generations as u32,
    })
}
