ghost use Rattle.std.specs.Prelude.{◌≡◌, MatchOption};
ghost use Rattle.fm_script_text.specs.Reader.{cut, cut3, cut4, cut5};

/// What stands before the first space, and behind it.
pub fn cut(text: &str) -> Option<(&str, &str)>
    ensures { MatchOption result (cut text.now ≡ None) (λ x. cut text.now ≡ Some (x.0.now, x.1.now)) }
{
    text.split_once(' ')
}

/// The first two words, and what stands behind them.
pub fn cut3(text: &str) -> Option<(&str, &str, &str)>
    ensures { MatchOption result (cut3 text.now ≡ None) (λ x. cut3 text.now ≡ Some (x.0.now, x.1.now, x.2.now)) }
{
    let (first, rest) = cut(text)?;
    let (second, third) = cut(rest)?;
    Some((first, second, third))
}

/// The first three words, and what stands behind them.
pub fn cut4(text: &str) -> Option<(&str, &str, &str, &str)>
    ensures { MatchOption result (cut4 text.now ≡ None) (λ x.
        cut4 text.now ≡ Some (x.0.now, x.1.now, x.2.now, x.3.now)) }
{
    let (first, rest) = cut(text)?;
    let (second, third, fourth) = cut3(rest)?;
    Some((first, second, third, fourth))
}

/// The first four words, and what stands behind them.
pub fn cut5(text: &str) -> Option<(&str, &str, &str, &str, &str)>
    ensures { MatchOption result (cut5 text.now ≡ None) (λ x.
        cut5 text.now ≡ Some (x.0.now, x.1.now, x.2.now, x.3.now, x.4.now)) }
{
    let (first, rest) = cut(text)?;
    let (second, third, fourth, fifth) = cut4(rest)?;
    Some((first, second, third, fourth, fifth))
}
