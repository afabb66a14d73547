//! Options among words, each as two words or as one with `=` between.
ghost use Rattle.std.specs.Prelude.{◌≡◌, ◌≢◌, ◌∷◌, ◌++◌, ℕ, List, IfSome, IfNone, IsTrue, ◌↔◌, MatchOption};
ghost use Rattle.litefs_tool.specs.Words.{AreApart, BeginsWithBoth, IsOption, IsValue, SaysBoth, Words};

use lf_base::Text;

/// The values of two options that are all of the words, in any order.
pub(crate) fn both_options<'a>(
    first: &str,
    second: &str,
    words: &'a [Text],
) -> Option<(&'a str, &'a str)>
    requires { AreApart first.now second.now }
    ensures { MatchOption result ((one other : List ℕ) → SaysBoth first.now second.now one other words.now → ⊥) (λ values. SaysBoth first.now second.now values.0.now values.1.now words.now) }
{
    let (one, other, rest) = take_both(first, second, words)?;
    if rest.is_empty() {
        Some((one, other))
    } else {
        None
    }
}

/// The values of two options that stand first, in any order, and the words behind them.
pub(crate) fn take_both<'a>(
    first: &str,
    second: &str,
    words: &'a [Text],
) -> Option<(&'a str, &'a str, &'a [Text])>
    requires { AreApart first.now second.now }
    ensures { MatchOption result ((one other : List ℕ) (rest : Words) → BeginsWithBoth first.now second.now one other words.now rest → ⊥)
        (λ found. BeginsWithBoth first.now second.now found.0.now found.1.now words.now found.2.now) }
{
    match take_option(first, words) {
        Some((one, rest)) => {
            let (other, rest) = take_option(second, rest)?;
            Some((one, other, rest))
        }
        None => {
            let (other, rest) = take_option(second, words)?;
            let (one, rest) = take_option(first, rest)?;
            Some((one, other, rest))
        }
    }
}

/// The value of an option that is all of the words.
pub(crate) fn only_option<'a>(flag: &str, words: &'a [Text]) -> Option<&'a str>
    ensures { MatchOption result ((value : List ℕ) → IsOption flag.now value words.now → ⊥) (λ value. IsOption flag.now value.now words.now) }
{
    let (value, rest) = take_option(flag, words)?;
    if rest.is_empty() { Some(value) } else { None }
}

/// The value of an option that stands first, and the words behind it.
fn take_option<'a>(flag: &str, words: &'a [Text]) -> Option<(&'a str, &'a [Text])>
    ensures found { IfSome result (λ found. (option : Words) × IsOption flag.now found.0.now option × (words.now ≡ option ++ found.1.now)) }
    ensures none { IfNone result ((value : List ℕ) (option rest : Words) → IsOption flag.now value option → words.now ≡ option ++ rest → ⊥) }
{
    let (first, rest) = words.split_first()?;
    if first.as_str() == flag {
        let (value, rest) = rest.split_first()?;
        return with_value(value.as_str(), rest);
    }
    let value = joined_value(flag, first.as_str())?;
    with_value(value, rest)
}

/// What stands behind the flag and a `=`.
fn joined_value<'a>(flag: &str, word: &'a str) -> Option<&'a str>
    ensures { MatchOption result ((value : List ℕ) → word.now ≢ flag.now ++ 61 ∷ value) (λ value. word.now ≡ flag.now ++ 61 ∷ value.now) }
{
    word.strip_prefix(flag)?.strip_prefix("=")
}

/// The value, if it is one, and what follows it.
fn with_value<'a>(value: &'a str, rest: &'a [Text]) -> Option<(&'a str, &'a [Text])>
    ensures { MatchOption result (IsValue value.now → ⊥) (λ found. IsValue value.now × (found.0.now ≡ value.now) × (found.1.now ≡ rest.now)) }
{
    if is_value(value) {
        Some((value, rest))
    } else {
        None
    }
}

fn is_value(value: &str) -> bool
    ensures { IsTrue result ↔ IsValue value.now }
{
    match value.as_bytes().split_first() {
        Some((first, _)) => *first != b'-',
        None => false,
    }
}
