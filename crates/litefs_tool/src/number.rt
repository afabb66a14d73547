//! A number among words.
ghost use Rattle.std.specs.Prelude.{◌≡◌, ◌<◌, ◌^◌, ℕ, List, MatchOption};
ghost use Rattle.std.specs.Str.Parse.{IsNumeral, digits_value};
ghost use Rattle.litefs_tool.specs.Words.{IsNumberRead};

use lf_base::Text;

/// The number that is all of the words.
pub(crate) fn read_number(words: &[Text]) -> Option<u64>
    ensures { IsNumberRead words.now result }
{
    let (word, rest) = words.split_first()?;
    if !rest.is_empty() {
        return None;
    }
    number_of(word.as_str())
}

/// The number that decimal digits say. A sign is refused.
fn number_of(digits: &str) -> Option<u64>
    ensures { MatchOption result (IsNumeral 10 digits.now → digits_value 10 digits.now < 2 ^ 64 → ⊥) (λ number. IsNumeral 10 digits.now × (digits_value 10 digits.now ≡ number)) }
{
    if digits.starts_with('+') {
        return None;
    }
    digits.parse::<u64>().ok()
}
