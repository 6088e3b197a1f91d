//! Numbers between words of a line.
ghost use Rattle.std.specs.Prelude.{◌≡◌, ◌≢◌, ◌+◌, ◌<◌, ◌^◌, ◌++◌, ◌∷◌, List, ℕ, MatchOption, decimal};
ghost use Rattle.std.specs.Prelude.{IfErr, IfOk, MatchResult, ⊤};

use crate::refusal::Cause;

/// The number that stands after a word, and what stands behind its end, where a text is written
/// so; of another text some number, or none.
pub(crate) fn number_after<'a>(text: &'a str, word: &str, end: char) -> Option<(u128, &'a str)>
    requires { end < 48 }
    ensures { (n : ℕ) (rest : List ℕ) → n < 2 ^ 128
        → text.now ≡ word.now ++ (decimal n ++ end ∷ rest)
        → MatchOption result ⊥ (λ found. (found.0 ≡ n) × (found.1.now ≡ rest)) }
{
    let Some(after) = text.strip_prefix(word) else {
        return None;
    };
    let Some((digits, rest)) = after.split_once(end) else {
        return None;
    };
    match digits.parse::<u128>() {
        Ok(number) => Some((number, rest)),
        Err(_) => None,
    }
}

/// The same of a number that fits 64 bits.
pub(crate) fn count_after<'a>(text: &'a str, word: &str, end: char) -> Option<(u64, &'a str)>
    requires { end < 48 }
    ensures { (n : ℕ) (rest : List ℕ) → n < 2 ^ 64
        → text.now ≡ word.now ++ (decimal n ++ end ∷ rest)
        → MatchOption result ⊥ (λ found. (found.0 ≡ n) × (found.1.now ≡ rest)) }
{
    let Some((number, rest)) = number_after(text, word, end) else {
        return None;
    };
    match u64::try_from(number) {
        Ok(count) => Some((count, rest)),
        Err(_) => None,
    }
}

/// The sum of two counts, which no reports that fit on a disk exceed.
pub fn plus(total: u64, count: u64) -> Result<u64, Cause>
    ensures sum { IfOk result (λ sum. sum ≡ total + count) }
    ensures fits { total + count < 2 ^ 64 → MatchResult result (λ _. ⊤) (λ _. ⊥) }
    ensures other { IfErr result (λ cause. cause ≢ Cause.Output) }
{
    match total.checked_add(count) {
        Some(sum) => Ok(sum),
        None => Err(Cause::OtherCount),
    }
}
