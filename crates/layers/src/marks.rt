// Choices as they are read down from a layer: an option past the end of a choice is off.
ghost use Rattle.std.specs.Prelude.{◌≡◌, ℕ, ◌<◌, ◌≤◌, ◌++◌, [], ◌∷◌, length, drop, MatchResult, nat_lt};
ghost use Rattle.cases.specs.Counted.{counted};
ghost use Rattle.cases.specs.Meanings.{is_oversize};
ghost use Rattle.cases.specs.declared.refusal.Refusal.TheVariants.{Oversize, ShortBuffer};
ghost use Rattle.layers.specs.Checks.{unless_refused};
ghost use Rattle.layers.specs.Readings.{is_on, setting_in};

use crate::setting::Setting;
use cases::case::Case;
use cases::refusal::Refusal;

// One lookup, as in `sets_literal` of cases: no plainer shared, as `is_on` is a word of this crate and cases stands below it.
pub fn is_set(choice: &[bool], v: usize) -> bool
    ensures { result ≡ is_on choice.now v }
{
    choice.get(v).copied().unwrap_or(false)
}

pub(crate) fn setting(choice: &[bool], v: usize) -> Setting
    requires { v < 56 }
    ensures { result ≡ setting_in (is_on choice.now) v }
{
    if is_set(choice, 2 * v) {
        Setting::On
    } else if is_set(choice, 2 * v + 1) {
        Setting::Off
    } else {
        Setting::Open
    }
}

// Writes the values at 0, at 1 and so on over the first n places; what stands after them stays.
fn write_front<T: Drop, F: Fn(usize) -> T>(n: usize, value: F, into: &mut [T])
    requires callable { (v : ℕ) → v < n → F.pre value v }
    requires room { n ≤ length into.old }
    ensures { (f : ℕ → T) → ((v : ℕ) (x : T) → v < n → F.post value v x → x ≡ f v) → into.new ≡ counted f n ++ drop n into.old }
{
    for (v, place) in into[..n].iter_mut().enumerate() {
        *place = value(v);
    }
}

// Reads n options down from a layer: writes the value at each, and answers how many there are. What stands after them
// stays. All that is asked of the caller is that each of the n values can be told.
pub fn read_front<L: Case, T: Drop, F: Fn(usize) -> T>(
    layer: &L,
    n: usize,
    value: F,
    into: &mut [T],
) -> Result<usize, Refusal>
    requires { (v : ℕ) → v < n → F.pre value v }
    ensures answers { result ≡ unless_refused ((is_oversize (L.Case.meaning layer.now), Oversize) ∷ (nat_lt (length into.old) n, ShortBuffer) ∷ []) n }
    ensures writes { MatchResult result (λ k. (f : ℕ → T) → ((v : ℕ) (x : T) → v < k → F.post value v x → x ≡ f v) → into.new ≡ counted f k ++ drop k into.old) (λ _. into.new ≡ into.old) }
{
    if layer.oversize() {
        return Err(Refusal::Oversize);
    }
    if into.len() < n {
        return Err(Refusal::ShortBuffer);
    }
    write_front(n, value, into);
    Ok(n)
}
