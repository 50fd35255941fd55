// The number that a word writes.
ghost use Rattle.std.specs.Prelude.{◌≡◌};
ghost use Rattle.std.specs.Option.{option_map};
ghost use Rattle.commands.specs.Numbers.{number, budget, literal};
ghost use Rattle.commands.specs.Inner.Capping.{capped};

// One more than the largest budget: what every number above is read as. A cap and no error: a budget refuses it, and a literal keeps it.
const ABOVE: u128 = 1 << 64;

// The literal that no case has. A number and no Option: the definition of a line keeps 255 for it.
const NO_LITERAL: u8 = 255;

// What the digits write, but never above that; nothing, where the word is no number.
fn capped_number(word: &[u8]) -> Option<u128>
    ensures { result ≡ option_map capped (number word.now) }
{
    if word.is_empty() {
        return None;
    }
    // digit by digit: `parse` takes a plus sign and refuses what is too large, and a call does neither
    let mut n: u128 = 0;
    for b in word {
        if !b.is_ascii_digit() {
            return None;
        }
        n = ABOVE.min(n * 10 + u128::from(*b - b'0'));
    }
    Some(n)
}

// A number that fits 64 bits.
pub(crate) fn read_budget(word: &[u8]) -> Option<u64>
    ensures { result ≡ budget word.now }
{
    u64::try_from(capped_number(word)?).ok()
}

// A number, with 255 for every one above.
pub(crate) fn read_literal(word: &[u8]) -> Option<u8>
    ensures { result ≡ literal word.now }
{
    let n = capped_number(word)?;
    Some(u8::try_from(n).unwrap_or(NO_LITERAL))
}
