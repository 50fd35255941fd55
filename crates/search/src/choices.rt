// The best choice, as the tables hold it and as it is shown.
ghost use Rattle.std.specs.Prelude.{◌≡◌, ℕ, ◌≤◌, length, take};
ghost use Rattle.cases.specs.Choices.{sets, keeps};
ghost use Rattle.calculus.specs.Calls.{written};
ghost use Rattle.calculus.specs.Changes.{choice_of};
ghost use Rattle.literals.specs.Members.{member};

use cases::choices::sets_literal;
use literals::LiteralSet;
use std::array;

// The choice whose literals are in the set: of n options the first n places have it.
// An array: the places from n on are never looked at, and n is the pile's to say.
pub fn chosen(set: &LiteralSet) -> [bool; 56]
    ensures full { length result ≡ 56 }
    ensures first { (n : ℕ) → n ≤ 56 → take n result ≡ choice_of n (member set.now) }
{
    array::from_fn(|v| set.has((2 * v) as u8))
}

// Whether the choice sets one of the literals.
pub fn sets_one(choice: &[bool], literals: &[u8]) -> bool
    ensures { result ≡ keeps (sets choice.now) literals.now }
{
    literals.iter().any(|l| sets_literal(choice, *l))
}

// Writes 1 or 0 for each option of the choice; what stands after them stays. The layers' own such function is private to them.
pub fn write_marks(choice: &[bool], out: &mut [u8])
    requires { length choice.now ≤ length out.old }
    ensures { out.new ≡ written choice.now out.old }
{
    // no zip over out.iter_mut(): of what a zip over it writes, a proof knows nothing
    for (v, on) in choice.iter().enumerate() {
        out[v] = u8::from(*on);
    }
}
