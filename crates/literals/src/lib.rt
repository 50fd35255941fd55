// A set of literals in one word: a bit for each of the literals below 128, which is more than any case has.
#![tactic(auto)]

ghost use Rattle.std.specs.Prelude.{◌≡◌, ℕ, ◌<◌, true, false, not, ◌&&◌, ◌||◌, MatchOption, ◌==◌, nat_lt};
ghost use Rattle.literals.specs.Members.{member, OnlyOne, Lowest};

#[derive(Clone, Copy)]
pub struct LiteralSet {
    bits: u128,
}

// How many literals a set tells apart.
pub const SPAN: u8 = 128;

// Each contract says of each number whether it is a member: a Model asks for a coded value, and a function of numbers is none.
impl LiteralSet {
    pub fn empty() -> LiteralSet
        ensures { (k : ℕ) → member result k ≡ false }
    {
        LiteralSet { bits: 0 }
    }

    // All literals below a bound.
    pub fn below(end: u8) -> LiteralSet
        ensures { (k : ℕ) → member result k ≡ (nat_lt k end && nat_lt k 128) }
    {
        if end < SPAN {
            LiteralSet {
                bits: (1 << end) - 1,
            }
        } else {
            LiteralSet { bits: u128::MAX }
        }
    }

    pub fn has(&self, l: u8) -> bool
        ensures { result ≡ member self.now l }
    {
        let bits = self.bits;
        l < SPAN && (bits >> l) & 1 == 1
    }

    // One literal more. The set has no place for one past its span, and stays as it is.
    pub fn insert(&mut self, l: u8)
        ensures { (k : ℕ) → member self.new k ≡ ((k == l && nat_lt k 128) || member self.old k) }
    {
        if l < SPAN {
            self.bits |= 1 << l;
        }
    }

    pub fn remove(&mut self, l: u8)
        ensures { (k : ℕ) → member self.new k ≡ (not (k == l) && member self.old k) }
    {
        let bits = self.bits;
        if l < SPAN {
            self.bits = bits & !(1 << l);
        }
    }

    pub fn union(&mut self, other: &LiteralSet)
        ensures { (k : ℕ) → member self.new k ≡ (member self.old k || member other.now k) }
    {
        self.bits |= other.bits;
    }

    // The literals that are in both.
    pub fn meet(&self, other: &LiteralSet) -> LiteralSet
        ensures { (k : ℕ) → member result k ≡ (member self.now k && member other.now k) }
    {
        LiteralSet {
            bits: self.bits & other.bits,
        }
    }

    // The literals that are not in the other.
    pub fn without(&self, other: &LiteralSet) -> LiteralSet
        ensures { (k : ℕ) → member result k ≡ (not (member other.now k) && member self.now k) }
    {
        LiteralSet {
            bits: self.bits & !other.bits,
        }
    }

    pub fn is_empty(&self) -> bool
        ensures yes { result ≡ true → (k : ℕ) → member self.now k ≡ false }
        ensures no { ((k : ℕ) → k < 128 → member self.now k ≡ false) → result ≡ true }
    {
        self.bits == 0
    }

    // The one literal of a set that has just one.
    pub fn only(&self) -> Option<u8>
        ensures { MatchOption result ((l : ℕ) → OnlyOne self.now l → ⊥) (λ l. OnlyOne self.now l) }
    {
        if self.bits.is_power_of_two() {
            self.first()
        } else {
            None
        }
    }

    // The lowest literal of the set.
    pub fn first(&self) -> Option<u8>
        ensures { MatchOption result ((k : ℕ) → member self.now k ≡ false) (λ l. Lowest self.now l) }
    {
        (self.bits != 0).then(|| self.bits.trailing_zeros() as u8)
    }
}
