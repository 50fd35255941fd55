// The case interface: six questions, answered from one meaning, that alter nothing.
ghost use Rattle.std.specs.Prelude.{◌≡◌, length};
ghost use Rattle.cases.specs.Meanings.{Meaning, is_oversize, options_of, rules_of, rule_length, literal_at, amount_of};
ghost use Rattle.cases.specs.Limits.{Limited, Outside};

pub trait Case {
    // What the case means.
    ghost meaning: { Self → Meaning };

    fn oversize(&self) -> bool
        ensures { result ≡ is_oversize (meaning self.now) };

    fn options(&self) -> usize
        ensures { result ≡ options_of (meaning self.now) };

    fn rules(&self) -> usize
        ensures { result ≡ length (rules_of (meaning self.now)) };

    // No Option below: what is answered where there is no such rule or literal is a number that the definitions of the questions name.

    // How many literals rule r has; 0 where there is no such rule.
    fn rule_len(&self, r: usize) -> usize
        ensures { result ≡ rule_length (meaning self.now) r };

    // The literal at place j of rule r; 255 where there is none.
    fn literal(&self, r: usize, j: usize) -> u8
        ensures { result ≡ literal_at (meaning self.now) r j };

    // The amount of a literal; 0 where there is no such literal.
    fn amount(&self, l: u8) -> u32
        ensures { result ≡ amount_of (meaning self.now) l };

    // The law of every case: it keeps the limits.
    ghost limits: { (x : Self) → Limited (meaning x) };
}

// Outside its ranges every case answers 0, 255 and 0, and an oversize one tells no options and no rules.
#[tactic(auto, using(crate::specs::Facts::Limits::outside))]
pub fn silent_outside<C: Case>(case: &C)
    ensures { Outside (C.Case.meaning case.now) }
{}
