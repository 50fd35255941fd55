// Whether a choice is allowed by a case.
ghost use Rattle.std.specs.Prelude.{◌≡◌, [], slice_index_or};
ghost use Rattle.cases.specs.Choices.{sets, keeps, keeps_all};
ghost use Rattle.cases.specs.Meanings.{rules_of};

use crate::case::Case;

// Whether the choice sets the literal. An option past its end counts as off.
#[tactic(auto, unfolding(crate::specs::Choices::sets))]
pub fn sets_literal(choice: &[bool], l: u8) -> bool
    ensures { result ≡ sets choice.now l }
{
    // `is_set` of layers looks up the same way: no helper for both, as it is one call of the library
    let on = choice.get(l as usize / 2).copied().unwrap_or(false);
    on == (l % 2 == 0)
}

// Whether it sets one of the literals of rule r.
pub fn keeps_rule<C: Case>(case: &C, r: usize, choice: &[bool]) -> bool
    ensures { result ≡ keeps (sets choice.now) (slice_index_or (rules_of (C.Case.meaning case.now)) r []) }
{
    (0..case.rule_len(r)).any(|j| sets_literal(choice, case.literal(r, j)))
}

// Whether the choice keeps all rules of the case.
pub fn keeps_rules<C: Case>(case: &C, choice: &[bool]) -> bool
    ensures { result ≡ keeps_all (sets choice.now) (rules_of (C.Case.meaning case.now)) }
{
    (0..case.rules()).all(|r| keeps_rule(case, r, choice))
}
