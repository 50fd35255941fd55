// A case in five numbers.
ghost use Rattle.std.specs.Prelude.{◌≡◌, sum};
ghost use Rattle.cases.specs.Meanings.{amounts_of, rules_of};
ghost use Rattle.cases.specs.Summaries.{charged, longest, summary_of};

use crate::case::Case;

#[derive(Clone, Copy)]
pub struct Summary {
    pub options: usize,
    // how many amounts are not 0
    pub amounts: usize,
    pub rules: usize,
    // the literals of the longest rule
    pub longest: usize,
    // the sum of all amounts
    pub total: u64,
}

fn charged_amounts<C: Case>(case: &C) -> usize
    ensures { result ≡ charged (amounts_of (C.Case.meaning case.now)) }
{
    (0..2 * case.options())
        .filter(|l| case.amount(*l as u8) != 0)
        .count()
}

fn longest_rule<C: Case>(case: &C) -> usize
    ensures { result ≡ longest (rules_of (C.Case.meaning case.now)) }
{
    (0..case.rules())
        .map(|r| case.rule_len(r))
        .max()
        .unwrap_or(0)
}

fn total_amount<C: Case>(case: &C) -> u64
    ensures { result ≡ sum (amounts_of (C.Case.meaning case.now)) }
{
    (0..2 * case.options())
        .map(|l| u64::from(case.amount(l as u8)))
        .sum()
}

impl Summary {
    pub fn of<C: Case>(case: &C) -> Summary
        ensures { result ≡ summary_of (C.Case.meaning case.now) }
    {
        Summary {
            options: case.options(),
            amounts: charged_amounts(case),
            rules: case.rules(),
            longest: longest_rule(case),
            total: total_amount(case),
        }
    }
}
