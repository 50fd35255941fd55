// Piles of all four layers, with answers that were worked out by hand.
use cases::case::Case;
use cases::ladder::Ladder;
use groups::state::Groups;
use layers::opened::Open;
use layers::setting::Setting;
use layers::tariff::Tariff;
use std::test::Fail;
use wishes::state::Wishes;

// Whether rule r is `literals`, and has nothing after them.
fn has_rule<C: Case>(case: &C, r: usize, literals: &[u8]) -> bool {
    literals
        .iter()
        .enumerate()
        .all(|(j, l)| case.literal(r, j) == *l)
        && case.rule_len(r) == literals.len()
        && case.literal(r, literals.len()) == 255
}

// Whether the rules are those told, each as its length and its literals, and no rule comes after them.
fn has_rules<C: Case>(case: &C, rules: &[u8]) -> bool {
    let mut rest = rules;
    // a case tells its rules by number, so there is no slice to go over
    for r in 0..case.rules() {
        let Some((len, after)) = rest.split_first() else {
            return false;
        };
        let Some((rule, later)) = after.split_at_checked(usize::from(*len)) else {
            return false;
        };
        if !has_rule(case, r, rule) {
            return false;
        }
        rest = later;
    }
    rest.is_empty() && has_rule(case, case.rules(), &[])
}

// Whether the first literals have these amounts, and the next one none.
fn has_amounts<C: Case>(case: &C, amounts: &[u32]) -> bool {
    (0..=255u8).zip(amounts).all(|(l, a)| case.amount(l) == *a)
        && u8::try_from(amounts.len()).is_ok_and(|l| case.amount(l) == 0)
}

fn tells<C: Case>(case: &C, options: usize, rules: &[u8], amounts: &[u32]) -> bool {
    !case.oversize()
        && case.options() == options
        && has_rules(case, rules)
        && has_amounts(case, amounts)
}

#[test]
fn open_on_top(rt: HostRuntime) -> Result<(), Fail> {
    let mut wishing = Wishes::new(Tariff::new(Ladder::new(3, 4, 20)));
    wishing.add(&[1, 4], 7)?;
    let mut grouped = Groups::new(wishing);
    grouped.add(&[0, 2, 3])?;
    let rules = [
        2, 6, 0, 2, 10, 4, 3, 2, 8, 12, 2, 2, 10, 2, 2, 14, 2, 10, 14, 2, 1, 3, 2, 5, 7, 2, 9, 11,
        2, 13, 15,
    ];
    let amounts = [5, 0, 450, 0, 5, 0, 450, 0, 5, 0, 450, 0, 7, 0, 0, 0];
    assert!(rt; tells(&Open::new(grouped), 8, &rules, &amounts));
    Ok(())
}

#[test]
fn tariff_on_top(rt: HostRuntime) -> Result<(), Fail> {
    let mut grouped = Groups::new(Open::new(Ladder::new(2, 4, 20)));
    grouped.add(&[1, 2])?;
    let mut wishing = Wishes::new(grouped);
    wishing.add(&[0, 7], 100)?;
    wishing.add(&[], 15)?;
    let rules = [2, 6, 0, 2, 1, 3, 2, 5, 7, 2, 3, 5, 3, 0, 7, 8, 1, 10];
    let amounts = [5, 0, 450, 0, 5, 0, 450, 0, 450, 0, 450, 0];
    assert!(rt; tells(&Tariff::new(wishing), 6, &rules, &amounts));
    Ok(())
}

#[test]
fn open_over_ladders(rt: HostRuntime) {
    let full = Open::new(Ladder::new(28, 1, 2));
    assert!(rt; !full.oversize() && full.options() == 56 && full.rules() == 55);
    let over = Tariff::new(Open::new(Ladder::new(29, 1, 2)));
    assert!(rt;
        over.oversize() && over.options() == 0 && has_rules(&over, &[]) && has_amounts(&over, &[])
    );
}

#[test]
fn read_down(rt: HostRuntime) -> Result<(), Fail> {
    let mut settings = [Setting::Off; 4];
    let n = Open::new(Ladder::new(3, 1, 2)).read_down(&[true, false, false, true], &mut settings)?;
    assert!(rt; n == 3 && settings == [Setting::On, Setting::Off, Setting::Open, Setting::Off]);
    let mut wishing = Wishes::new(Ladder::new(3, 1, 2));
    wishing.add(&[0], 1)?;
    let mut below = [true; 4];
    let n = wishing.read_down(&[true, false], &mut below)?;
    assert!(rt; n == 3 && below == [true, false, false, true]);
    Ok(())
}
