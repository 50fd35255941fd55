// Choices, and whether a case allows them.
use cases::choices::{keeps_rule, keeps_rules, sets_literal};
use cases::ladder::Ladder;
use cases::literals::opposite;

#[test]
fn literals_and_their_complements(rt: HostRuntime) {
    assert_eq!(rt; opposite(0), 1);
    assert_eq!(rt; opposite(7), 6);
    assert_eq!(rt; opposite(255), 254);
}

#[test]
fn choices_on_a_ladder(rt: HostRuntime) {
    let ladder = Ladder::new(3, 1, 0);
    assert!(rt; keeps_rules(&ladder, &[false, false, false]));
    assert!(rt; keeps_rules(&ladder, &[true, true, false]));
    assert!(rt; !keeps_rules(&ladder, &[true, false, true]));
    assert!(rt; keeps_rule(&ladder, 0, &[true, false, true]));
    assert!(rt; !keeps_rule(&ladder, 1, &[true, false, true]));
    // there is no rule 2, and nothing keeps a rule without literals
    assert!(rt; !keeps_rule(&ladder, 2, &[true, true, true]));
    // an option that the choice does not name counts as off
    assert!(rt; sets_literal(&[true], 3));
    assert!(rt; !sets_literal(&[true], 2));
}
