// What the kinds of charge and the fold answer on examples.
use crate::charge::Charge;
use crate::fold::charge_of;
use crate::kinds::{Ranked, Sum, Worst};
use cases::ladder::Ladder;
use std::test::Fail;

// A charge added to itself so many times over.
fn doubled<K: Charge>(charge: K, times: u8) -> K {
    (0..times).fold(charge, |all, _| all.sum(all))
}

#[test]
fn guarantees_rank_before_pence(rt: HostRuntime) {
    let twice = doubled(Ranked::price(16_777_215), 1);
    let once = Ranked::price(16_777_219);
    assert!(rt; twice.not_above(once));
    assert!(rt; !once.not_above(twice));
}

#[test]
fn sums_stop_at_the_greatest_number(rt: HostRuntime) {
    assert_eq!(rt; doubled(Sum::price(1), 63).value(), 1 << 63);
    assert_eq!(rt; doubled(Sum::price(1), 64).value(), u64::MAX);
    assert_eq!(rt; doubled(Worst::price(u32::MAX), 1).value(), u32::MAX);
    let pence = doubled(Ranked::price(3), 31);
    assert_eq!(rt; pence.lost(), 0);
    assert_eq!(rt; pence.pence(), u32::MAX);
    let lost = doubled(Ranked::price(1 << 24), 32);
    assert_eq!(rt; lost.lost(), u32::MAX);
    assert_eq!(rt; lost.pence(), u32::MAX);
}

#[test]
fn one_fold_serves_every_kind(rt: HostRuntime) -> Result<(), Fail> {
    let ladder = Ladder::new(3, 5, 16_777_219);
    let literals = [1, 2, 4];
    let sum: Sum = charge_of(&ladder, &literals);
    assert_eq!(rt; sum.to_string(rt.alloc())?.as_str(), "16777229");
    let worst: Worst = charge_of(&ladder, &literals);
    assert_eq!(rt; worst.to_string(rt.alloc())?.as_str(), "16777219");
    let ranked: Ranked = charge_of(&ladder, &literals);
    assert_eq!(rt; ranked.to_string(rt.alloc())?.as_str(), "1 13");
    Ok(())
}
