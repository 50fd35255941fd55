// Each refusal of a group and of a wish, and which of two comes first. A refused one changes nothing.
use cases::case::Case;
use cases::ladder::Ladder;
use cases::refusal::Refusal;
use groups::state::Groups;
use layers::opened::Open;
use layers::setting::Setting;
use std::test::Fail;
use wishes::state::Wishes;

const EIGHT: [u8; 8] = [0, 1, 2, 3, 4, 5, 6, 7];

// The number of the refusal, or 0: no Option, which is no plainer, as the tests compare numbers.
fn number<T: Drop>(answer: Result<T, Refusal>) -> u8 {
    answer.err().map_or(0, Refusal::number)
}

// Four groups of eight options: 112 rules more.
fn with_groups<C: Case + Drop>(below: C) -> Result<Groups<C>, Refusal> {
    let mut layer = Groups::new(below);
    for _ in 0..4 {
        layer.add(&EIGHT)?;
    }
    Ok(layer)
}

#[test]
fn groups(rt: HostRuntime) -> Result<(), Fail> {
    let mut layer = Groups::new(Ladder::new(9, 1, 2));
    assert!(rt;
        number(layer.add(&[9])) == 24 && number(layer.add(&[0, 1, 2, 3, 4, 5, 6, 7, 8])) == 24
    );
    assert!(rt;
        number(layer.add(&[9, 0])) == 22 && number(layer.add(&[2, 2])) == 25 && layer.rules() == 8
    );
    let mut layer = with_groups(Ladder::new(9, 1, 2))?;
    assert!(rt;
        number(layer.add(&[1, 0])) == 25 && number(layer.add(&[0, 1])) == 12 && layer.rules() == 120
    );
    assert!(rt; number(Groups::new(Ladder::new(57, 1, 2)).add(&[])) == 11);
    Ok(())
}

#[test]
fn wishes(rt: HostRuntime) -> Result<(), Fail> {
    let mut layer = Wishes::new(Ladder::new(9, 1, 2));
    assert!(rt;
        number(layer.add(&[18; 17], 1)) == 21
            && number(layer.add(&[0, 18], 1)) == 22
            && layer.options() == 9
    );
    for _ in 0..8 {
        layer.add(&[17; 16], 4_000_000_000)?;
    }
    assert!(rt;
        number(layer.add(&[18], 1)) == 22
            && number(layer.add(&[], 1)) == 12
            && layer.options() == 17
    );
    assert!(rt;
        layer.amount(18) == 4_000_000_000
            && number(Wishes::new(Ladder::new(57, 1, 2)).add(&[0; 17], 1)) == 11
    );
    Ok(())
}

#[test]
fn too_many_options(rt: HostRuntime) -> Result<(), Fail> {
    let mut layer = Wishes::new(Ladder::new(55, 1, 2));
    layer.add(&[0], 1)?;
    assert!(rt; number(layer.add(&[0], 1)) == 16 && layer.options() == 56 && layer.rules() == 55);
    Ok(())
}

#[test]
fn too_many_rules(rt: HostRuntime) -> Result<(), Fail> {
    let four = with_groups(with_groups(with_groups(with_groups(Ladder::new(40, 1, 2))?)?)?)?;
    let mut layer = Groups::new(four);
    assert!(rt; number(layer.add(&EIGHT)) == 16 && layer.rules() == 487);
    layer.add(&[0, 1, 2, 3, 4, 5, 6])?;
    layer.add(&[0, 1, 2])?;
    layer.add(&[0, 1])?;
    assert!(rt; number(layer.add(&[0, 1])) == 16 && layer.rules() == 512);
    let mut wishing = Wishes::new(layer);
    assert!(rt; number(wishing.add(&[0], 1)) == 16 && wishing.rules() == 512);
    Ok(())
}

#[test]
fn buffers(rt: HostRuntime) {
    let mut settings = [Setting::Off; 2];
    assert!(rt; number(Open::new(Ladder::new(3, 1, 2)).read_down(&[], &mut settings)) == 23);
    assert!(rt;
        number(Open::new(Ladder::new(29, 1, 2)).read_down(&[], &mut settings)) == 11
            && settings[0] == Setting::Off
    );
    let mut below = [true; 2];
    assert!(rt; number(Wishes::new(Ladder::new(3, 1, 2)).read_down(&[], &mut below)) == 23);
    assert!(rt;
        number(Wishes::new(Ladder::new(57, 1, 2)).read_down(&[], &mut below)) == 11 && below[0]
    );
}
