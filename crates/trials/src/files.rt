// Byte strings, good and damaged, and how each is judged.
use casefile::fault::{Fault, FileRefusal};
use casefile::file::FileCase;
use casefile::writer::encoded_len;
use cases::case::Case;
use std::test::Fail;

// Two options, an amount for each literal, one rule. The tests of caseinfo write it out too: tests hand nothing to another crate.
pub const TWO: [u8; 45] =
    *b"\x01\0\x02\0\x02\x02\0\x05\0\0\0\0\x05\x02\0\x05\x01\0\0\0\x01\x02\0\x05\x02\0\0\0\x02\x02\0\x05\x03\0\0\0\x03\x03\0\x02\0\x02\x04\0\0";

// The refusal's number and place; (0, 0) for an accepted file, which no refusal has: the expected values are pairs of numbers.
fn judged(bytes: &[u8]) -> (u8, usize) {
    match FileCase::open(bytes) {
        Ok(_) => (0, 0),
        Err(refusal) => (refusal.fault.number(), refusal.place),
    }
}

// Where the field begins that byte `at` of TWO belongs to.
fn field_of(at: usize) -> usize {
    [5, 13, 21, 29, 37, 42]
        .into_iter()
        .filter(|place| *place <= at)
        .last()
        .unwrap_or(0)
}

#[test]
fn the_two_option_file(rt: HostRuntime) {
    let reading = FileCase::open(&TWO);
    assert!(rt; reading.is_ok());
    let case = reading.unwrap();
    assert!(rt; !case.oversize());
    assert_eq!(rt; case.options(), 2);
    assert_eq!(rt; case.rules(), 1);
    assert_eq!(rt; case.rule_len(0), 2);
    assert_eq!(rt; case.literal(0, 0), 0);
    assert_eq!(rt; case.literal(0, 1), 2);
    assert_eq!(rt; case.amount(0), 5);
    assert_eq!(rt; case.amount(3), 3);
}

#[test]
fn outside_the_ranges(rt: HostRuntime) {
    let reading = FileCase::open(&TWO);
    assert!(rt; reading.is_ok());
    let case = reading.unwrap();
    assert_eq!(rt; case.rule_len(1), 0);
    assert_eq!(rt; case.literal(0, 2), 255);
    assert_eq!(rt; case.literal(1, 0), 255);
    assert_eq!(rt; case.literal(usize::MAX, usize::MAX), 255);
    assert_eq!(rt; case.amount(4), 0);
    assert_eq!(rt; case.amount(255), 0);
}

// The case that a caller may take in place of a file that is refused.
#[test]
fn the_empty_file(rt: HostRuntime) {
    let case = FileCase::empty();
    assert_eq!(rt; case.options(), 0);
    assert_eq!(rt; case.rules(), 0);
    assert_eq!(rt; encoded_len(&case), 8);
}

#[test]
fn cut_at_each_byte(rt: HostRuntime) {
    for len in 0..45 {
        assert_eq!(rt; judged(&TWO[0..len]), (1, field_of(len)));
    }
    assert_eq!(rt; judged(&TWO), (0, 0));
}

#[test]
fn bytes_after_the_end(rt: HostRuntime) {
    let mut longer = [0u8; 48];
    longer[..45].copy_from_slice(&TWO);
    assert_eq!(rt; judged(&longer[0..46]), (10, 45));
    assert_eq!(rt; judged(&longer), (10, 45));
    longer[45] = 4;
    assert_eq!(rt; judged(&longer), (10, 45));
}

#[test]
fn unknown_tags_and_tags_out_of_order(rt: HostRuntime) {
    assert_eq!(rt; judged(b"\0\0\0"), (2, 0));
    assert_eq!(rt; judged(b"\x05\0\0"), (2, 0));
    assert_eq!(rt; judged(b"\xff\xff\xff"), (2, 0));
    assert_eq!(rt; judged(b"\x02\0\x05\0\0\0\0\x01"), (4, 0));
    assert_eq!(rt; judged(b"\x03\0\0"), (4, 0));
    assert_eq!(rt; judged(b"\x04\0\0"), (4, 0));
    assert_eq!(rt; judged(b"\x01\0\x02\0\x01\x01\0\x02\0\x01\x04\0\0"), (4, 5));
    assert_eq!(rt;
        judged(b"\x01\0\x02\0\x01\x03\0\0\x02\0\x05\0\0\0\0\x01\x04\0\0"),
        (4, 8)
    );
    assert_eq!(rt;
        judged(b"\x01\0\x02\0\x01\x03\0\0\x01\0\x02\0\x01\x04\0\0"),
        (4, 8)
    );
}

#[test]
fn lengths_that_do_not_fit(rt: HostRuntime) {
    assert_eq!(rt; judged(b"\x01\0\x01\0"), (3, 0));
    assert_eq!(rt; judged(b"\x01\0\x03\0\0\x02"), (3, 0));
    assert_eq!(rt; judged(b"\x01\xff\xff"), (3, 0));
    assert_eq!(rt; judged(b"\x01\0\x02\0\x01\x02\0\x04\0\0\0\x01"), (3, 5));
    assert_eq!(rt; judged(b"\x01\0\x02\0\x01\x02\xff\xff"), (3, 5));
    assert_eq!(rt; judged(b"\x01\0\x02\0\x01\x03\0\x19"), (3, 5));
    assert_eq!(rt; judged(b"\x01\0\x02\0\x01\x03\xff\xff"), (3, 5));
    assert_eq!(rt; judged(b"\x01\0\x02\0\x01\x03\x01\0"), (3, 5));
    assert_eq!(rt; judged(b"\x01\0\x02\0\x01\x04\0\x01\0"), (3, 5));
    assert_eq!(rt; judged(b"\x01\0\x02\0\x01\x04\xff\xff"), (3, 5));
}

#[test]
fn numbers_out_of_range(rt: HostRuntime) {
    assert_eq!(rt; judged(b"\x01\0\x02\0\x38\x04\0\0"), (0, 0));
    assert_eq!(rt; judged(b"\x01\0\x02\0\x39\x04\0\0"), (5, 0));
    assert_eq!(rt; judged(b"\x01\0\x02\x01\0\x04\0\0"), (5, 0));
    assert_eq!(rt;
        judged(b"\x01\0\x02\0\x01\x02\0\x05\x02\0\0\0\x01\x04\0\0"),
        (6, 5)
    );
    assert_eq!(rt;
        judged(b"\x01\0\x02\0\x01\x03\0\x02\x01\x02\x04\0\0"),
        (6, 5)
    );
    assert_eq!(rt; judged(b"\x01\0\x02\0\0\x03\0\0\x04\0\0"), (0, 0));
    let mut damaged = TWO;
    damaged[41] = 4;
    assert_eq!(rt; judged(&damaged), (6, 37));
}

#[test]
fn amounts_that_rise_and_are_not_zero(rt: HostRuntime) {
    assert_eq!(rt;
        judged(b"\x01\0\x02\0\x01\x02\0\x05\x01\0\0\0\x01\x02\0\x05\0\0\0\0\x01\x04\0\0"),
        (7, 13)
    );
    assert_eq!(rt;
        judged(b"\x01\0\x02\0\x01\x02\0\x05\x01\0\0\0\x01\x02\0\x05\x01\0\0\0\x01\x04\0\0"),
        (7, 13)
    );
    assert_eq!(rt;
        judged(b"\x01\0\x02\0\x01\x02\0\x05\x01\0\0\0\0\x04\0\0"),
        (8, 5)
    );
}

// Where a field has two faults, the one that is checked first counts.
#[test]
fn pairs_of_faults(rt: HostRuntime) {
    // cut in the header before the unknown tag
    assert_eq!(rt; judged(b"\x09\0"), (1, 0));
    // an unknown tag before its length
    assert_eq!(rt; judged(b"\x09\xff\xff"), (2, 0));
    // out of order before its length
    assert_eq!(rt; judged(b"\x04\0\x09"), (4, 0));
    // the length before the cut content
    assert_eq!(rt; judged(b"\x01\0\x09\0"), (3, 0));
    // the cut content before the number of options
    assert_eq!(rt; judged(b"\x01\0\x02\xff"), (1, 0));
    // no such literal before not rising and before an amount of 0
    assert_eq!(rt;
        judged(b"\x01\0\x02\0\x01\x02\0\x05\x01\0\0\0\x01\x02\0\x05\x09\0\0\0\0\x04\0\0"),
        (6, 13)
    );
    // not rising before an amount of 0
    assert_eq!(rt;
        judged(b"\x01\0\x02\0\x01\x02\0\x05\x01\0\0\0\x01\x02\0\x05\0\0\0\0\0\x04\0\0"),
        (7, 13)
    );
    // the first faulty field counts
    assert_eq!(rt;
        judged(b"\x01\0\x02\0\x01\x02\0\x05\x01\0\0\0\0\x09\x09\x09"),
        (8, 5)
    );
}

// No options and so many empty rules; answers the length, and 0 where there is no room for the end. An array and its length: the tests
// damage bytes of it by their places, as this writes the tags by theirs.
fn with_rules(bytes: &mut [u8; 1552], count: usize) -> usize {
    bytes[0] = 1;
    bytes[2] = 2;
    for r in 0..count.min(513) {
        bytes[5 + 3 * r] = 3;
    }
    if count < 514 {
        bytes[5 + 3 * count] = 4;
        return 8 + 3 * count;
    }
    0
}

#[test]
fn five_hundred_and_thirteen_rules(rt: HostRuntime) {
    let mut bytes = [0u8; 1552];
    let len = with_rules(&mut bytes, 512);
    assert!(rt; len <= 1552);
    assert_eq!(rt; judged(&bytes[0..len]), (0, 0));
    let mut more = [0u8; 1552];
    let longer = with_rules(&mut more, 513);
    assert!(rt; longer <= 1552);
    assert_eq!(rt; judged(&more[0..longer]), (9, 1541));
    // the number of rules before their literals, and the cut content before both
    more[1543] = 1;
    more[1544] = 200;
    assert_eq!(rt; judged(&more[0..longer]), (9, 1541));
    more[1543] = 24;
    assert_eq!(rt; judged(&more[0..longer]), (1, 1541));
}

#[test]
fn refusals_as_text(rt: HostRuntime) -> Result<(), Fail> {
    let refusal = FileRefusal {
        fault: Fault::Trailing,
        place: 45,
    };
    let text = format!(in rt.alloc(); "{refusal}")?;
    assert_eq!(rt; text.as_str(), "refused 10 45");
    Ok(())
}
