// Cases written into buffers that are long enough, and into some that are not.
use super::files::TWO;
use casefile::file::FileCase;
use casefile::writer::{encoded_len, write};
use cases::case::Case;
use cases::ladder::Ladder;
use cases::refusal::Refusal;
use cases::summary::Summary;

const LADDER: &[u8; 42] =
    b"\x01\0\x02\0\x03\x02\0\x05\x01\0\0\0\x07\x02\0\x05\x03\0\0\0\x07\x02\0\x05\x05\0\0\0\x07\x03\0\x02\x03\0\x03\0\x02\x05\x02\x04\0\0";

#[test]
fn a_ladder_of_three(rt: HostRuntime) {
    let ladder = Ladder::new(3, 0, 7);
    let mut out = [9u8; 44];
    assert_eq!(rt; encoded_len(&ladder), 42);
    assert_eq!(rt; write(&ladder, &mut out), Ok(42));
    assert!(rt; out[0..42] == LADDER[..]);
    // the bytes after it stay
    assert_eq!(rt; out[42], 9);
    assert_eq!(rt; out[43], 9);
    let reading = FileCase::open(&out[0..42]);
    assert!(rt; reading.is_ok());
    let case = reading.unwrap();
    assert_eq!(rt; case.rules(), ladder.rules());
    assert_eq!(rt; case.literal(1, 0), 5);
    assert_eq!(rt; case.literal(1, 1), 2);
}

#[test]
fn refusals_write_nothing(rt: HostRuntime) {
    let mut out = [9u8; 41];
    assert_eq!(rt;
        write(&Ladder::new(3, 0, 7), &mut out),
        Err(Refusal::ShortBuffer)
    );
    // oversize before a short buffer
    assert_eq!(rt;
        write(&Ladder::new(57, 1, 1), &mut out),
        Err(Refusal::Oversize)
    );
    assert!(rt; out == [9u8; 41]);
    assert_eq!(rt; Refusal::Oversize.number(), 11);
    assert_eq!(rt; Refusal::ShortBuffer.number(), 23);
}

#[test]
fn a_file_written_again(rt: HostRuntime) {
    let reading = FileCase::open(&TWO);
    assert!(rt; reading.is_ok());
    let case = reading.unwrap();
    let mut out = [9u8; 46];
    assert_eq!(rt; case.rewrite(&mut out), Ok(45));
    assert!(rt; out[0..45] == TWO[..]);
    assert_eq!(rt; out[45], 9);
    let mut short = [9u8; 44];
    assert_eq!(rt; case.rewrite(&mut short), Err(Refusal::ShortBuffer));
    assert!(rt; short == [9u8; 44]);
}

#[test]
fn ladders_by_their_size(rt: HostRuntime) {
    assert_eq!(rt; Ladder::new(56, 1, 1).options(), 56);
    assert_eq!(rt; Ladder::new(56, 1, 1).rules(), 55);
    assert!(rt; Ladder::new(57, 1, 1).oversize());
    assert_eq!(rt; Ladder::new(57, 1, 1).options(), 0);
    assert_eq!(rt; Ladder::new(57, 1, 1).rules(), 0);
    assert_eq!(rt; Ladder::new(57, 1, 1).amount(0), 0);
    assert_eq!(rt; Ladder::new(0, 1, 1).rules(), 0);
    let s = Summary::of(&Ladder::new(4, 0, 9));
    assert_eq!(rt; (s.options, s.amounts), (4, 4));
    assert_eq!(rt; (s.rules, s.longest), (3, 2));
}
