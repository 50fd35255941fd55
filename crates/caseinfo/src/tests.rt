// What is printed of some files.
use super::*;
use std::alloc::Global;
use std::test::Fail;

// Two options, four amounts, one rule. The files of trials write it out too: tests hand nothing to another crate.
const TWO: &[u8; 45] =
    b"\x01\0\x02\0\x02\x02\0\x05\0\0\0\0\x05\x02\0\x05\x01\0\0\0\x01\x02\0\x05\x02\0\0\0\x02\x02\0\x05\x03\0\0\0\x03\x03\0\x02\0\x02\x04\0\0";

fn printed(heap: Global, bytes: &[u8], copy: &mut [u8]) -> Result<String, Fail> {
    Ok(match inspect(bytes, copy) {
        Ok(report) => format!(in heap; "{report}")?,
        Err(refusal) => format!(in heap; "{refusal}")?,
    })
}

#[test]
fn the_two_option_file(rt: HostRuntime) -> Result<(), Fail> {
    let mut copy = [0u8; 64];
    let text = printed(rt.alloc(), TWO, &mut copy)?;
    assert_eq!(rt;
        text.as_str(),
        "options 2\namounts 4\nrules 1\nlongest 2\nbytes 45\nwritten again 45 equal"
    );
    let mut short = [0u8; 44];
    let refused = printed(rt.alloc(), TWO, &mut short)?;
    assert_eq!(rt;
        refused.as_str(),
        "options 2\namounts 4\nrules 1\nlongest 2\nbytes 45\nwritten again refused 23"
    );
    Ok(())
}

// Amount 5 is class 5 of the tariff, 8 pence.
#[test]
fn the_tariff_over_it(rt: HostRuntime) -> Result<(), Fail> {
    let mut copy = [0u8; 64];
    match inspect(TWO, &mut copy) {
        Ok(report) => {
            let priced = report.tariff;
            let text = format!(in rt.alloc(); "{priced}")?;
            assert_eq!(rt;
                text.as_str(),
                "tariff options 2\ntariff rules 1\ntariff total 14"
            );
            Ok(())
        }
        Err(_) => {
            assert!(rt; false);
            Ok(())
        },
    }
}

#[test]
fn refused_files(rt: HostRuntime) -> Result<(), Fail> {
    let mut copy = [0u8; 64];
    let mut damaged = *TWO;
    damaged[41] = 4;
    let literal = printed(rt.alloc(), &damaged, &mut copy)?;
    assert_eq!(rt; literal.as_str(), "refused 6 37");
    let nothing = printed(rt.alloc(), &[], &mut copy)?;
    assert_eq!(rt; nothing.as_str(), "refused 1 0");
    let trailing = printed(rt.alloc(), b"\x01\0\x02\0\0\x04\0\0\0", &mut copy)?;
    assert_eq!(rt; trailing.as_str(), "refused 10 8");
    Ok(())
}
