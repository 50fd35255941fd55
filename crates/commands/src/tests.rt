// Lines, and what each asks for.
use crate::command::Command;
use crate::parse::parse;
use std::alloc::Global;
use std::process::Abort;
use std::test::Fail;

// The command as text, or a question mark for a line that is no call.
fn asked(heap: Global, line: &[u8]) -> Result<String, Fail> {
    let text = match parse(heap, line)? {
        Some(Command::Add(literals)) => format!(in heap; "add {literals:?}")?,
        Some(Command::Withdraw) => format!(in heap; "withdraw")?,
        Some(Command::Run(budget)) => format!(in heap; "run {budget}")?,
        Some(Command::Read) => format!(in heap; "read")?,
        Some(Command::Tally) => format!(in heap; "tally")?,
        None => format!(in heap; "?")?,
    };
    Ok(text)
}

// Each of the lines asks for this.
fn each_asks(rt: &impl Abort, heap: Global, lines: &[&[u8]], wanted: &str) -> Result<(), Fail> {
    for line in lines {
        assert_eq!(rt; asked(heap, *line)?.as_str(), wanted);
    }
    Ok(())
}

#[test]
fn the_calls(rt: HostRuntime) -> Result<(), Fail> {
    each_asks(
        &rt,
        rt.alloc(),
        &[b"withdraw", b" withdraw", b"withdraw   "],
        "withdraw",
    )?;
    each_asks(&rt, rt.alloc(), &[b"read", b"   read "], "read")?;
    each_asks(&rt, rt.alloc(), &[b"tally", b"tally "], "tally")?;
    each_asks(&rt, rt.alloc(), &[b"add", b"add  "], "add []")?;
    each_asks(
        &rt,
        rt.alloc(),
        &[b"add 3 0 3", b"  add   3 00 0003 "],
        "add [3, 0, 3]",
    )?;
    each_asks(&rt, rt.alloc(), &[b"run 70", b" run  070 "], "run 70")
}

#[test]
fn large_numbers(rt: HostRuntime) -> Result<(), Fail> {
    each_asks(
        &rt,
        rt.alloc(),
        &[b"run 18446744073709551615"],
        "run 18446744073709551615",
    )?;
    each_asks(
        &rt,
        rt.alloc(),
        &[
            b"run 18446744073709551616",
            b"run 99999999999999999999999999999999999999999",
        ],
        "?",
    )?;
    each_asks(
        &rt,
        rt.alloc(),
        &[b"add 254 255 256 300 99999999999999999999999"],
        "add [254, 255, 255, 255, 255]",
    )
}

#[test]
fn no_calls(rt: HostRuntime) -> Result<(), Fail> {
    each_asks(
        &rt,
        rt.alloc(),
        &[b"", b" ", b"    ", b"7", b"ad", b"adds", b"runs 3", b"quit"],
        "?",
    )?;
    each_asks(
        &rt,
        rt.alloc(),
        &[
            b"READ",
            b"Read",
            b"tally\t",
            b"\tread",
            b"add\t3",
            b"add 3\t4",
        ],
        "?",
    )?;
    each_asks(
        &rt,
        rt.alloc(),
        &[
            b"withdraw 1",
            b"read read",
            b"tally 0",
            b"run",
            b"run ",
            b"run 1 2",
        ],
        "?",
    )?;
    each_asks(
        &rt,
        rt.alloc(),
        &[
            b"run -1",
            b"run 1a",
            b"run x",
            b"add x",
            b"add 1 2 x",
            b"add 1, 2",
        ],
        "?",
    )
}
