// A line read as a command.
ghost use Rattle.std.specs.Prelude.{◌≡◌, true, IfOk, codes, OnErr};
ghost use Rattle.std.specs.Option.{option_map};
ghost use Rattle.std.specs.Str.{bytes_eq};
ghost use Rattle.commands.specs.Lines.{words};
ghost use Rattle.commands.specs.Calls.{meaning, alone, run_of, add_of, called, command_of, is_add};
ghost use Rattle.commands.specs.Laws.{Spacing};
ghost use Rattle.commands.specs.Inner.Splitting.{words_left};

use crate::command::Command;
use crate::literals::read_literals;
use crate::numbers::read_budget;
use crate::words::{Words, is_named};
use std::alloc::{AllocError, Global};

// A call that takes no argument.
fn bare(command: Command, mut args: Words) -> Option<Command>
    ensures { option_map meaning result ≡ alone (meaning command) (words_left args.entry) }
{
    args.next().is_none().then_some(command)
}

fn run(mut args: Words) -> Option<Command>
    ensures { option_map meaning result ≡ run_of (words_left args.entry) }
{
    let budget = read_budget(args.next()?)?;
    bare(Command::Run(budget), args)
}

fn add(heap: Global, args: Words) -> Result<Option<Command>, AllocError>
    ensures { IfOk result (λ o. option_map meaning o ≡ add_of (words_left args.entry)) }
{
    Ok(read_literals(heap, args)?.map(Command::Add))
}

// The call of this name, with what stands behind it. A chain of tests: a match on byte strings was tried, and the proof of its last
// arm, one case for each byte at which a name can differ, did not close.
fn call(heap: Global, name: &[u8], args: Words) -> Result<Option<Command>, AllocError>
    ensures reads { IfOk result (λ o. option_map meaning o ≡ called name.now (words_left args.entry)) }
    ensures fails { OnErr result (bytes_eq name.now (codes "add") ≡ true) }
{
    if is_named(name, b"add") {
        return add(heap, args);
    }
    if is_named(name, b"withdraw") {
        return Ok(bare(Command::Withdraw, args));
    }
    if is_named(name, b"run") {
        return Ok(run(args));
    }
    if is_named(name, b"read") {
        return Ok(bare(Command::Read, args));
    }
    if is_named(name, b"tally") {
        return Ok(bare(Command::Tally, args));
    }
    Ok(None)
}

// What a line, without its break, asks for; nothing, where it is no call. An error is want of memory, which only
// an `add` can meet. And of every line: spaces more or fewer around its words make no difference.
#[tactic(auto, using(crate::proofs::Spaces::spacing))]
pub fn parse(heap: Global, line: &[u8]) -> Result<Option<Command>, AllocError>
    ensures reads { IfOk result (λ o. option_map meaning o ≡ command_of line.now) }
    ensures fails { OnErr result (is_add (words line.now) ≡ true) }
    ensures always { Spacing }
{
    let mut words = Words::of(line);
    let Some(name) = words.next() else {
        return Ok(None);
    };
    call(heap, name, words)
}
