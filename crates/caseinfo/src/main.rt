// Takes a case file from standard input, and says what it holds or why it is refused. With the word `tariff` it also says
// what the tariff over it comes to.
#![tactic(auto)]

mod report;

use report::inspect;
use std::{env, io};
use terminal::{BUFFER, fill};

// Whether the tariff is asked for. Any other word is an error.
fn wants_tariff(rt: &HostRuntime) -> io::Result<bool> {
    let mut wanted = false;
    for word in env::args(rt)?.skip(1) {
        if word.as_str() != "tariff" {
            eprintln!(rt; "usage: caseinfo [tariff] < CASEFILE")?;
            return Err(io::Error::from(io::ErrorKind::InvalidInput));
        }
        wanted = true;
    }
    Ok(wanted)
}

fn main(rt: HostRuntime) -> io::Result<()> {
    let tariff = wants_tariff(&rt)?;
    let mut buffer = [0u8; BUFFER];
    let mut copy = [0u8; BUFFER];
    let mut input = rt.stdin();
    let len = fill(&mut input, &mut buffer)?;
    match inspect(&buffer[..len], &mut copy) {
        Ok(report) => {
            println!(rt; "{report}")?;
            if tariff {
                println!(rt; "{}", report.tariff)?;
            }
            Ok(())
        }
        Err(refusal) => println!(rt; "{refusal}"),
    }
}

#[cfg(test)]
mod tests;
