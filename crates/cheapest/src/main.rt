// Takes a case file from standard input, searches the tariff over it, and prints the verdict, the cheapest choice with its
// charge, and the counts.
#![tactic(auto)]

use casefile::file::FileCase;
use cases::case::Case;
use charges::kinds::Sum;
use layers::tariff::Tariff;
use search::search::Search;
use std::io;
use terminal::{BUFFER, fill};

fn main(rt: HostRuntime) -> io::Result<()> {
    let mut buffer = [0u8; BUFFER];
    let mut input = rt.stdin();
    let len = fill(&mut input, &mut buffer)?;
    let case = match FileCase::open(&buffer[..len]) {
        Ok(case) => case,
        Err(refusal) => return println!(rt; "{refusal}"),
    };
    let n = case.options();
    let mut s: Search<Tariff<FileCase>, Sum> = Search::new(Tariff::new(case));
    let Ok((_, v)) = s.run(u64::MAX) else {
        return Ok(());
    };
    println!(rt; "{v}")?;
    // an array, since `read` writes into a lent buffer; `n` of its marks are the choice
    let mut out = [0u8; 56];
    if let Ok(charge) = s.read(&mut out) {
        // mark by mark: a struct with Display would be longer, for this one use
        print!(rt; "choice ")?;
        for on in out.iter().take(n) {
            print!(rt; "{on}")?;
        }
        println!(rt; "")?;
        println!(rt; "charge {charge}")?;
    }
    let Ok((conflicts, steps)) = s.tally() else {
        return Ok(());
    };
    println!(rt; "conflicts {conflicts}")?;
    println!(rt; "steps {steps}")
}
