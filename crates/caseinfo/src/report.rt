// A case file judged, summarised and written again; and the tariff over it.
ghost use Rattle.std.specs.Prelude.{◌≡◌, Some};
ghost use Rattle.casefile.specs.Files.{parse};
ghost use Rattle.caseinfo.specs.Reports.{report_of, copy_after, again_line, tariff_lines, lines};

use casefile::fault::FileRefusal;
use casefile::file::FileCase;
use cases::refusal::Refusal;
use cases::summary::Summary;
use layers::tariff::Tariff;
use std::fmt;

// A file written again. The flag stands beside the result and not in it: the contract says it of a refused writing too.
#[derive(Clone, Copy)]
pub struct Again {
    // how many bytes were written, or why none were
    pub written: Result<usize, Refusal>,
    // whether they are the bytes that were read
    pub equal: bool,
}

// The tariff over the file.
#[derive(Clone, Copy)]
pub struct Priced {
    pub summary: Summary,
}

#[derive(Clone, Copy)]
pub struct Report {
    pub summary: Summary,
    pub bytes: usize,
    pub again: Again,
    pub tariff: Priced,
}

// What the bytes are, and what the tariff over them is. They are written again into the copy.
pub fn inspect(bytes: &[u8], copy: &mut [u8]) -> Result<Report, FileRefusal>
    ensures answers { result ≡ report_of (parse bytes.now) bytes.now copy.old }
    ensures leaves { copy.new ≡ copy_after (parse bytes.now) bytes.now copy.old }
{
    let case = FileCase::open(bytes)?;
    let summary = Summary::of(&case);
    let tariff = Priced {
        summary: Summary::of(&Tariff::new(case)),
    };
    let written = case.rewrite(copy);
    let equal = written.is_ok_and(|n| &copy[..n] == bytes);
    Ok(Report {
        summary,
        bytes: bytes.len(),
        again: Again { written, equal },
        tariff,
    })
}

impl fmt::Display for Again {
    ghost output = { λ a. Some (again_line a.written a.equal) };

    fn fmt<W: fmt::Write>(&self, f: &mut fmt::Formatter<W>) -> fmt::Result {
        match self.written {
            Ok(n) => {
                let same = if self.equal { "equal" } else { "different" };
                write!(f, "written again {n} {same}")
            }
            Err(refusal) => {
                let number = refusal.number();
                write!(f, "written again refused {number}")
            }
        }
    }
}

impl fmt::Display for Priced {
    ghost output = { λ p. Some (tariff_lines p.summary) };

    fn fmt<W: fmt::Write>(&self, f: &mut fmt::Formatter<W>) -> fmt::Result {
        let options = self.summary.options;
        let rules = self.summary.rules;
        let total = self.summary.total;
        write!(
            f,
            "tariff options {options}\ntariff rules {rules}\ntariff total {total}"
        )
    }
}

impl fmt::Display for Report {
    ghost output = { λ r. Some (lines r) };

    fn fmt<W: fmt::Write>(&self, f: &mut fmt::Formatter<W>) -> fmt::Result {
        let options = self.summary.options;
        let amounts = self.summary.amounts;
        let rules = self.summary.rules;
        let longest = self.summary.longest;
        let bytes = self.bytes;
        let again = self.again;
        write!(
            f,
            "options {options}\namounts {amounts}\nrules {rules}\nlongest {longest}\nbytes {bytes}\n{again}"
        )
    }
}
