// What can be wrong with a case file.
ghost use Rattle.std.specs.Prelude.{◌≡◌, ◌++◌, Some, codes, decimal};
ghost use Rattle.casefile.specs.Faults.{fault_number};

use std::fmt;

#[derive(Clone, Copy, PartialEq, Eq, Debug)]
pub enum Fault {
    // the file ends inside a field or before the end field
    Truncated = 1,
    // the tag is not 1 to 4
    UnknownTag = 2,
    // the length does not fit the tag
    WrongLength = 3,
    // a known tag that may not stand here
    OutOfOrder = 4,
    // more than 56 options
    TooManyOptions = 5,
    // a literal of an option that is not there
    NoSuchLiteral = 6,
    // an amount whose literal is not above that of the amount before
    NotRising = 7,
    // an amount of 0, which is not to be written down
    ZeroAmount = 8,
    // a rule after 512 rules
    TooManyRules = 9,
    // a byte after the end field
    Trailing = 10,
}

// A fault, and the place of the first byte of the field that has it.
#[derive(Clone, Copy, PartialEq, Eq, Debug)]
pub struct FileRefusal {
    pub fault: Fault,
    pub place: usize,
}

impl Fault {
    // The number that the fault is known by.
    pub fn number(self) -> u8
        ensures { result ≡ fault_number self }
    {
        self as u8
    }

    // The fault of the field at a place.
    pub(crate) fn at(self, place: usize) -> FileRefusal
        ensures fault { result.fault ≡ self }
        ensures place { result.place ≡ place }
    {
        FileRefusal { fault: self, place }
    }
}

impl fmt::Display for FileRefusal {
    ghost output = { λ r. Some (codes "refused " ++ (decimal (fault_number r.fault) ++ (codes " " ++ decimal r.place))) };

    fn fmt<W: fmt::Write>(&self, f: &mut fmt::Formatter<W>) -> fmt::Result {
        let number = self.fault.number();
        let place = self.place;
        write!(f, "refused {number} {place}")
    }
}
