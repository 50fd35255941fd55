// The file case: an accepted case file, as the caller holds it.
ghost use Rattle.std.specs.Prelude.{◌≡◌, true, length};
ghost use Rattle.casefile.specs.Format.{Octets};
ghost use Rattle.casefile.specs.Files.{parse, is_accepted, meant, file_meaning};
ghost use Rattle.casefile.specs.Inner.Indexes.{Priced, Inside, Sized, Same};
ghost use Rattle.casefile.specs.Facts.Whole.{file_limits};

use crate::index::Index;
use cases::case::Case;

// Its meaning is that of the bytes; the index, made once, answers each question in constant time.
#[derive(Clone, Copy)]
pub struct FileCase<'a> {
    pub(crate) bytes: &'a [u8],
    pub(crate) index: Index,
    ghost octets: { Octets bytes.now },
    ghost accepted: { is_accepted (parse bytes.now) ≡ true },
    ghost counted: { index.options ≡ (meant (parse bytes.now)).options },
    ghost ruled: { index.rules ≡ length (meant (parse bytes.now)).rules },
    ghost priced: { Priced index (meant (parse bytes.now)) },
    ghost inside: { Inside bytes.now index (meant (parse bytes.now)) },
    ghost sized: { Sized bytes.now index (meant (parse bytes.now)) },
    ghost same: { Same bytes.now index (meant (parse bytes.now)) },
}

impl<'a> Case for FileCase<'a> {
    ghost meaning = { λ x. file_meaning x.bytes.now };

    ghost limits = { λ x. file_limits x.bytes.now x.octets };

    fn oversize(&self) -> bool {
        false
    }

    fn options(&self) -> usize {
        self.index.options
    }

    fn rules(&self) -> usize {
        self.index.rules
    }

    fn rule_len(&self, r: usize) -> usize {
        // by a test: `places.get(r)` finds a place past the rules too
        if r < self.rules() {
            let place = self.index.places[r] as usize;
            self.bytes[place + 2] as usize
        } else {
            0
        }
    }

    fn literal(&self, r: usize, j: usize) -> u8 {
        // by a test: `bytes.get(..)` finds a byte past the rule too
        if j < self.rule_len(r) {
            let place = self.index.places[r] as usize;
            self.bytes[place + 3 + j]
        } else {
            255
        }
    }

    fn amount(&self, l: u8) -> u32 {
        self.index.amounts.get(l as usize).copied().unwrap_or(0)
    }
}
