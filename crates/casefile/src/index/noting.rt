// How the index takes in one field after another, and what it refuses of their content.
ghost use Rattle.std.specs.Prelude.{◌≡◌, ℕ, ◌<◌, List};
ghost use Rattle.cases.specs.Meanings.{Sound};
ghost use Rattle.casefile.specs.Files.{below, blank};
ghost use Rattle.casefile.specs.Fields.{item, options, amount, rule};
ghost use Rattle.casefile.specs.Inner.Scanning.{judged};
ghost use Rattle.casefile.specs.Inner.Indexes.{Follows, Stands, Placed, Noted};

use super::Index;
use crate::fault::Fault;
use crate::field::Field;
use cases::limits::{MOST_OPTIONS, MOST_RULES};

fn all_below(literals: &[u8], limit: usize) -> bool
    ensures { result ≡ below limit literals.now }
{
    literals.iter().all(|l| (*l as usize) < limit)
}

impl Index {
    // The index before any field.
    pub(crate) fn new() -> Index
        ensures blank { (xs : List ℕ) → Follows xs result blank }
        ensures floor { result.floor ≡ 0 }
        ensures rules { result.rules ≡ 0 }
    {
        Index {
            options: 0,
            floor: 0,
            rules: 0,
            amounts: [0; 112],
            places: [0; 512],
        }
    }

    // `Follows` stays a clause, here and below, and no invariant of Index: it speaks of the bytes read so far, which no index holds.
    fn note_options(&mut self, n: u16) -> Result<(), Fault>
        ensures noted { (xs : List ℕ) (s : Sound) → Follows xs self.old s → Noted xs (judged s (options n)) result self.new }
    {
        if n as usize > MOST_OPTIONS {
            return Err(Fault::TooManyOptions);
        }
        *self = Index::new();
        self.options = n as usize;
        Ok(())
    }

    #[tactic(auto, using(crate::proofs::Notes::note_amount))]
    fn note_amount(&mut self, literal: u8, sum: u32) -> Result<(), Fault>
        ensures noted { (xs : List ℕ) (s : Sound) → Follows xs self.old s → Noted xs (judged s (amount literal sum)) result self.new }
    {
        let l = literal as usize;
        if l >= 2 * self.options {
            return Err(Fault::NoSuchLiteral);
        }
        if l < self.floor {
            return Err(Fault::NotRising);
        }
        if sum == 0 {
            return Err(Fault::ZeroAmount);
        }
        self.amounts[l] = sum;
        self.floor = l + 1;
        Ok(())
    }

    #[tactic(auto, using(crate::proofs::Notes::note_rule))]
    fn note_rule(&mut self, part: &[u8], place: usize) -> Result<(), Fault>
        requires { place < 65536 }
        ensures noted { (xs : List ℕ) (s : Sound) → Follows xs self.old s → Placed xs place part.now → Noted xs (judged s (rule part.now)) result self.new }
    {
        if self.rules >= MOST_RULES {
            return Err(Fault::TooManyRules);
        }
        if !all_below(part, 2 * self.options) {
            return Err(Fault::NoSuchLiteral);
        }
        self.places[self.rules] = place as u16;
        self.rules += 1;
        Ok(())
    }

    // Takes in a field that stands at the place, or says what is wrong with its content.
    pub(crate) fn note(&mut self, field: &Field<'_>, place: usize) -> Result<(), Fault>
        requires { place < 65536 }
        ensures noted { (xs : List ℕ) (s : Sound) → Follows xs self.old s → Stands xs place (item field.now) → Noted xs (judged s (item field.now)) result self.new }
    {
        match *field {
            Field::Options(n) => self.note_options(n),
            Field::Amount { literal, amount } => self.note_amount(literal, amount),
            Field::Rule(part) => self.note_rule(part, place),
            Field::End => Ok(()),
        }
    }
}
