// What the learned table is asked.
ghost use Rattle.std.specs.Prelude.{◌≡◌, ℕ, ◌≤◌, not, length, if◌then◌else◌, nat_le, slice_index_or};
ghost use Rattle.calculus.specs.Scans.{first};
ghost use Rattle.literals.specs.Members.{member};
ghost use Rattle.tables.specs.Rows.{nothing_noted};
ghost use Rattle.tables.specs.Learned.{rows_of};

use super::Learned;
use super::acts::MOST_ROWS;
use literals::LiteralSet;

impl Learned {
    pub fn len(&self) -> usize
        ensures answers { result ≡ length (rows_of self.now) }
        ensures within { result ≤ 64 }
    {
        self.len
    }

    // The literals of row j; none where there is no such row.
    pub fn row(&self, j: usize) -> LiteralSet
        ensures { (x : ℕ) → member result x ≡ (slice_index_or (rows_of self.now) j nothing_noted).literals x }
    {
        self.rows[..self.len]
            .get(j)
            .map_or(LiteralSet::empty(), |row| row.literals)
    }

    // The oldest row that is no reason, or how many there are if all are.
    // A number and no Option, which is no plainer: `first` of the calculus names the length too, and the caller would take it back.
    fn first_free(&self) -> usize
        ensures { result ≡ first (length (rows_of self.now)) (λ j. not (slice_index_or (rows_of self.now) j nothing_noted).reason) }
    {
        self.rows[..self.len]
            .iter()
            .position(|row| !row.reason)
            .unwrap_or(self.len)
    }

    // The row that goes before one more is learned: of a full table the oldest that is no reason, and else the place
    // past the last, where no row is.
    // A number and no Option, which is no plainer: the calculus names that place too, and to remove and rename there changes nothing.
    pub fn leaving(&self) -> usize
        ensures { result ≡ (if nat_le 64 (length (rows_of self.now)) then first (length (rows_of self.now)) (λ j. not (slice_index_or (rows_of self.now) j nothing_noted).reason) else length (rows_of self.now)) }
    {
        if self.len < MOST_ROWS {
            return self.len;
        }
        self.first_free()
    }
}
