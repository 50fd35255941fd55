// What is done to the learned table.
ghost use Rattle.std.specs.Prelude.{◌≡◌, ℕ, ◌+◌, ◌<◌, ◌≤◌, false, [], ◌∷◌, ◌++◌, length, get_or, if◌then◌else◌, nat_lt, slice_index_or};
ghost use Rattle.calculus.specs.Scans.{remove as remove_at};
ghost use Rattle.tables.specs.Rows.{noted, marked, noting, no_row};
ghost use Rattle.tables.specs.Learned.{rows_of};

use super::{Learned, Row};
use literals::LiteralSet;

pub const MOST_ROWS: usize = 64;

impl Learned {
    pub fn empty() -> Learned
        ensures { rows_of result ≡ [] }
    {
        let none = Row {
            literals: LiteralSet::empty(),
            reason: false,
        };
        Learned {
            rows: [none; 64],
            len: 0,
        }
    }

    // Row j notes whether it is a reason. Where there is no such row nothing changes.
    // One mark is written through &mut self, by its index: a rule of the project.
    pub fn mark(&mut self, j: usize, reason: bool)
        ensures { rows_of self.new ≡ marked j reason (rows_of self.old) }
    {
        if j < self.len {
            self.rows[j].reason = reason;
        }
    }

    // Each row notes whether it is a reason, as it is told.
    pub fn note(&mut self, reasons: &[bool; 64])
        ensures { rows_of self.new ≡ noting reasons.now (rows_of self.old) }
    {
        let len = self.len;
        note_rows(&mut self.rows, len, reasons);
    }

    // The set becomes the newest row. Refused where the table is full: then nothing changes.
    // The answer stays a bool, whether the row was learned: a full table is the one cause, and the only caller drops the answer.
    pub fn learn(&mut self, literals: LiteralSet, reason: bool) -> bool
        ensures answers { result ≡ nat_lt (length (rows_of self.old)) 64 }
        ensures leaves { rows_of self.new ≡ (if result then rows_of self.old ++ noted literals reason ∷ [] else rows_of self.old) }
    {
        if self.len >= MOST_ROWS {
            return false;
        }
        self.rows[self.len] = Row { literals, reason };
        self.len += 1;
        true
    }

    // Row p goes, and the later ones move down. Where there is no such row nothing changes.
    pub fn remove(&mut self, p: usize)
        ensures { rows_of self.new ≡ remove_at p (rows_of self.old) }
    {
        if p >= self.len {
            return;
        }
        self.rows.copy_within(p + 1..self.len, p);
        self.len -= 1;
    }

    pub fn clear(&mut self)
        ensures { rows_of self.new ≡ [] }
    {
        self.len = 0;
    }
}

fn note_rows(rows: &mut [Row], len: usize, reasons: &[bool; 64])
    requires in_rows { len ≤ length rows.old }
    requires few { len ≤ 64 }
    ensures { (k : ℕ) → k < len → slice_index_or rows.new k no_row ≡ record { literals = (get_or rows.old k no_row).literals; reason = slice_index_or reasons.now k false } }
{
    for (j, row) in rows[..len].iter_mut().enumerate() {
        row.reason = reasons[j];
    }
}
