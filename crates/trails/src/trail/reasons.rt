// Which learned rules are reasons.
ghost use Rattle.std.specs.Prelude.{◌≡◌, ℕ, ◌+◌, ◌<◌, false, ◌||◌, length, slice_index_or};
ghost use Rattle.calculus.specs.Learned.{is_reason, is_place};
ghost use Rattle.trails.specs.Entries.{reason_of};
ghost use Rattle.trails.specs.Trails.{listed};

use super::Trail;
use crate::entry::Reason;

impl Trail {
    // For each of 64 places from a base on, whether the rule there is the reason of a literal.
    // An array and no short list: there is an answer for each place, and the table of rows takes 64 of them.
    pub fn reasons(&self, base: usize) -> [bool; 64]
        ensures full { length result ≡ 64 }
        ensures tells { (j : ℕ) → j < 64 → slice_index_or result j false ≡ is_reason (listed self.now) (base + j) }
    {
        let mut named = [false; 64];
        for e in self.entries.as_slice() {
            note(&mut named, base, e.reason);
        }
        named
    }
}

// The place of the reason is noted, where it lies among those from the base on.
fn note(named: &mut [bool], base: usize, reason: Reason)
    ensures { (j : ℕ) → j < length named.old → slice_index_or named.new j false ≡ (is_place (reason_of reason) (base + j) || slice_index_or named.old j false) }
{
    let Reason::Forced(place) = reason else {
        return;
    };
    let place = usize::from(place);
    // written by index: what get_mut of a slice writes, a proof does not know
    if place >= base && place - base < named.len() {
        named[place - base] = true;
    }
}
