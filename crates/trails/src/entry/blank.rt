// What stands where no entry does.
ghost use Rattle.std.specs.Prelude.{◌≡◌};
ghost use Rattle.trails.specs.Entries.{entry_of, no_entry};

use super::{Entry, Reason};

// A short list fills its unused places with it. Written out, so that its ghost says which entry it is.
impl Default for Entry {
    ghost is_default = { λ e. entry_of e ≡ no_entry };

    fn default() -> Entry {
        Entry {
            literal: 0,
            level: 0,
            reason: Reason::Decided,
        }
    }
}
