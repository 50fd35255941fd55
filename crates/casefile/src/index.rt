// The index of a file, made once while the file is judged, so that every question is answered in constant time.
ghost use Rattle.std.specs.Prelude.{◌≡◌, ◌≤◌, length};

// Arrays with a count beside them: a file case is copied, and an `ArrayVec` is not `Copy`.
#[derive(Clone, Copy)]
pub struct Index {
    pub(crate) options: usize,
    // the first literal that may still be given an amount
    pub(crate) floor: usize,
    pub(crate) rules: usize,
    // the amount of each literal
    pub(crate) amounts: [u32; 112],
    // where the field of each rule begins
    pub(crate) places: [u16; 512],
    ghost few_options: { options ≤ 56 },
    ghost few_rules: { rules ≤ 512 },
    ghost amounts_full: { length amounts ≡ 112 },
    ghost places_full: { length places ≡ 512 },
}

mod noting;
