// The learned table.
ghost use Rattle.std.specs.Prelude.{◌≡◌, ◌≤◌, length};

use literals::LiteralSet;

// A learned rule, and whether it is the reason of a literal on the trail.
#[derive(Clone, Copy)]
pub struct Row {
    pub literals: LiteralSet,
    pub reason: bool,
}

// The rows, oldest first. They stay an array with its length beside it, inside a plain struct: a rule of the project.
#[derive(Clone, Copy)]
pub struct Learned {
    rows: [Row; 64],
    len: usize,
    ghost few: { len ≤ 64 },
    ghost full: { length rows ≡ 64 },
}

mod acts;
mod asks;
