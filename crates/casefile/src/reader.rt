// The reader: where it stands in the file.
ghost use Rattle.std.specs.Prelude.{◌≤◌, length};

use crate::field::Phase;

// The bytes and a place in them, and not the bytes that are left: a refusal tells the place.
#[derive(Drop)]
pub struct Reader<'a> {
    bytes: &'a [u8],
    at: usize,
    phase: Phase,
    ghost inside: { at ≤ length bytes.now },
}

mod reading;
