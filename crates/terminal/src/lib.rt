// What the programs share: a case file taken from an input into a buffer of fixed size.
#![tactic(auto)]

ghost use Rattle.std.specs.Prelude.{◌≤◌, length, IfOk};

use std::io;
use std::io::Read;

// How many bytes of an input are looked at; no case file is as long.
pub const BUFFER: usize = 16384;

// Fills the buffer from the input, as far as there is any, and answers how many bytes came.
pub fn fill<R: Read>(input: &mut R, buffer: &mut [u8]) -> io::Result<usize>
    ensures { IfOk result (λ n. n ≤ length buffer.new) }
{
    let size = buffer.len();
    let mut len = 0;
    // A loop of reads: read_to_end asks for a heap, read_exact loses how many bytes came, and io::copy goes on after an interrupted read, where
    // the programs end.
    for _ in 0..size {
        let got = input.read(&mut buffer[len..])?;
        if got == 0 {
            break;
        }
        len += got;
    }
    Ok(len)
}
