// The words of a line as literals.
ghost use Rattle.std.specs.Prelude.{◌≡◌, IfOk, vec_items};
ghost use Rattle.std.specs.Option.{option_map};
ghost use Rattle.commands.specs.Numbers.{literals};
ghost use Rattle.commands.specs.Inner.Splitting.{words_left};

use crate::numbers::read_literal;
use crate::words::Words;
use std::alloc::{AllocError, Global};

// Every word as a literal, in their order; or nothing, where one of them is no number.
pub(crate) fn read_literals(heap: Global, words: Words) -> Result<Option<Vec<u8>>, AllocError>
    ensures { IfOk result (λ o. option_map vec_items o ≡ literals (words_left words.entry)) }
{
    let mut found = Vec::new(heap);
    for word in words {
        let Some(l) = read_literal(word) else {
            return Ok(None);
        };
        found.push(l)?;
    }
    Ok(Some(found))
}
