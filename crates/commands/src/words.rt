// The words of a line: what stands between its spaces.
ghost use Rattle.std.specs.Prelude.{◌≡◌};
ghost use Rattle.std.specs.Str.{bytes_eq};
ghost use Rattle.std.specs.Iterator.{YieldsFirstRef, item_count};
ghost use Rattle.commands.specs.Lines.{words};
ghost use Rattle.commands.specs.Inner.Splitting.{words_left};

const SPACE: u8 = b' ';

// The words of a line that are still to come. No split and filter: the words that are left are handed on, and a chain of closures has no
// name to hand on.
#[derive(Drop)]
pub(crate) struct Words<'a> {
    rest: &'a [u8],
}

impl<'a> Words<'a> {
    pub(crate) fn of(line: &'a [u8]) -> Words<'a>
        ensures { words_left result ≡ words line.now }
    {
        Words { rest: line }
    }
}

impl<'a> Iterator for Words<'a> {
    type Item = &'a [u8];

    ghost next_gives = { YieldsFirstRef words_left };

    ghost remaining = { item_count words_left };

    fn next(&mut self) -> Option<&'a [u8]> {
        let spaces = self.rest.iter().take_while(|b| **b == SPACE).count();
        let from = &self.rest[spaces..];
        let bytes = from.iter().take_while(|b| **b != SPACE).count();
        if bytes == 0 {
            return None;
        }
        let (word, rest) = from.split_at(bytes);
        self.rest = rest;
        Some(word)
    }
}

pub(crate) fn is_named(word: &[u8], name: &[u8]) -> bool
    ensures { result ≡ bytes_eq word.now name.now }
{
    word == name
}
