// What is asked of a list of literals or options.
ghost use Rattle.std.specs.Prelude.{◌≡◌};
ghost use Rattle.layers.specs.Rows.{past_all};

// The first number past all of the list's.
pub fn past_all(list: &[u8]) -> usize
    ensures { result ≡ past_all list.now }
{
    list.iter().map(|x| usize::from(*x) + 1).max().unwrap_or(0)
}
