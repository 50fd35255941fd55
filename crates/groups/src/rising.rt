// Whether the options of a group rise.
ghost use Rattle.std.specs.Prelude.{◌≡◌};
ghost use Rattle.groups.specs.Groups.{rising};

pub fn is_rising(list: &[u8]) -> bool
    ensures { result ≡ rising list.now }
{
    list.is_sorted_by(|a, b| a < b)
}
