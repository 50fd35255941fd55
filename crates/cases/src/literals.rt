// Literal 2v sets option v on, literal 2v + 1 sets it off.
ghost use Rattle.std.specs.Prelude.{◌≡◌};
ghost use Rattle.cases.specs.Literals.{complement};

// The literal that sets the same option the other way.
#[tactic(auto, unfolding(crate::specs::Literals::complement))]
pub fn opposite(l: u8) -> u8
    ensures { result ≡ complement l }
{
    if l % 2 == 0 { l + 1 } else { l - 1 }
}
