// What adding and withdrawing do to the work.
ghost use Rattle.std.specs.Prelude.{◌≡◌, ℕ};
ghost use Rattle.steps.specs.Shapes.{shape, Right};
ghost use Rattle.search.specs.Inner.Changes.{restarting};

use steps::held::Work;

// The trail is emptied, the conflict set becomes none, and the counts are zeroed. No row is a reason then.
pub fn restart(work: &mut Work)
    ensures leaves { shape work.new ≡ restarting (shape work.old) }
    ensures notes { (base : ℕ) → Right base work.new }
{
    work.trail.clear();
    work.learned.note(&[false; 64]);
    work.conflict = None;
    work.conflicts = 0;
    work.steps = 0;
}
