// What a search holds beside its pile and the charge of its best: plain arrays and counts.
ghost use Rattle.std.specs.Prelude.{◌≡◌, []};
ghost use Rattle.tables.specs.Conditions.{conditions_of};
ghost use Rattle.steps.specs.Shapes.{shape, blank};

use literals::LiteralSet;
use tables::conditions::Conditions;
use tables::learned::Learned;
use trails::trail::Trail;

// What a step changes.
// No Model, and `working` or `shape` in the clauses: a conflict set and a row are functions of numbers, and a Model asks for a coded value.
#[derive(Drop)]
pub struct Work {
    pub trail: Trail,
    // the conflict set, or none
    pub conflict: Option<LiteralSet>,
    // the literals of the best choice, where there is a best; the tables name no kind of charge, so its charge stands apart
    pub choice: LiteralSet,
    pub learned: Learned,
    // conflicts and steps since the last zeroing
    pub conflicts: u64,
    pub steps: u64,
}

#[derive(Drop)]
pub struct Tables {
    pub conditions: Conditions,
    pub work: Work,
}

impl Work {
    fn new() -> Work
        ensures { shape result ≡ blank }
    {
        Work {
            trail: Trail::empty(),
            conflict: None,
            choice: LiteralSet::empty(),
            learned: Learned::empty(),
            conflicts: 0,
            steps: 0,
        }
    }
}

impl Tables {
    pub fn new() -> Tables
        ensures conditions { conditions_of result.conditions ≡ [] }
        ensures work { shape result.work ≡ blank }
    {
        Tables {
            conditions: Conditions::empty(),
            work: Work::new(),
        }
    }
}
