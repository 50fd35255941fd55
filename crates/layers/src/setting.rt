// How a partial choice sets an option.
#[derive(Clone, Copy, PartialEq, Eq, Debug)]
pub enum Setting {
    On,
    Off,
    Open,
}
