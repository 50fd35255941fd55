// What a line can ask for.

#[derive(Drop)]
pub enum Command {
    // these literals more; a number above 255 is kept as 255
    Add(Vec<u8>),
    Withdraw,
    // a search with this budget
    Run(u64),
    Read,
    Tally,
}
