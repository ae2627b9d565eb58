use crate::token::Name;
use sg_words::Items;

/// A command of a file. `Image` has its two bounds, the values of the darkest and the brightest grey.
#[derive(Debug, Drop)]
pub enum Command {
    Load(Name),
    Run(Name),
    Times { number: u32, body: Items<Command> },
    Dump(Name),
    Image { field: Name, lo: i64, hi: i64 },
    Stats(Name),
    Prune(Name),
    Clear(Name),
}
