use sg_names::FieldAt;
use sg_words::Items;

/// A command that is performed at once, with numbers for names.
#[derive(Clone, Copy, Debug, PartialEq, Eq)]
pub enum Task {
    /// Reads the grid text of the file that is bound to the field.
    Load(FieldAt),
    /// Runs the kernel with this number.
    Run { kernel: u32 },
    /// Writes the grid text of the field.
    Dump(FieldAt),
    /// Writes the field as plain PGM, black up to `lo` and white from `hi` on.
    Image { field: FieldAt, lo: i64, hi: i64 },
    /// Writes what is active and live in the layout with this number.
    Stats { layout: u32 },
    /// Frees what holds no values in the layout with this number.
    Prune { layout: u32 },
    /// Makes all values of the layout with this number 0 and frees what holds them.
    Clear { layout: u32 },
}

/// A command of a program: a task, or tasks that are performed `number` times in order.
#[derive(Debug, Drop)]
pub enum Stage {
    Once(Task),
    Times { number: u32, tasks: Items<Task> },
}
