/// What bytes are as a journal: one whose every line is sound, or else the number, from 1, of the first line that isn't. A missing
/// line has a number, too, and so has a line behind the end.
#[derive(Clone, Copy, Debug, PartialEq, Eq)]
pub enum Verdict {
    Yes,
    No { line: u32 },
}
