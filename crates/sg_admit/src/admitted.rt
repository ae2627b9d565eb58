use sg_flat::Domain;
use sg_types::{TypedKernel, TypedStmt};
use sg_words::Items;

/// A kernel that keeps the rules, and what is known of it from its text alone.
#[derive(Debug, Drop)]
pub struct Admitted {
    pub kernel: TypedKernel,
    /// For each variable by its number, whether it is a loop's variable or a clean local.
    pub clean: Items<bool>,
    /// The statements that say where an iteration may activate, with `Literal(0)` for the value of each write.
    pub slice: Items<TypedStmt>,
    /// The walked layout, or the box of the bounds' values.
    pub domain: Domain,
}

/// Why a kernel is not admitted: the first statement that breaks a rule and the smallest rule that it breaks, from 1 to 6; or a box of
/// more than 2^20 points.
#[derive(Clone, Copy, Debug, PartialEq, Eq)]
pub enum AdmitFault {
    Rule { stmt: u32, rule: u32 },
    BoxTooLarge,
}
