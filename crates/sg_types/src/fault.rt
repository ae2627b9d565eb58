/// What is wrong with the types of a program, at the first statement of the first kernel where something is. Kernels are counted
/// from 0, statements from 1 by their first tokens; statement 0 is the kernel's loop. The codes: 1 types don't fit, 2 a wrong
/// number of indices or variables, 3 an assignment to a constant or to a variable of a loop, 4 an unknown local, 5 a local
/// named twice. In one statement the first of 4, 5, 3, 2, 1 is reported.
#[derive(Clone, Copy, Debug, PartialEq, Eq)]
pub struct TypeFault {
    pub kernel: u32,
    pub stmt: u32,
    pub code: u32,
}
