//! Where the statements of a program are, each law as the contract of a function that does nothing.

ghost use Rattle.sg_explain.specs.KernelItems.{KernelItemsAreKernels};
ghost use Rattle.sg_explain.specs.KernelParts.{PartsAreStatements};
ghost use Rattle.sg_explain.specs.Shown.{ShownIsStatement};
ghost use Rattle.sg_explain.specs.ShownBytes.{ShownIsSpelled};
ghost use Rattle.sg_explain.specs.AdmitPlaces.{AdmitFaultsAreAtLines};
ghost use Rattle.sg_explain.specs.TypePlaces.{TypeFaultsAreAtStatements};
ghost use Rattle.sg_explain.specs.steps.TokenPlaces.{RefusalsAreShown};

use sg_admit::laws::faults_are_first;
use sg_ast::laws::cut_gives_items;
use sg_lexer::laws::answered_are_tokens;
use sg_parser::laws::parsed_is_spelled;
use sg_types::laws::{faults_decide, statements_are_numbered};

/// The parts of a kernel's tokens are its loop, and then its statements in the order of their first tokens.
pub fn parts_are_statements()
    ensures { PartsAreStatements }
{}

/// The items that begin with `kernel` have the tokens of the kernels, in order.
pub fn kernel_items_are_kernels()
    ensures { KernelItemsAreKernels }
{
    // for the law that it ensures
    cut_gives_items();
}

/// The part that is shown for a number of a kernel begins with the tokens of its loop or of the statement of that number.
pub fn shown_is_statement()
    ensures { ShownIsStatement }
{
    // for the laws that they ensure
    parts_are_statements();
    kernel_items_are_kernels();
}

/// A fault of types is at the statement of its number: its code is the first that applies to that statement.
pub fn type_faults_are_at_statements()
    ensures { TypeFaultsAreAtStatements }
{
    // for the law that it ensures
    faults_decide();
}

/// A fault of admission is at the statement of its number, and its rule is the smallest that this statement breaks.
pub fn admit_faults_are_at_lines()
    ensures { AdmitFaultsAreAtLines }
{
    // for the laws that they ensure
    faults_are_first();
    statements_are_numbered();
}

/// The loop and each statement of each kernel of the program that bytes spell are shown where they are spelled.
pub fn shown_is_spelled()
    ensures { ShownIsSpelled }
{
    // for the laws that they ensure
    answered_are_tokens();
    parsed_is_spelled();
    shown_is_statement();
}

/// What is the place of a refusal by the tokens of a file is its place in the file.
pub(crate) fn refusals_are_shown()
    ensures { RefusalsAreShown }
{
    // for the laws that they ensure
    shown_is_spelled();
    type_faults_are_at_statements();
    admit_faults_are_at_lines();
}
