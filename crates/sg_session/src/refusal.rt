use sg_admit::AdmitFault;
use sg_flat::RunFault;
use sg_layout::LayoutFault;
use sg_lexer::LexFault;
use sg_names::NameFault;
use sg_parser::ParseFault;
use sg_types::TypeFault;

/// Why a file is refused before any of its commands runs. The causes stand in the order in which they are looked for, but
/// `Command`, `Times` and `Image`, of which the first item counts and in it the first of the three. Items are counted from 1,
/// layouts and kernels from 0.
#[derive(Clone, Copy, Debug, PartialEq, Eq)]
pub enum Refusal {
    /// The bytes are no tokens.
    Lex(LexFault),
    /// An item spells nothing.
    Parse(ParseFault),
    /// An item breaks a rule on names.
    Name(NameFault),
    /// A layout breaks a rule.
    Layout { layout: u32, fault: LayoutFault },
    /// The layouts together have more than 2^22 storage words.
    Words,
    /// A kernel breaks a rule on types.
    Types(TypeFault),
    /// A kernel is not admitted.
    Admit { kernel: u32, fault: AdmitFault },
    /// A command breaks a rule: an image of a layout without 2 axes or with bounds that don't rise, or `times 0`.
    Command { item: u32 },
    /// A `times` has a number past 1,000.
    Times,
    /// An image has more than 2^20 points.
    Image,
}

/// Why a command is refused. Fields and kernels are counted from 0 over the whole program, lines from 1.
#[derive(Clone, Copy, Debug, PartialEq, Eq)]
pub enum RunRefusal {
    /// The read of the file that is bound to the field failed.
    Read {
        field: u32,
    },
    /// The file has more than 2^24 bytes.
    GridBytes {
        field: u32,
    },
    /// The first line of the file announces more than 2^20 lines, or its lines have more than 2^20 rows.
    GridRows {
        field: u32,
    },
    /// The file is no grid text of the field: this is the first bad line.
    Grid {
        field: u32,
        line: u32,
    },
    /// The run of a kernel is refused, or if there is none a load.
    Run {
        kernel: Option<u32>,
        fault: RunFault,
    },
}
