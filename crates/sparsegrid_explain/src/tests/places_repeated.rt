//! Files at a limit of counts, depth, tokens or bytes, and one past it: each with the column and the length of what is shown.

use super::shown;
use std::alloc::{AllocError, Global};
use std::test::Fail;

/// A text in which pieces are repeated, and as often the closing ones, and where it is refused.
struct Repeated {
    before: &'static str,
    piece: &'static str,
    count: usize,
    between: &'static str,
    closing: &'static str,
    after: &'static str,
    column: u32,
    length: u32,
}

/// Counts and depths that are passed by one.
static COUNTS: &[Repeated] = &[
    Repeated {
        before: "layout L ( i ",
        piece: ", i ",
        count: 3,
        between: "",
        closing: "",
        after: ") { dense ( i : 4 ) ; field F : i32 ; }",
        column: 22,
        length: 1,
    },
    Repeated {
        before: "layout L ( i ) { ",
        piece: "dense ( i : 4 ) ; ",
        count: 7,
        between: "",
        closing: "",
        after: "field F : i32 ; }",
        column: 126,
        length: 5,
    },
    Repeated {
        before: "layout L ( i ) { hash ( i : 4 ",
        piece: ", i : 4 ",
        count: 3,
        between: "",
        closing: "",
        after: ") cap 3 ; field F : i32 ; }",
        column: 47,
        length: 1,
    },
    Repeated {
        before: "kernel K { for i ",
        piece: ", i ",
        count: 3,
        between: "",
        closing: "",
        after: "in L { } }",
        column: 26,
        length: 1,
    },
    Repeated {
        before: "kernel K { for i in 0 .. 4 ",
        piece: ", 0 .. 4 ",
        count: 3,
        between: "",
        closing: "",
        after: "{ } }",
        column: 46,
        length: 1,
    },
    Repeated {
        before: "kernel K { for i in L { ",
        piece: "if x { ",
        count: 16,
        between: "",
        closing: "} ",
        after: "} }",
        column: 130,
        length: 2,
    },
    Repeated {
        before: "kernel K { for i in L { ",
        piece: "if x { } else { ",
        count: 16,
        between: "",
        closing: "} ",
        after: "} }",
        column: 265,
        length: 2,
    },
    Repeated {
        before: "kernel K { for i in L { ",
        piece: "for j in 0 .. 4 { ",
        count: 16,
        between: "",
        closing: "} ",
        after: "} }",
        column: 295,
        length: 3,
    },
    Repeated {
        before: "kernel K { for i in L { x = ",
        piece: "- ",
        count: 64,
        between: "1 ",
        closing: "",
        after: "; } }",
        column: 155,
        length: 1,
    },
    Repeated {
        before: "kernel K { for i in L { x = ",
        piece: "( ",
        count: 64,
        between: "1 ",
        closing: ") ",
        after: "; } }",
        column: 155,
        length: 1,
    },
    Repeated {
        before: "kernel K { for i in L { x = ",
        piece: "i32 ( ",
        count: 64,
        between: "1 ",
        closing: ") ",
        after: "; } }",
        column: 407,
        length: 3,
    },
    Repeated {
        before: "kernel K { for i in L { x = ",
        piece: "F [ 1 , ",
        count: 64,
        between: "1 ",
        closing: "] ",
        after: "; } }",
        column: 535,
        length: 1,
    },
    Repeated {
        before: "kernel K { for i in L { x = ",
        piece: "1 + ",
        count: 64,
        between: "1 ",
        closing: "",
        after: "; } }",
        column: 283,
        length: 1,
    },
    Repeated {
        before: "kernel K { for i in L { x = ",
        piece: "1 == - ( ",
        count: 22,
        between: "1 ",
        closing: ") ",
        after: "; } }",
        column: 220,
        length: 2,
    },
    Repeated {
        before: "kernel K { for i in L { F [ ",
        piece: "( ",
        count: 64,
        between: "1 ",
        closing: ") ",
        after: "] = 1 ; } }",
        column: 155,
        length: 1,
    },
];

/// What stands before a piece, the piece and how often, what stands behind it, and where the text is refused: as many tokens as there may be,
/// one more, the most bytes, and too many commands.
static LONGEST: &[(&str, &str, usize, &str, u32, u32, u32)] = &[
    ("kernel K { for i in L { x = ", "( ", 16370, "", 1, 155, 1),
    ("kernel K { for i in L { x = ", "- ", 16370, "", 1, 155, 1),
    (
        "kernel K { for i in L { x = ",
        "i32 ( ",
        8180,
        "",
        1,
        407,
        3,
    ),
    ("kernel K { for i in L { x = ", "F [ ", 8180, "", 1, 283, 1),
    ("kernel K { for i in L { x = ", "1 + ", 8180, "", 1, 283, 1),
    ("kernel K { for i in L { ", "if x { ", 5450, "", 1, 130, 2),
    (
        "kernel K { for i in L { ",
        "for j in 0 .. 4 { ",
        2330,
        "",
        1,
        295,
        3,
    ),
    ("", "(", 16384, "", 1, 1, 1),
    ("", ";", 16384, "", 1, 1, 1),
    ("", ";", 16384, ";", 1, 16385, 1),
    ("", ";", 16384, "a", 1, 16385, 1),
    ("", ";", 16384, "0", 1, 16385, 1),
    ("", ";", 16384, "@", 1, 16385, 1),
    ("", ";", 16384, " // more\n00", 2, 1, 2),
    ("", ";", 16384, " // more\n.0", 2, 1, 1),
    ("", "a", 65536, "", 1, 1, 65536),
    ("", "0", 65536, "", 1, 1, 65536),
    (
        "kernel k0 { for i in 0..1 { let t = 0; } } ",
        "run k0; ",
        65,
        "",
        1,
        556,
        3,
    ),
    (
        "kernel k0 { for i in 0..1 { let t = 0; } } ",
        "run k0; ",
        62,
        "times 2 { run k0; run k0; }",
        1,
        558,
        3,
    ),
];

/// The text.
fn text_of(alloc: Global, repeated: &Repeated) -> Result<String, AllocError> {
    let pieces = repeated.piece.repeat(alloc, repeated.count)?;
    let closing = repeated.closing.repeat(alloc, repeated.count)?;
    let (before, between, after) = (repeated.before, repeated.between, repeated.after);
    format!(in alloc; "{before}{pieces}{between}{closing}{after}")
}

#[test]
fn counts_are_shown_where_they_pass_a_limit(rt: HostRuntime) -> Result<(), Fail> {
    let alloc = rt.alloc();
    for row in COUNTS {
        let text = text_of(alloc, row)?;
        assert_eq!(rt;
            shown(alloc, text.as_str(), ""),
            Some((1, row.column, row.length)),
            "{text}"
        );
    }
    Ok(())
}

#[test]
fn longest_files_are_shown_where_they_are_refused(rt: HostRuntime) -> Result<(), Fail> {
    let alloc = rt.alloc();
    for (before, piece, count, after, line, column, length) in LONGEST {
        let pieces = piece.repeat(alloc, *count)?;
        let text = format!(in alloc; "{before}{pieces}{after}")?;
        assert_eq!(rt;
            shown(alloc, text.as_str(), ""),
            Some((*line, *column, *length)),
            "{piece}"
        );
    }
    Ok(())
}
