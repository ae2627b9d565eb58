//! Items that spell nothing, by number and line, and counts at their limits.

use super::setting::outcome;
use std::alloc::{AllocError, Global};
use std::test::Fail;

// Texts with the item and the line of their fault.
static REFUSED: [(&str, u32, u32); 47] = [
    ("const N = 3", 1, 1),
    ("const N = 3 ; ;", 2, 1),
    ("const N = 3 ;\nconst\nN = 3", 2, 2),
    ("run K ;\n;\nrun K ;", 2, 2),
    ("run K ; }", 2, 1),
    ("run K }", 1, 1),
    ("}\nrun K ;", 1, 1),
    ("kernel K { for i in L { } } }", 2, 1),
    ("kernel K { for i in L { }", 1, 1),
    ("run K ;\nkernel K {\nfor i in L { x = 1 ; }", 2, 2),
    ("kernel K { for i in L { } } ;", 2, 1),
    ("kernel K { for i in L { } x = 1 ; }", 1, 1),
    ("run K ; x = 1 ; run ;", 2, 1),
    ("run K load F ;", 1, 1),
    ("run 3 ;", 1, 1),
    ("const N = - - 3 ;", 1, 1),
    ("const N = N ;", 1, 1),
    ("const const = 3 ;", 1, 1),
    ("layout L ( i ) { dense ( i : 4 ) ; }", 1, 1),
    ("layout L ( i ) { field F : i32 ; }", 1, 1),
    ("layout L ( ) { dense ( i : 4 ) ; field F : i32 ; }", 1, 1),
    (
        "layout L ( i , ) { dense ( i : 4 ) ; field F : i32 ; }",
        1,
        1,
    ),
    (
        "layout L ( i ) { dense ( i : 4u ) ; field F : i32 ; }",
        1,
        1,
    ),
    (
        "layout L ( i ) { dense ( i : 4 ) cap 3 ; field F : i32 ; }",
        1,
        1,
    ),
    (
        "layout L ( i ) { pointer ( i : 4 ) ; field F : i32 ; }",
        1,
        1,
    ),
    (
        "layout L ( i ) { dynamic ( i : 4 ) cap 3 chunk 2 ; field F : i32 ; }",
        1,
        1,
    ),
    (
        "layout L ( i ) { dense ( i : 4 ) ; field F : bool ; }",
        1,
        1,
    ),
    ("layout L ( i ) { field F : i32 ; dense ( i : 4 ) ; }", 1, 1),
    ("image F - 0 1 ;", 1, 1),
    ("image F 0u 1 ;", 1, 1),
    ("times 2 { }", 1, 1),
    ("times 2u { run K ; }", 1, 1),
    ("times 2 { times 2 { run K ; } }", 1, 1),
    ("times 2 { const N = 1 ; }", 1, 1),
    ("kernel K { for i in L , N { } }", 1, 1),
    ("kernel K { for i in { } }", 1, 1),
    ("kernel K { for i in L { if x { } else x = 1 ; } }", 1, 1),
    ("kernel K { for i in L { if x { } else if y { } } }", 1, 1),
    ("kernel K { for i in L { else { } } }", 1, 1),
    ("kernel K { for i in L { let F [ i ] = 1 ; } }", 1, 1),
    ("kernel K { for i in L { let active = 1 ; } }", 1, 1),
    ("kernel K { for i in L { F [ i ] min += 1 ; } }", 1, 1),
    ("kernel K { for i in L { x |= 1 ; } }", 1, 1),
    ("kernel K { for i in L { F [ i ] & = 1 ; } }", 1, 1),
    ("kernel K { for i in L { x += 1 ; } }", 1, 1),
    ("kernel K { for i in L { F [ ] = 1 ; } }", 1, 1),
    ("kernel K { for i in L { F [ i , ] = 1 ; } }", 1, 1),
];

// No expressions.
static NO_EXPRESSIONS: [&str; 25] = [
    "",
    "1 2",
    "1 +",
    "+ 1",
    "1 == 2 == 3",
    "1 < 2 >= 3",
    "1 + - ",
    "( 1",
    "1 )",
    "( )",
    "F [ ]",
    "F [ 1 , ]",
    "F ( 1 )",
    "min ( 1 )",
    "min ( 1 , 2 , 3 )",
    "mulq ( 1 , 2 )",
    "i32 ( 1 , 2 )",
    "max ( 1 , 2 , )",
    "min = 1",
    "active",
    "active F [ 1 ]",
    "active ( 1 )",
    "active ( F )",
    "active ( F [ 1 ] , 2 )",
    "1 .. 2",
];

// Numbers past their limit are no tokens.
static NO_NUMBERS: [&str; 3] = [
    "const N = 2147483649 ;",
    "image F 0 2147483649 ;",
    "kernel K { for i in L { x = 2147483649 ; } }",
];

fn refused(alloc: Global, item: u32, line: u32) -> Result<String, AllocError> {
    format!(in alloc; "Refused(Parse(Syntax {{ item: {item}, line: {line} }}))")
}

#[test]
fn the_first_item_that_spells_none_is_the_fault(rt: HostRuntime) -> Result<(), Fail> {
    let alloc = rt.alloc();
    for (text, item, line) in &REFUSED {
        assert_eq!(rt;
            outcome(alloc, *text)?,
            refused(alloc, *item, *line)?,
            "{text}"
        );
    }
    for text in &NO_EXPRESSIONS {
        let whole = format!(in alloc; "run K ;\nkernel K {{ for i in L {{\nx = {text} ; }} }}")?;
        assert_eq!(rt;
            outcome(alloc, whole.as_str())?,
            refused(alloc, 2, 2)?,
            "{text}"
        );
    }
    Ok(())
}

#[test]
fn numbers_past_their_limit_are_no_tokens(rt: HostRuntime) -> Result<(), Fail> {
    let alloc = rt.alloc();
    for text in &NO_NUMBERS {
        assert_eq!(rt;
            outcome(alloc, *text)?.as_str(),
            "Refused(Lex(BadNumber { line: 1 }))",
            "{text}"
        );
    }
    Ok(())
}

// The texts of a count: what stands before, what is repeated, what stands after, how often at most.
struct Count {
    before: &'static str,
    part: &'static str,
    between: &'static str,
    behind: &'static str,
    after: &'static str,
    most: usize,
}

static COUNTS: [Count; 16] = [
    Count {
        before: "layout L ( i ",
        part: ", i ",
        between: "",
        behind: "",
        after: ") { dense ( i : 4 ) ; field F : i32 ; }",
        most: 2,
    },
    Count {
        before: "layout L ( i ) { ",
        part: "dense ( i : 4 ) ; ",
        between: "",
        behind: "",
        after: "field F : i32 ; }",
        most: 6,
    },
    Count {
        before: "layout L ( i ) { hash ( i : 4 ",
        part: ", i : 4 ",
        between: "",
        behind: "",
        after: ") cap 3 ; field F : i32 ; }",
        most: 2,
    },
    Count {
        before: "kernel K { for i ",
        part: ", i ",
        between: "",
        behind: "",
        after: "in L { } }",
        most: 2,
    },
    Count {
        before: "kernel K { for i in 0 .. 4 ",
        part: ", 0 .. 4 ",
        between: "",
        behind: "",
        after: "{ } }",
        most: 2,
    },
    Count {
        before: "kernel K { for i in L { ",
        part: "if x { ",
        between: "",
        behind: "} ",
        after: "} }",
        most: 15,
    },
    Count {
        before: "kernel K { for i in L { ",
        part: "if x { } else { ",
        between: "",
        behind: "} ",
        after: "} }",
        most: 15,
    },
    Count {
        before: "kernel K { for i in L { ",
        part: "for j in 0 .. 4 { ",
        between: "",
        behind: "} ",
        after: "} }",
        most: 15,
    },
    Count {
        before: "kernel K { for i in L { x = ",
        part: "- ",
        between: "1 ",
        behind: "",
        after: "; } }",
        most: 63,
    },
    Count {
        before: "kernel K { for i in L { x = ",
        part: "( ",
        between: "1 ",
        behind: ") ",
        after: "; } }",
        most: 63,
    },
    Count {
        before: "kernel K { for i in L { x = ",
        part: "i32 ( ",
        between: "1 ",
        behind: ") ",
        after: "; } }",
        most: 63,
    },
    Count {
        before: "kernel K { for i in L { x = ",
        part: "F [ 1 , ",
        between: "1 ",
        behind: "] ",
        after: "; } }",
        most: 63,
    },
    Count {
        before: "kernel K { for i in L { x = active ( F [ ",
        part: "( ",
        between: "1 ",
        behind: ") ",
        after: "] ) ; } }",
        most: 62,
    },
    Count {
        before: "kernel K { for i in L { x = ",
        part: "1 + ",
        between: "1 ",
        behind: "",
        after: "; } }",
        most: 63,
    },
    Count {
        before: "kernel K { for i in L { x = ",
        part: "1 == - ( ",
        between: "1 ",
        behind: ") ",
        after: "; } }",
        most: 21,
    },
    Count {
        before: "kernel K { for i in L { F [ ",
        part: "( ",
        between: "1 ",
        behind: ") ",
        after: "] = 1 ; } }",
        most: 63,
    },
];

// The text of a count with so many of what is counted.
fn repeated(alloc: Global, count: &Count, times: usize) -> Result<String, AllocError> {
    let parts = count.part.repeat(alloc, times)?;
    let ends = count.behind.repeat(alloc, times)?;
    let (before, between, after) = (count.before, count.between, count.after);
    format!(in alloc; "{before}{parts}{between}{ends}{after}")
}

#[test]
fn counts_have_their_limits(rt: HostRuntime) -> Result<(), Fail> {
    let alloc = rt.alloc();
    for count in &COUNTS {
        let most = repeated(alloc, count, count.most)?;
        assert_eq!(rt; outcome(alloc, most.as_str())?.as_str(), "Ok", "{most}");
        let more = repeated(alloc, count, count.most.saturating_add(1))?;
        assert_eq!(rt;
            outcome(alloc, more.as_str())?,
            refused(alloc, 1, 1)?,
            "{more}"
        );
    }
    Ok(())
}

// As many tokens as there may be, each deeper than those before it.
static DEEP: [(&str, &str, usize); 7] = [
    ("kernel K { for i in L { x = ", "( ", 16_370),
    ("kernel K { for i in L { x = ", "- ", 16_370),
    ("kernel K { for i in L { x = ", "i32 ( ", 8_180),
    ("kernel K { for i in L { x = ", "F [ ", 8_180),
    ("kernel K { for i in L { x = ", "1 + ", 8_180),
    ("kernel K { for i in L { ", "if x { ", 5_450),
    ("kernel K { for i in L { ", "for j in 0 .. 4 { ", 2_330),
];

#[test]
fn deep_texts_are_refused(rt: HostRuntime) -> Result<(), Fail> {
    let alloc = rt.alloc();
    for (before, part, times) in &DEEP {
        let parts = part.repeat(alloc, *times)?;
        let text = format!(in alloc; "{before}{parts}")?;
        assert_eq!(rt;
            outcome(alloc, text.as_str())?,
            refused(alloc, 1, 1)?,
            "{part}"
        );
    }
    Ok(())
}
