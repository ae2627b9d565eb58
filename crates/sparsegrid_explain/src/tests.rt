//! Tables of mistakes: where each is shown, and what is told.

mod editors;
mod places;
mod places_inside;
mod places_kernels;
mod places_limits;
mod places_names;
mod places_repeated;
mod places_sizes;
mod places_too;
mod runs;
mod syntax;
mod told_names;
mod told_rules;
mod told_runs;
mod told_syntax;
mod users;

use sg_explain::{Asked, Place, closest, explain, line_place, position_of, tell};
use sg_lexer::lex;
use std::alloc::Global;
use std::test::Fail;

/// The most bytes of a file.
const MOST_BYTES: usize = 65536;

/// Where a text is refused; where it isn't, what a last line is about.
fn place(alloc: Global, text: &str, last: &str) -> Option<Place> {
    if text.len() > MOST_BYTES {
        return None;
    }
    match explain(alloc, text.as_bytes()) {
        Ok(Some(told)) => match closest(alloc, text.as_bytes(), told) {
            Ok(place) => place,
            Err(_) => None,
        },
        Ok(None) => match lex(alloc, text.as_bytes()) {
            Ok(tokens) => line_place(tokens.list.as_slice(), last.as_bytes()),
            Err(_) => None,
        },
        Err(_) => None,
    }
}

/// The line and the column of a place in a text, and its length.
fn shown(alloc: Global, text: &str, last: &str) -> Option<(u32, u32, u32)> {
    let found = place(alloc, text, last)?;
    let there = position_of(text.as_bytes(), found);
    Some((
        there.line,
        there.column,
        found.to.saturating_sub(found.from),
    ))
}

/// Whether what is told of a text begins with a line that begins so, and has so many carets in its third line.
fn begins(alloc: Global, text: &str, last: &str, begin: &str, carets: usize) -> bool {
    if text.len() > MOST_BYTES {
        return false;
    }
    let asked = Asked {
        name: b"p.sg",
        bytes: text.as_bytes(),
        line: last.as_bytes(),
        bound: b"",
    };
    match tell(alloc, &asked) {
        Ok(told) => {
            let said = told.text.as_slice();
            said.starts_with(begin.as_bytes()) && carets_below(said) == carets
        }
        Err(_) => false,
    }
}

/// How many carets stand in the third line, 0 where it isn't one of carets.
fn carets_below(said: &[u8]) -> usize {
    let line = line_of(said, 2);
    if line.starts_with(b"      | ") {
        carets_in(line)
    } else {
        0
    }
}

/// The line of a number, from 0, empty where there is none.
fn line_of(said: &[u8], number: usize) -> &[u8] {
    for (at, line) in said.split(|byte| *byte == b'\n').enumerate() {
        if at == number {
            return line;
        }
    }
    b""
}

/// How many carets there are.
fn carets_in(line: &[u8]) -> usize {
    let mut count: usize = 0;
    for byte in line {
        if *byte == b'^' {
            count = count.saturating_add(1);
        }
    }
    count
}

/// Whether a line of what is told of a text begins so, where files are bound to these fields.
fn warns(alloc: Global, text: &str, bound: &str, begin: &str) -> bool {
    if text.len() > MOST_BYTES {
        return false;
    }
    let asked = Asked {
        name: b"p.sg",
        bytes: text.as_bytes(),
        line: b"",
        bound: bound.as_bytes(),
    };
    match tell(alloc, &asked) {
        Ok(told) => has_line(told.text.as_slice(), begin.as_bytes()),
        Err(_) => false,
    }
}

/// Whether a line begins so.
fn has_line(said: &[u8], begin: &[u8]) -> bool {
    for line in said.split(|byte| *byte == b'\n') {
        if line.starts_with(begin) {
            return true;
        }
    }
    false
}

#[test]
fn reading_stops_where_no_form_goes_on(rt: HostRuntime) -> Result<(), Fail> {
    let alloc = rt.alloc();
    for (text, line, column, length) in syntax::FIRST {
        assert_eq!(rt;
            shown(alloc, *text, ""),
            Some((*line, *column, *length)),
            "{text}"
        );
    }
    for (text, line, column, length) in syntax::SECOND {
        assert_eq!(rt;
            shown(alloc, *text, ""),
            Some((*line, *column, *length)),
            "{text}"
        );
    }
    Ok(())
}

#[test]
fn refusals_are_shown_where_they_are(rt: HostRuntime) -> Result<(), Fail> {
    let alloc = rt.alloc();
    for (text, last, line, column, length) in places::FIRST {
        assert_eq!(rt;
            shown(alloc, *text, *last),
            Some((*line, *column, *length)),
            "{text}"
        );
    }
    for (text, last, line, column, length) in places_too::SECOND {
        assert_eq!(rt;
            shown(alloc, *text, *last),
            Some((*line, *column, *length)),
            "{text}"
        );
    }
    Ok(())
}

#[test]
fn mistakes_of_new_users_are_found(rt: HostRuntime) -> Result<(), Fail> {
    let alloc = rt.alloc();
    for (text, last, line, column, length) in users::MISTAKES {
        assert_eq!(rt;
            shown(alloc, *text, *last),
            Some((*line, *column, *length)),
            "{text}"
        );
    }
    Ok(())
}

#[test]
fn bytes_and_names_are_told(rt: HostRuntime) -> Result<(), Fail> {
    let alloc = rt.alloc();
    for (text, last, begin, carets) in told_names::BYTES {
        assert!(rt; begins(alloc, *text, *last, *begin, *carets), "{text}");
    }
    for (text, last, begin, carets) in told_names::NAMES {
        assert!(rt; begins(alloc, *text, *last, *begin, *carets), "{text}");
    }
    Ok(())
}

#[test]
fn faults_of_syntax_are_told(rt: HostRuntime) -> Result<(), Fail> {
    let alloc = rt.alloc();
    for (text, last, begin, carets) in told_syntax::SYNTAX {
        assert!(rt; begins(alloc, *text, *last, *begin, *carets), "{text}");
    }
    for (text, last, begin, carets) in told_syntax::SYNTAX_TOO {
        assert!(rt; begins(alloc, *text, *last, *begin, *carets), "{text}");
    }
    Ok(())
}

#[test]
fn rules_are_told(rt: HostRuntime) -> Result<(), Fail> {
    let alloc = rt.alloc();
    for (text, last, begin, carets) in told_rules::RULES {
        assert!(rt; begins(alloc, *text, *last, *begin, *carets), "{text}");
    }
    for (text, last, begin, carets) in told_rules::ADMISSIONS {
        assert!(rt; begins(alloc, *text, *last, *begin, *carets), "{text}");
    }
    for (text, last, begin, carets) in told_runs::RUNS {
        assert!(rt; begins(alloc, *text, *last, *begin, *carets), "{text}");
    }
    Ok(())
}

#[test]
fn what_may_be_a_mistake_is_told(rt: HostRuntime) -> Result<(), Fail> {
    let alloc = rt.alloc();
    for (text, bound, begin) in told_runs::WARNINGS {
        assert!(rt; warns(alloc, *text, *bound, *begin), "{text}");
    }
    Ok(())
}
