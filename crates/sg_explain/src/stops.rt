//! What is wrong where reading stops: by what stands there, and what may stand there.

use crate::kinds::{begins_command, begins_item, begins_node, is_sign, is_some_sign, is_word};
use crate::stop_forms::{
    Advice, Stop, block_advice, name_advice, number_advice, operand_advice, sign_advice,
    statement_advice, way_advice, word_advice, written_advice,
};
use crate::want::Want;
use sg_ast::{Sign, Token, Word};

/// What is said of a place, by what may stand there.
pub(crate) fn advice(stop: &Stop) -> Option<Advice> {
    if let Some(found) = comment_advice(stop) {
        return Some(found);
    }
    match stop.want {
        Want::Items => Some(item_advice(stop.at)),
        Want::Commands { one: _ } => Some(command_advice(stop.at)),
        Want::Nodes { most } => node_advice(most, stop.at),
        Want::Fields { one } => Some(field_advice(one, stop.at)),
        Want::Block => Some(block_advice(stop)),
        Want::Statements => Some(statement_advice(stop.at)),
        Want::Written => Some(written_advice(stop.at)),
        Want::Way => Some(way_advice(stop)),
        Want::Operand => Some(operand_advice(stop.at)),
        Want::Bound { negative: _ } => Some(Advice {
            sentence: "a bound of an image is a number here: a `-` before it or not, no constant and no expression",
            instead: "image x 0 255;",
        }),
        Want::Number | Want::Plain | Want::Size => number_advice(stop.want, stop.at),
        Want::Name => name_advice(stop.at),
        Want::Sign(sign) => sign_advice(sign, stop),
        Want::Word(word) => word_advice(word, stop.at),
        Want::FieldType => Some(Advice {
            sentence: "a field is i32 or u32",
            instead: "field x: i32;",
        }),
        Want::MoreArguments { left: _ } => Some(Advice {
            sentence: "an argument is missing before this: `min` and `max` take 2, `mulq` takes 3, `i32` and `u32` take 1",
            instead: "min(a, b), mulq(a, b, s)",
        }),
        _ => None,
    }
}

/// What is said of `/*` and of `#`-like comments.
fn comment_advice(stop: &Stop) -> Option<Advice> {
    let opens = is_sign(stop.at, Sign::Slash) && is_some_sign(stop.behind, Sign::Star);
    let inside = is_sign(stop.at, Sign::Star) && is_some_sign(stop.before, Sign::Slash);
    if opens || inside {
        Some(Advice {
            sentence: "a comment is `//` up to the end of its line, and there is no other",
            instead: "// ..",
        })
    } else {
        None
    }
}

/// What is said where an item is wanted.
fn item_advice(at: &Token) -> Advice {
    if is_sign(at, Sign::CloseBrace) {
        Advice {
            sentence: "no brace is open that this one closes",
            instead: "nothing: leave it out",
        }
    } else if is_sign(at, Sign::Semicolon) {
        Advice {
            sentence: "this `;` ends nothing",
            instead: "nothing: leave it out",
        }
    } else {
        Advice {
            sentence: "no item begins with this: one begins with `const`, `layout`, `kernel`, `times` or a command's word",
            instead: "load F; run K; dump F; image F 0 255; stats A; prune A; clear A;",
        }
    }
}

/// What is said where a command of a `times` is wanted.
fn command_advice(at: &Token) -> Advice {
    if is_word(at, Word::Times) {
        Advice {
            sentence: "there is no `times` in a `times`",
            instead: "times 4 { run a; run b; }, with the turns multiplied",
        }
    } else if begins_item(at) {
        Advice {
            sentence: "a `}` is missing before this: a `times` above is still open",
            instead: "}",
        }
    } else {
        Advice {
            sentence: "a command of the `times` is wanted here: load, run, dump, image, stats, prune or clear",
            instead: "times 4 { run k; }",
        }
    }
}

/// What is said where a node is wanted.
fn node_advice(most: u8, at: &Token) -> Option<Advice> {
    if is_word(at, Word::Field) {
        Some(Advice {
            sentence: "the nodes come first, and then the fields",
            instead: "layout A(i) { dense(i: 8); field x: i32; }",
        })
    } else if begins_node(at) && most == 0 {
        Some(Advice {
            sentence: "a layout has at most 6 nodes",
            instead: "larger extents in fewer nodes",
        })
    } else {
        Some(Advice {
            sentence: "a node or a field is wanted here",
            instead: "dense(i: 8); bitmasked(i: 8); pointer(i: 8) cap 4; hash(i: 8) cap 4; dynamic(i: 8) chunk 4 cap 2; field x: i32;",
        })
    }
}

/// What is said where a field is wanted.
fn field_advice(one: bool, at: &Token) -> Advice {
    if begins_node(at) {
        Advice {
            sentence: "the nodes come first, and then the fields",
            instead: "layout A(i) { dense(i: 8); field x: i32; }",
        }
    } else if begins_item(at) || begins_command(at) {
        Advice {
            sentence: "a `}` is missing before this: a layout above is still open",
            instead: "}",
        }
    } else if one {
        Advice {
            sentence: "a layout has a field",
            instead: "field x: i32;",
        }
    } else {
        Advice {
            sentence: "a field or a `}` is wanted here",
            instead: "field x: i32;",
        }
    }
}
