//! The rule that a refusal is about.

use crate::rule_texts as texts;
use crate::runs::word_at;
use sg_admit::AdmitFault;
use sg_layout::LayoutFault;
use sg_lexer::LexFault;
use sg_names::{NameFault, Which};
use sg_session::Refusal;

/// A rule: the last line of a run that breaks it, what a file must keep, what breaks it, and what to write in its place.
#[derive(Clone, Copy)]
pub struct Rule {
    pub line: &'static str,
    pub sentence: &'static str,
    pub breaks: &'static str,
    pub instead: &'static str,
}

/// All rules, in the order in which they are looked for.
pub fn all_rules() -> &'static [Rule] {
    texts::RULES
}

/// The rule that a refusal of a file is about.
pub fn rule_of(refusal: Refusal) -> Rule {
    match refusal {
        Refusal::Lex(fault) => lex_rule(fault),
        Refusal::Parse(_) => texts::SYNTAX,
        Refusal::Name(fault) => name_rule(fault),
        Refusal::Layout { layout: _, fault } => layout_rule(fault),
        Refusal::Words => texts::WORDS,
        Refusal::Types(fault) => type_rule(fault.code),
        Refusal::Admit { kernel: _, fault } => admit_rule(fault),
        Refusal::Command { item: _ } => texts::COMMAND,
        Refusal::Times => texts::TIMES,
        Refusal::Image => texts::IMAGE,
    }
}

/// The rule that a fault of bytes is about.
fn lex_rule(fault: LexFault) -> Rule {
    match fault {
        LexFault::BadByte { line: _ } => texts::BAD_BYTE,
        LexFault::BadNumber { line: _ } => texts::BAD_NUMBER,
        LexFault::LongName { line: _ } => texts::NAME_BYTES,
        LexFault::TooManyTokens => texts::TOKENS,
    }
}

/// The rule that a fault of names is about.
fn name_rule(fault: NameFault) -> Rule {
    match fault {
        NameFault::Unknown { item: _ } => texts::UNKNOWN,
        NameFault::Twice { item: _ } => texts::TWICE,
        NameFault::TooMany { which } => match which {
            Which::Layouts => texts::LAYOUTS,
            Which::Fields => texts::FIELDS,
            Which::Kernels => texts::KERNELS,
            Which::Commands => texts::COMMANDS,
        },
    }
}

/// The rule that a fault of a layout is about.
fn layout_rule(fault: LayoutFault) -> Rule {
    match fault {
        LayoutFault::BadExtent { node: _ } => texts::EXTENT,
        LayoutFault::BadOrder { node: _ } => texts::ORDER,
        LayoutFault::BadAxis { node: _ } => texts::AXIS,
        LayoutFault::TooLarge => texts::LAYOUT_POINTS,
        LayoutFault::BadCap { node: _ } => texts::CAP,
    }
}

/// The rule of a code of types.
fn type_rule(code: u32) -> Rule {
    match code {
        2 => texts::INDICES,
        3 => texts::ASSIGNED,
        4 => texts::LOCAL,
        5 => texts::IN_SCOPE,
        _ => texts::TYPES,
    }
}

/// The rule of admission that a fault is about.
fn admit_rule(fault: AdmitFault) -> Rule {
    match fault {
        AdmitFault::Rule { stmt: _, rule } => match rule {
            1 => texts::ONE_WAY,
            2 => texts::OWN_PLACE,
            3 => texts::NOT_READ,
            4 => texts::CLEAN,
            5 => texts::CONSTANT,
            _ => texts::ASKED,
        },
        AdmitFault::BoxTooLarge => texts::BOX,
    }
}

/// The rule that the last line of a run is about, which begins with `refused:`.
pub fn rule_of_line(line: &[u8]) -> Option<Rule> {
    for rule in texts::RULES {
        if is_of(rule, line) {
            return Some(*rule);
        }
    }
    None
}

/// Whether a line is one of a rule: each word of the rule stands there, but for those that stand for a name or a number.
fn is_of(rule: &Rule, line: &[u8]) -> bool {
    for (number, word) in rule.line.as_bytes().split(|byte| *byte == b' ').enumerate() {
        if !stands_for(word) && word_at(line, number.saturating_add(1)) != word {
            return false;
        }
    }
    true
}

/// Whether a word of a rule's line stands for a name or a number: it begins with a capital letter.
fn stands_for(word: &[u8]) -> bool {
    match word {
        [first, ..] => first.is_ascii_uppercase(),
        _ => false,
    }
}
