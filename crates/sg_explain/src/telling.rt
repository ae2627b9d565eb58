//! All that is said of a file: its refusal or that of a run of it, where it is, and what to write; and what may be a mistake.

ghost use Rattle.std.specs.Prelude.{◌≤◌, length, IfOk};
ghost use Rattle.sg_lexer.specs.Limits.{most_file_bytes};
ghost use Rattle.sg_explain.specs.Explained.{Explains};

use crate::lines::{position_of, push_number, push_shown, push_text};
use crate::place::Place;
use crate::refused::{Explained, explain};
use crate::rule_texts::FILE_BYTES;
use crate::rules::{Rule, all_rules};
use crate::run_lines::push_run;
use crate::sentences::push_refusal;
use crate::stop_forms::Advice;
use crate::warning_lines::push_warnings;
use sg_words::Memory;
use std::alloc::Global;

/// A file by its name and its bytes, the last line of a run of it, empty for none, and the fields to which files are bound, each with a blank
/// behind it.
#[derive(Clone, Copy)]
pub struct Asked<'a> {
    pub name: &'a [u8],
    pub bytes: &'a [u8],
    pub line: &'a [u8],
    pub bound: &'a [u8],
}

/// Why a file is refused, if it is, and all that is said of it, in lines.
#[derive(Drop)]
pub struct Told {
    pub refused: Option<Explained>,
    pub text: Vec<u8>,
}

/// What is said of a file: where it is refused, or else where its run was, and what may be a mistake. Fails if memory runs out.
pub fn tell(alloc: Global, asked: &Asked) -> Result<Told, Memory>
    requires { length asked.now.bytes.now ≤ most_file_bytes }
    ensures { IfOk result (λ told. Explains asked.now.bytes.now told.refused) }
{
    let refused = explain(alloc, asked.bytes)?;
    let mut text = Vec::new(alloc);
    match refused {
        Some(told) => push_refusal(alloc, &mut text, asked, told)?,
        None => {
            push_run(alloc, &mut text, asked)?;
            push_warnings(alloc, &mut text, asked)?;
        }
    }
    Ok(Told { refused, text })
}

/// Adds the begin of a line about a place in a file: its name, and the line and the column.
pub(crate) fn push_begin(
    alloc: Global,
    text: &mut Vec<u8>,
    asked: &Asked,
    place: Option<Place>,
) -> Result<(), Memory> {
    text.extend_from_slice(asked.name)?;
    if let Some(found) = place {
        let there = position_of(asked.bytes, found);
        text.push(b':')?;
        push_number(alloc, text, there.line as u64)?;
        text.push(b':')?;
        push_number(alloc, text, there.column as u64)?;
    }
    text.extend_from_slice(b": ")?;
    Ok(())
}

/// Ends the sentence on a place, and adds its line with a caret.
fn push_place(
    alloc: Global,
    text: &mut Vec<u8>,
    asked: &Asked,
    place: Option<Place>,
) -> Result<(), Memory> {
    text.push(b'\n')?;
    match place {
        Some(found) => push_shown(alloc, text, asked.bytes, found),
        None => Ok(()),
    }
}

/// Ends the sentence on a place: adds its line with a caret, and the begin of what to write.
pub(crate) fn push_middle(
    alloc: Global,
    text: &mut Vec<u8>,
    asked: &Asked,
    place: Option<Place>,
) -> Result<(), Memory> {
    push_place(alloc, text, asked, place)?;
    push_text(text, "write: ")
}

/// Ends what to write, and adds the rule, and the last line of a run that breaks it.
pub(crate) fn push_end(text: &mut Vec<u8>, rule: &Rule) -> Result<(), Memory> {
    push_text(text, "\nrule:  ")?;
    push_text(text, rule.sentence)?;
    push_refused(text, rule)
}

/// Adds the last line of a run that breaks a rule.
fn push_refused(text: &mut Vec<u8>, rule: &Rule) -> Result<(), Memory> {
    push_text(text, "\nrefused as: ")?;
    push_text(text, rule.line)?;
    push_text(text, "\n")
}

/// Adds a rule, its place with a caret, and an example with what to write in its place.
pub(crate) fn push_rule(
    alloc: Global,
    text: &mut Vec<u8>,
    asked: &Asked,
    place: Option<Place>,
    rule: &Rule,
) -> Result<(), Memory> {
    push_begin(alloc, text, asked, place)?;
    push_text(text, rule.sentence)?;
    push_place(alloc, text, asked, place)?;
    push_text(text, "for:   ")?;
    push_text(text, rule.breaks)?;
    push_text(text, "\nwrite: ")?;
    push_text(text, rule.instead)?;
    push_refused(text, rule)
}

/// Adds what is said of a place: a sentence, and what to write.
pub(crate) fn push_said(
    alloc: Global,
    text: &mut Vec<u8>,
    asked: &Asked,
    place: Option<Place>,
    rule: &Rule,
    said: Advice,
) -> Result<(), Memory> {
    push_begin(alloc, text, asked, place)?;
    push_text(text, said.sentence)?;
    push_middle(alloc, text, asked, place)?;
    push_text(text, said.instead)?;
    push_end(text, rule)
}

/// Adds all rules, each with an example.
pub fn push_rules(text: &mut Vec<u8>) -> Result<(), Memory> {
    for rule in all_rules() {
        push_text(text, "refused: ")?;
        push_text(text, rule.line)?;
        push_text(text, "\n  rule:  ")?;
        push_text(text, rule.sentence)?;
        push_text(text, "\n  for:   ")?;
        push_text(text, rule.breaks)?;
        push_text(text, "\n  write: ")?;
        push_text(text, rule.instead)?;
        push_text(text, "\n")?;
    }
    Ok(())
}

/// Adds what is said of a file of this name with too many bytes.
pub fn push_long(text: &mut Vec<u8>, name: &[u8]) -> Result<(), Memory> {
    let rule = FILE_BYTES;
    text.extend_from_slice(name)?;
    push_text(text, ": the file is too long\nwrite: ")?;
    push_text(text, rule.instead)?;
    push_end(text, &rule)
}
