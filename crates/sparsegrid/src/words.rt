//! The words of the command line, and what they ask for.

ghost use Rattle.std.specs.List.{list_all};
ghost use Rattle.std.specs.Prelude.{◌≡◌, ◌∷◌, ◌≤◌, [], IfOk, IfSome, if◌then◌else◌, map, option_map, string_bytes};
ghost use Rattle.std.specs.Option.{option_copied};
ghost use Rattle.sg_session.specs.Bindings.{binding_read};
ghost use Rattle.sparsegrid.specs.Words as spec;
ghost use Rattle.sg_words.specs.Answers.{AnswersOption};
ghost use Rattle.clap.specs.Matches.{found_of};
ghost use Rattle.clap.specs.Walk.{rows_of};
ghost use Rattle.sparsegrid.specs.steps.Splitting.{asked_in, parts_of_rows};

use crate::generated::is_gen;
use crate::number::gen_number;
use crate::splitting::{has_dash_for_from, split};
use clap::ArgMatches;
use sg_ast::Name;
use sg_lexer::is_name;
use sg_session::{Bind, Binds};
use sg_words::{Items, Memory, Stop};
use std::alloc::Global;

/// What is done: the file is run, its kernels are looked at, or their access code is written; or the generated program is run; or the file is run
/// and the image of its last state is written, or which layouts need the fewest words for it; or a journal of the file's containers is audited,
/// or written while the file is run.
#[derive(Clone, Copy, Debug, PartialEq, Eq)]
pub enum Mode {
    Run,
    Check,
    Lower,
    Gen,
    Save,
    Audit,
    Advise,
    Journal,
}

/// What the words ask for: how many workers (1 to 16), the mode, the file, the snapshot that its commands begin with, the files that are bound to
/// names, and the number of the generated program. In mode gen there is no file and none is bound; in the others the number is 0.
#[derive(Debug, Drop)]
pub struct Words {
    pub workers: u32,
    pub mode: Mode,
    pub file: String,
    pub from: Option<String>,
    pub binds: Binds,
    pub number: u32,
}

/// The words aren't good.
#[derive(Clone, Copy, Debug, PartialEq, Eq)]
pub struct BadWords;

/// What stands before and after the first `=`, if there is one.
fn at_equals(word: &str) -> Option<(&str, &str)>
    ensures { option_map (λ cut. (cut.0.now, cut.1.now)) result ≡ spec.at_equals word.now }
{
    word.split_once('=')
}

fn can_be_positional(word: &str) -> bool
    ensures { result ≡ spec.can_be_positional word.now }
{
    match word.as_bytes() {
        [] => false,
        [byte, ..] => *byte != b'-',
    }
}

fn can_all_be_positional(words: &[&str]) -> bool
    ensures { result ≡ list_all spec.can_be_positional (map (λ word. word.now) words.now) }
{
    for word in words {
        if !can_be_positional(word) {
            return false;
        }
    }
    true
}

static WORKERS: [(&str, u32); 16] = [
    ("1", 1),
    ("2", 2),
    ("3", 3),
    ("4", 4),
    ("5", 5),
    ("6", 6),
    ("7", 7),
    ("8", 8),
    ("9", 9),
    ("10", 10),
    ("11", 11),
    ("12", 12),
    ("13", 13),
    ("14", 14),
    ("15", 15),
    ("16", 16),
];

/// The number beside a text.
fn number_beside(mut table: &[(&str, u32)], text: &str) -> Option<u32>
    ensures { result ≡ spec.value_beside (map (λ row. (row.0.now, row.1)) table.entry.now) text.now }
{
    while let [row, rest @ ..] = table {
        if text == row.0 {
            return Some(row.1);
        }
        table = rest;
    }
    None
}

/// The number of workers, which is 4 without the option.
fn workers_of(value: Option<&str>) -> Option<u32>
    ensures workers { result ≡ spec.workers_of (option_copied value.entry) }
    ensures some { IfSome result (λ count. 1 ≤ count) }
    ensures few { IfSome result (λ count. count ≤ 16) }
{
    match value {
        None => Some(4),
        Some(value) => number_beside(&WORKERS, value),
    }
}

/// The mode, which is to run without the option.
fn mode_of(value: Option<&str>) -> Option<Mode>
    ensures { result ≡ spec.mode_of (option_copied value.entry) }
{
    match value {
        None => Some(Mode::Run),
        Some(value) => {
            if value == "run" {
                Some(Mode::Run)
            } else if value == "check" {
                Some(Mode::Check)
            } else if value == "lower" {
                Some(Mode::Lower)
            } else if value == "gen" {
                Some(Mode::Gen)
            } else if value == "save" {
                Some(Mode::Save)
            } else if value == "audit" {
                Some(Mode::Audit)
            } else if value == "advise" {
                Some(Mode::Advise)
            } else if value == "journal" {
                Some(Mode::Journal)
            } else {
                None
            }
        }
    }
}

fn bind_of(alloc: Global, word: &str) -> Result<Bind, Stop<BadWords>>
    ensures { AnswersOption binding_read result (spec.binding_of word.now) }
{
    match at_equals(word) {
        None => Err(Stop::Refused(BadWords)),
        Some((name, file)) => {
            if !is_name(name.as_bytes()) || file.is_empty() {
                return Err(Stop::Refused(BadWords));
            }
            Ok(Bind {
                name: Name {
                    text: Items::from_slice(alloc, name.as_bytes())?,
                },
                file: String::from_str(alloc, file)?,
            })
        }
    }
}

fn has_binding(binds: &[Bind], name: &Name) -> bool
    ensures { result ≡ spec.has_binding (map binding_read binds.now) name.now.text }
{
    for bind in binds {
        if bind.name.is(name) {
            return true;
        }
    }
    false
}

fn binds_of(alloc: Global, words: &[&str]) -> Result<Items<Bind>, Stop<BadWords>>
    ensures { AnswersOption (λ binds. map binding_read binds) result (spec.bindings_after [] (map (λ word. word.now) words.now)) }
{
    let mut binds = Items::new(alloc);
    for word in words {
        let bind = bind_of(alloc, word)?;
        if has_binding(binds.as_slice(), &bind.name) {
            return Err(Stop::Refused(BadWords));
        }
        binds.push(bind)?;
    }
    Ok(binds)
}

/// Whether the tasks of a mode may begin with a snapshot.
fn may_begin(mode: Mode) -> bool
    ensures { result ≡ spec.may_begin (spec.doing mode) }
{
    match mode {
        Mode::Run => true,
        Mode::Check => false,
        Mode::Lower => false,
        Mode::Gen => false,
        Mode::Save => true,
        Mode::Audit => false,
        Mode::Advise => true,
        Mode::Journal => true,
    }
}

/// Whether a snapshot may be given so, if one is.
fn is_good_from(mode: Mode, from: Option<&str>) -> bool
    ensures { result ≡ spec.is_good_from mode (option_copied from.entry) }
{
    match from {
        None => true,
        Some(file) => may_begin(mode) && !file.is_empty(),
    }
}

/// A text of its own, if there is one.
fn owned(alloc: Global, text: Option<&str>) -> Result<Option<String>, Memory>
    ensures { IfOk result (λ owned. option_map string_bytes owned ≡ option_copied text.entry) }
{
    match text {
        None => Ok(None),
        Some(text) => Ok(Some(String::from_str(alloc, text)?)),
    }
}

/// Whether names are bound as a mode needs.
fn are_binds_for(mode: Mode, binds: &[Bind]) -> bool
    ensures { result ≡ spec.are_bindings_for (spec.doing mode) (map binding_read binds.now) }
{
    match mode {
        Mode::Run
        | Mode::Check
        | Mode::Lower
        | Mode::Gen
        | Mode::Save
        | Mode::Advise
        | Mode::Journal => true,
        Mode::Audit => bind_journal(binds),
    }
}

/// Whether just one name is bound, and it is `journal`.
fn bind_journal(binds: &[Bind]) -> bool
    ensures { result ≡ spec.bind_journal (map binding_read binds.now) }
{
    match binds {
        [bind] => bind.name.text.as_slice() == b"journal".as_slice(),
        _ => false,
    }
}

fn file_asked(
    alloc: Global,
    workers: u32,
    mode: Mode,
    from: Option<&str>,
    file: &str,
    words: &[&str],
) -> Result<Words, Stop<BadWords>>
    ensures asked { AnswersOption spec.asked_by result (spec.file_asked workers mode (option_copied from.entry) file.now (map (λ word. word.now) words.now)) }
    ensures workers { IfOk result (λ asked. asked.workers ≡ workers) }
{
    let binds = Binds {
        list: binds_of(alloc, words)?,
    };
    if !are_binds_for(mode, binds.list.as_slice()) {
        return Err(Stop::Refused(BadWords));
    }
    let from = owned(alloc, from)?;
    Ok(Words {
        workers,
        mode,
        file: String::from_str(alloc, file)?,
        from,
        binds,
        number: 0,
    })
}

fn number_asked(
    alloc: Global,
    workers: u32,
    mode: Mode,
    text: &str,
    words: &[&str],
) -> Result<Words, Stop<BadWords>>
    ensures asked { AnswersOption spec.asked_by result (spec.number_asked workers mode text.now (map (λ word. word.now) words.now)) }
    ensures workers { IfOk result (λ asked. asked.workers ≡ workers) }
{
    match words {
        [] => match gen_number(text.as_bytes()) {
            Some(number) => Ok(Words {
                workers,
                mode,
                file: String::new(alloc),
                from: None,
                binds: Binds {
                    list: Items::new(alloc),
                },
                number,
            }),
            None => Err(Stop::Refused(BadWords)),
        },
        [_word, ..] => Err(Stop::Refused(BadWords)),
    }
}

/// What the first positional word, and those after it, ask for.
fn first_asked(
    alloc: Global,
    workers: u32,
    mode: Mode,
    from: Option<&str>,
    first: &str,
    words: &[&str],
) -> Result<Words, Stop<BadWords>>
    ensures asked { AnswersOption spec.asked_by result
        (if spec.is_gen mode then spec.number_asked workers mode first.now (map (λ word. word.now) words.now)
        else spec.file_asked workers mode (option_copied from.entry) first.now (map (λ word. word.now) words.now)) }
    ensures workers { IfOk result (λ asked. asked.workers ≡ workers) }
{
    if is_gen(mode) {
        number_asked(alloc, workers, mode, first, words)
    } else {
        file_asked(alloc, workers, mode, from, first, words)
    }
}

fn asked_of(
    alloc: Global,
    workers: u32,
    mode: Mode,
    from: Option<&str>,
    positionals: &[&str],
) -> Result<Words, Stop<BadWords>>
    ensures asked { AnswersOption spec.asked_by result (spec.asked_of workers mode (option_copied from.entry) (map (λ word. word.now) positionals.now)) }
    ensures workers { IfOk result (λ asked. asked.workers ≡ workers) }
{
    match positionals {
        [] => Err(Stop::Refused(BadWords)),
        [first, words @ ..] => {
            if is_good_from(mode, from) {
                return first_asked(alloc, workers, mode, from, first, words);
            }
            Err(Stop::Refused(BadWords))
        }
    }
}

/// What the values of the options and the positional words ask for; no positional word may be empty or begin with `-`.
fn parts_asked(
    alloc: Global,
    workers: Option<&str>,
    mode: Option<&str>,
    from: Option<&str>,
    positionals: &[&str],
) -> Result<Words, Stop<BadWords>>
    ensures asked { AnswersOption spec.asked_by result
        (asked_in (record { workers = option_copied workers.entry; mode = option_copied mode.entry; from = option_copied from.entry; positionals = map (λ word. word.now) positionals.now })) }
    ensures some { IfOk result (λ asked. 1 ≤ asked.workers) }
    ensures few { IfOk result (λ asked. asked.workers ≤ 16) }
{
    if !can_all_be_positional(positionals) {
        return Err(Stop::Refused(BadWords));
    }
    let Some(workers) = workers_of(workers) else {
        return Err(Stop::Refused(BadWords));
    };
    let Some(mode) = mode_of(mode) else {
        return Err(Stop::Refused(BadWords));
    };
    asked_of(alloc, workers, mode, from, positionals)
}

/// What the matches of the command line ask for.
fn matches_asked(alloc: Global, matches: &ArgMatches) -> Result<Words, Stop<BadWords>>
    ensures asked { AnswersOption spec.asked_by result (asked_in (parts_of_rows (rows_of (found_of matches.now)))) }
    ensures some { IfOk result (λ asked. 1 ≤ asked.workers) }
    ensures few { IfOk result (λ asked. asked.workers ≤ 16) }
{
    parts_asked(
        alloc,
        matches.get_str("workers"),
        matches.get_str("mode"),
        matches.get_str("from"),
        matches.get_raw("positionals").unwrap_or(&[]),
    )
}

/// What the words after the program's name ask for; refused exactly when they aren't good. There are 1 to 16 workers.
pub fn read_words(alloc: Global, words: &[String]) -> Result<Words, Stop<BadWords>>
    ensures asked { AnswersOption spec.asked_by result (spec.good_words (map string_bytes words.now)) }
    ensures some { IfOk result (λ asked. 1 ≤ asked.workers) }
    ensures few { IfOk result (λ asked. asked.workers ≤ 16) }
{
    if has_dash_for_from(words) {
        return Err(Stop::Refused(BadWords));
    }
    match split(alloc, words) {
        Ok(matches) => matches_asked(alloc, &matches),
        Err(stop) => Err(stop),
    }
}
