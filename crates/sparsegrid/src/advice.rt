//! What advice says of the last state of a program: which layouts need the fewest words for what each keeps.

ghost use Rattle.std.specs.Prelude.{◌≡◌, ◌<◌, ◌≤◌, ◌++◌, ◌∷◌, [], length, map, slice_get, codes, IfOk, OnOk};
ghost use Rattle.std.specs.Fmt.{decimal};
ghost use Rattle.sg_flat.specs.declared.state.FlatState.{FlatState};
ghost use Rattle.sg_store.specs.Standing.{StandForState};
ghost use Rattle.sg_convert.specs.Alike.{IsAlikeTo};
ghost use Rattle.sg_convert.specs.Advised.{IsAdvice, counted, counts_of};
ghost use Rattle.sparsegrid.specs.Lines as spec_lines;
ghost use Rattle.sparsegrid.specs.Advice as spec;

use crate::run_line::layout_text;
use sg_convert::{Advice, Count, advise, convert};
use sg_image::stats_by_workers;
use sg_layout::Layouts;
use sg_outside::Gate;
use sg_session::{Compiled, Session};
use sg_words::{Items, Memory, Stop, Text};
use std::alloc::Global;
use std::thread::Threads;

/// For each layout, in order, how many words what it keeps uses of each layout that is alike, the best of these, and the counts of what is
/// kept under the best.
pub(crate) fn advice_text<R: Threads + Sync, G: Gate + Sync>(
    rt: &R,
    alloc: Global,
    session: &Session,
    workers: u32,
    gate: &G,
) -> Result<Text, Memory>
    requires some { 1 ≤ workers }
    requires few { workers ≤ 16 }
    ensures { IfOk result (λ text. (state : FlatState) → StandForState session.now.compiled.layouts session.now.stores state →
        text.bytes ≡ spec.advice_text session.now.compiled.names session.now.compiled.layouts state) }
{
    let count = layouts_of(session).list.len();
    if count > u32::MAX as usize {
        // memory doesn't have room for so many
        return Err(Memory);
    }
    let mut text = Vec::new(alloc);
    for number in 0..count {
        push_advice(rt, alloc, &mut text, session, number as u32, workers, gate)?;
    }
    Ok(Text {
        bytes: Items::from_vec(text),
    })
}

/// The layouts of a session's program.
fn layouts_of(session: &Session) -> &Layouts
    ensures { result.now.list ≡ session.now.compiled.layouts }
{
    &session.compiled.layouts
}

/// Adds the lines of the layout of a number.
fn push_advice<R: Threads + Sync, G: Gate + Sync>(
    rt: &R,
    alloc: Global,
    text: &mut Vec<u8>,
    session: &Session,
    number: u32,
    workers: u32,
    gate: &G,
) -> Result<(), Memory>
    requires some { 1 ≤ workers }
    requires few { workers ≤ 16 }
    requires there { number < length session.now.compiled.layouts }
    ensures { OnOk result ((state : FlatState) → StandForState session.now.compiled.layouts session.now.stores state →
        text.new.items ≡ text.old.items ++ spec.lines_by session.now.compiled.names session.now.compiled.layouts state number
        (counts_of session.now.compiled.layouts state.layouts number)) }
{
    let advice = advise(alloc, &session.stores, layouts_of(session), number)?;
    push_counts(
        alloc,
        text,
        &session.compiled,
        number,
        advice.counts.as_slice(),
    )?;
    push_best(
        alloc,
        text,
        &session.compiled,
        number,
        advice.best,
        advice.words,
    )?;
    let line = converted_line(rt, alloc, session, number, &advice, workers, gate)?;
    text.extend_from_slice(line.bytes.as_slice())?;
    Ok(())
}

/// Adds the lines of counts of the layout of a number.
fn push_counts(
    alloc: Global,
    text: &mut Vec<u8>,
    compiled: &Compiled,
    number: u32,
    counts: &[Count],
) -> Result<(), Memory>
    ensures { OnOk result (text.new.items ≡ text.old.items ++ spec.count_lines compiled.now.names number (map counted counts.now)) }
{
    for count in counts {
        push_count(alloc, text, compiled, number, *count)?;
    }
    Ok(())
}

/// Adds the line of a count of the layout of a number.
fn push_count(
    alloc: Global,
    text: &mut Vec<u8>,
    compiled: &Compiled,
    number: u32,
    count: Count,
) -> Result<(), Memory>
    ensures { OnOk result (text.new.items ≡ text.old.items ++ spec.count_lines compiled.now.names number (counted count ∷ [])) }
{
    match count.words {
        Some(words) => {
            let words = format!(in alloc; "{words}")?;
            push_line(
                text,
                b"advise ",
                compiled,
                number,
                count.layout,
                words.as_bytes(),
            )
        }
        None => push_line(text, b"advise ", compiled, number, count.layout, b"full"),
    }
}

/// Adds the line of the best layout for that of a number.
fn push_best(
    alloc: Global,
    text: &mut Vec<u8>,
    compiled: &Compiled,
    number: u32,
    best: u32,
    words: u64,
) -> Result<(), Memory>
    ensures { OnOk result (text.new.items ≡ text.old.items ++ spec.advice_line (codes "best ") compiled.now.names number best (decimal words)) }
{
    let words = format!(in alloc; "{words}")?;
    push_line(text, b"best ", compiled, number, best, words.as_bytes())
}

/// Adds a line on the layout of a number and another.
fn push_line(
    text: &mut Vec<u8>,
    what: &[u8],
    compiled: &Compiled,
    number: u32,
    other: u32,
    count: &[u8],
) -> Result<(), Memory>
    ensures { OnOk result (text.new.items ≡ text.old.items ++ spec.advice_line what.now compiled.now.names number other count.now) }
{
    text.extend_from_slice(what)?;
    text.extend_from_slice(layout_text(compiled, number))?;
    text.push(b' ')?;
    text.extend_from_slice(layout_text(compiled, other))?;
    text.push(b' ')?;
    text.extend_from_slice(count)?;
    text.push(b'\n')?;
    Ok(())
}

/// The counts of what the layout of a number keeps under the best layout for it.
fn converted_line<R: Threads + Sync, G: Gate + Sync>(
    rt: &R,
    alloc: Global,
    session: &Session,
    number: u32,
    advice: &Advice,
    workers: u32,
    gate: &G,
) -> Result<Text, Memory>
    requires some { 1 ≤ workers }
    requires few { workers ≤ 16 }
    requires there { number < length session.now.compiled.layouts }
    requires alike { IsAlikeTo session.now.compiled.layouts number advice.now.best }
    requires advised { (state : FlatState) → StandForState session.now.compiled.layouts session.now.stores state →
        IsAdvice session.now.compiled.layouts state.layouts number advice.now }
    ensures { IfOk result (λ text. (state : FlatState) → StandForState session.now.compiled.layouts session.now.stores state →
        text.bytes ≡ spec.converted_line (spec_lines.layout_text session.now.compiled.names advice.now.best)
        (slice_get session.now.compiled.layouts number) (slice_get session.now.compiled.layouts advice.now.best) (slice_get state.layouts number)) }
{
    let stores = session.stores.list.as_slice();
    let store = &stores[number as usize];
    let to = stores[advice.best as usize].layout();
    match convert(rt, alloc, store, to, workers, gate) {
        Ok(converted) => {
            let name = layout_text(&session.compiled, advice.best);
            stats_by_workers(rt, alloc, &converted, name, workers)
        }
        // what is kept fits the best layout
        Err(Stop::Refused(_full)) => unreachable!(),
        Err(Stop::Memory) => Err(Memory),
    }
}
