//! What has changed between two states of stores, as lines of a journal.

ghost use Rattle.std.specs.Prelude.{◌≡◌, ◌≤◌, ◌++◌, nat_lt, All, IfOk, OnErr, OnOk, length, map};
ghost use Rattle.std.specs.List.{prefix_len};
ghost use Rattle.sg_journal.specs.Changes.{HasChanges, changes, frees_upto, lacking, takes_upto};
ghost use Rattle.sg_journal.specs.Lines.{line_text, lines_text, IsInRange};
ghost use Rattle.sg_journal.specs.Placing.{AreRising, links_in};
ghost use Rattle.sg_journal.specs.steps.Lacking.{begins_with, drop_below, line_for, text_if};

use crate::lines::{Line, Link, push_line};
use crate::placing::{NodeLinks, Placed};
use sg_store::{LinkAt, Stores};
use sg_words::Memory;
use std::alloc::{AllocError, Global};

/// Adds the lines of what has changed between two states of the stores of the same layouts. Where memory runs out the text is as
/// before.
pub fn changes(alloc: Global, old: &Stores, new: &Stores, into: &mut Vec<u8>) -> Result<(), Memory>
    ensures lines { OnOk result (HasChanges old.now.list new.now.list into.old.items into.new.items) }
    ensures stays { OnErr result (into.new.items ≡ into.old.items) }
{
    let from = Placed::of(alloc, old)?;
    let to = Placed::of(alloc, new)?;
    changes_between(alloc, &from, &to, into)
}

/// Adds the lines of the changes from where numbers stood to where they stand. Where memory runs out the text is as before. In time
/// by how many numbers stand.
pub fn changes_between(
    alloc: Global,
    from: &Placed,
    to: &Placed,
    into: &mut Vec<u8>,
) -> Result<(), Memory>
    ensures lines { OnOk result (into.new.items ≡ into.old.items ++ lines_text (changes from.now.layouts to.now.layouts)) }
    ensures range { OnOk result (All IsInRange (changes from.now.layouts to.now.layouts)) }
    ensures stays { OnErr result (into.new.items ≡ into.old.items) }
{
    let lines = change_lines(alloc, from, to)?;
    into.extend_from_slice(lines.as_slice())?;
    Ok(())
}

/// The lines of the changes.
fn change_lines(alloc: Global, from: &Placed, to: &Placed) -> Result<Vec<u8>, Memory>
    ensures text { IfOk result (λ lines. lines.items ≡ lines_text (changes from.now.layouts to.now.layouts)) }
    ensures range { OnOk result (All IsInRange (changes from.now.layouts to.now.layouts)) }
{
    let olds = from.layouts.as_slice();
    let news = to.layouts.as_slice();
    let mut lines = Vec::new(alloc);
    for layout in 0..count(olds.len().min(news.len()))? {
        let old = olds[layout as usize].as_slice();
        let new = news[layout as usize].as_slice();
        push_frees(&mut lines, layout, old, new)?;
        push_takes(&mut lines, layout, old, new)?;
    }
    Ok(lines)
}

/// How many layouts or nodes there are: their numbers have 32 bits.
fn count(length: usize) -> Result<u32, Memory>
    ensures { IfOk result (λ count. count ≡ length) }
{
    match u32::try_from(length) {
        Ok(count) => Ok(count),
        Err(_) => Err(Memory),
    }
}

/// Adds what is freed at the nodes of a layout, from the last to the first.
fn push_frees(
    lines: &mut Vec<u8>,
    layout: u32,
    old: &[NodeLinks],
    new: &[NodeLinks],
) -> Result<(), Memory>
    ensures text { OnOk result (lines.new.items ≡ lines.old.items ++ lines_text (frees_upto layout old.now new.now (length old.now))) }
    ensures range { OnOk result (All IsInRange (frees_upto layout old.now new.now (length old.now))) }
{
    let count = count(old.len())?;
    for done in 0..count {
        let index = count - 1 - done;
        let gone = links_in(old, index);
        let others = links_in(new, index);
        push_lacking(lines, false, layout, index + 1, gone, others)?;
    }
    Ok(())
}

/// Adds what is taken at the nodes of a layout, from the first on.
fn push_takes(
    lines: &mut Vec<u8>,
    layout: u32,
    old: &[NodeLinks],
    new: &[NodeLinks],
) -> Result<(), Memory>
    ensures text { OnOk result (lines.new.items ≡ lines.old.items ++ lines_text (takes_upto layout old.now new.now (length new.now))) }
    ensures range { OnOk result (All IsInRange (takes_upto layout old.now new.now (length new.now))) }
{
    for index in 0..count(new.len())? {
        let come = links_in(new, index);
        let others = links_in(old, index);
        push_lacking(lines, true, layout, index + 1, come, others)?;
    }
    Ok(())
}

/// The links of the node with this index, from 0; none past the last.
fn links_in(nodes: &[NodeLinks], index: u32) -> &[LinkAt]
    ensures links { result.now ≡ links_in nodes.now index }
    ensures rising { AreRising result.now }
{
    match nodes.get(index as usize) {
        Some(node) => node.as_slice(),
        None => &[],
    }
}

/// Adds the lines of the links of a node that others lack, in their order: in one pass over both.
fn push_lacking(
    lines: &mut Vec<u8>,
    taken: bool,
    layout: u32,
    node: u32,
    links: &[LinkAt],
    others: &[LinkAt],
) -> Result<(), AllocError>
    requires links { AreRising links.now }
    requires others { AreRising others.now }
    ensures text { OnOk result (lines.new.items
        ≡ lines.old.items ++ lines_text (map (line_for taken layout node) (lacking others.now links.now))) }
    ensures range { OnOk result (All IsInRange (map (line_for taken layout node) (lacking others.now links.now))) }
{
    let mut left = others;
    for link in links {
        left = past(left, link.number);
        push_unless(
            lines,
            begins_with(left, *link),
            line_for(taken, layout, node, *link),
        )?;
    }
    Ok(())
}

/// Adds a line, unless it isn't wanted.
fn push_unless(lines: &mut Vec<u8>, unwanted: bool, line: Line) -> Result<(), AllocError>
    ensures { OnOk result (lines.new.items ≡ lines.old.items ++ text_if unwanted (line_text line)) }
{
    if unwanted {
        return Ok(());
    }
    push_line(lines, line)
}

/// The links from the first on whose number is at least this one.
fn past(links: &[LinkAt], number: u32) -> &[LinkAt]
    ensures { result.now ≡ drop_below number links.now }
{
    &links[below(links, number)..]
}

/// How many links from the first on have a smaller number.
fn below(links: &[LinkAt], number: u32) -> usize
    ensures value { result ≡ prefix_len (λ link. nat_lt link.number number) links.now }
    ensures within { result ≤ length links.now }
{
    links.iter().take_while(|link| link.number < number).count()
}

/// Whether the first is that link.
fn begins_with(links: &[LinkAt], link: LinkAt) -> bool
    ensures { result ≡ begins_with links.now link }
{
    match links.first() {
        Some(first) => *first == link,
        None => false,
    }
}

/// The line of a link that was taken or freed.
fn line_for(taken: bool, layout: u32, node: u32, link: LinkAt) -> Line
    ensures line { result ≡ line_for taken layout node link }
    ensures range { IsInRange result }
{
    if taken {
        Line::Take(Link {
            layout,
            node,
            number: link.number,
            parent: link.parent,
            slot: link.slot,
        })
    } else {
        Line::Free {
            layout,
            node,
            number: link.number,
        }
    }
}
