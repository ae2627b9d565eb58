//! What spreads along links from where it starts: each link is looked at once.
ghost use Rattle.std.specs.Prelude.{◌≡◌, ℕ, ◌==◌, ◌∷◌, ◌++◌, [], true, get_or, vec_len, if◌then◌else◌, IfOk, OnOk, OnErr};
ghost use Rattle.sg_words.specs.Spread as spec;
ghost use Rattle.sg_words.specs.steps.SpreadSteps as steps;

use crate::memory::Memory;
use sqlite_items::Items;
use std::alloc::Global;

/// That what is at one place is at another too.
#[derive(Clone, Copy, Debug, PartialEq, Eq)]
pub struct Link {
    pub from: usize,
    pub to: usize,
}

/// The least set of places that has each start, and each place where a link from one of it leads.
pub fn spread(alloc: Global, links: &[Link], start: &[usize]) -> Result<Items<bool>, Memory>
    ensures { IfOk result (λ marks. spec.IsLeastSpread links.now start.now marks) }
{
    let targets = targets(alloc, links)?;
    let mut marks = Items::new(alloc);
    let mut work = Items::from_slice(alloc, start)?;
    while let Some(place) = work.pop() {
        visit(targets.as_slice(), place, &mut marks, &mut work)?;
    }
    Ok(marks)
}

/// Marks a place that has no mark, and adds to the work where links lead from it.
fn visit(
    targets: &[Items<usize>],
    place: usize,
    marks: &mut Items<bool>,
    work: &mut Items<usize>,
) -> Result<(), Memory>
    ensures { OnOk result (steps.IsVisited targets.now place marks.old work.old marks.new work.new) }
{
    if is_marked(marks, place) {
        return Ok(());
    }
    mark(marks, place)?;
    if let Some(more) = targets.get(place) {
        add_all(work, more.as_slice())?;
    }
    Ok(())
}

fn add_all(work: &mut Items<usize>, more: &[usize]) -> Result<(), Memory>
    ensures { OnOk result (work.new ≡ work.old ++ more.now) }
{
    for place in more {
        work.push(*place)?;
    }
    Ok(())
}

/// Whether a place has a mark. One past the end has none.
pub fn is_marked(marks: &Items<bool>, place: usize) -> bool
    ensures { result ≡ spec.bears_mark marks.now place }
{
    match marks.get(place) {
        Some(marked) => *marked,
        None => false,
    }
}

/// Marks a place; the others stay as they are. If memory runs out, all do.
pub fn mark(marks: &mut Items<bool>, place: usize) -> Result<(), Memory>
    ensures marked { OnOk result ((other : ℕ) → spec.bears_mark marks.new other
        ≡ (if other == place then true else spec.bears_mark marks.old other)) }
    ensures stays { OnErr result ((other : ℕ) → spec.bears_mark marks.new other ≡ spec.bears_mark marks.old other) }
{
    while marks.len() <= place {
        marks.push(false)?;
    }
    marks.set(place, true);
    Ok(())
}

/// Where links lead, by the place that they lead from.
fn targets(alloc: Global, links: &[Link]) -> Result<Vec<Items<usize>>, Memory>
    ensures { IfOk result (λ targets. (place : ℕ) → get_or targets.items place []
        ≡ steps.targets_of links.now place) }
{
    let mut targets = Vec::new(alloc);
    for link in links {
        add_target(alloc, &mut targets, *link)?;
    }
    Ok(targets)
}

fn add_target(alloc: Global, targets: &mut Vec<Items<usize>>, link: Link) -> Result<(), Memory>
    ensures { OnOk result ((place : ℕ) → get_or targets.new.items place []
        ≡ (if link.from == place then get_or targets.old.items place [] ++ link.to ∷ []
        else get_or targets.old.items place [])) }
{
    let from = link.from;
    while targets.len() <= from {
        targets.push(Items::new(alloc))?;
    }
    targets[from].push(link.to)?;
    Ok(())
}
