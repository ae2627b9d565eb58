//! How a descent starts: the words of all pointer and bitmasked nodes of a store in one table.
ghost use Rattle.std.specs.Prelude.{◌≡◌, ℕ, suc, ◌+◌, ◌≤◌, ◌++◌, length, replicate, IfOk};
ghost use Rattle.sg_words.specs.RaceMachine.{newcomer};
ghost use Rattle.sg_layout.specs.Live.{kind_at};
ghost use Rattle.sg_store.specs.WellFormed.{IsWellFormed};
ghost use Rattle.sg_activate.specs.DescentRace.{told_at};
ghost use Rattle.sg_activate.specs.DescentLaws.{first_words};
ghost use Rattle.sg_activate.specs.Descending.{is_fused, is_pointer, last_from, last_fused, nodes_before, open_before, number_among, IsStartOf};
ghost use Rattle.sg_activate.specs.Descents.{start_of, worker_of, IsSeatOf};
ghost use Rattle.sg_activate.specs.steps.DescentPlans.{pointers_of, IsPlanOf, IsHeads};

use crate::caps::places_of;
use crate::descent::plan::Plan;
use crate::descent::rule::Start;
use crate::descent::seat::{DescentPass, DescentSeat};
use atomic_table::Table;
use sg_layout::{Kind, NodeShape};
use sg_store::Store;
use sg_words::{Items, Memory};
use std::alloc::Global;

impl DescentPass {
    /// A race for the links and bits of all pointer and bitmasked nodes of a store, of which there is at least one, and
    /// its first seat, which has the whole share of 16.
    pub fn start(alloc: Global, store: &Store) -> Result<(DescentPass, DescentSeat), Memory>
        requires fused { 1 ≤ last_fused store.now.shape }
        ensures seat { IfOk result (λ r. IsSeatOf r.0 r.1) }
        ensures given { IfOk result (λ r. IsStartOf (start_of r.0) store.now) }
        ensures worker { IfOk result (λ r. worker_of r.1 ≡ newcomer (told_at (start_of r.0)) 16) }
    {
        let nodes = store.layout().shape().nodes.as_slice();
        let last = last_of(nodes);
        let base = before(nodes[0].kind);
        let mut plan = begun(alloc, store, pointers_to(nodes, last))?;
        for index in base..last {
            plan.add(alloc, store, index)?;
        }
        seated(alloc, store, plan, base)
    }
}

/// What stands above the nodes of a descent: the keys of a hash node, the links that lead to the places, and how many
/// places there are.
#[derive(Drop)]
struct Heads {
    keys: Items<u64>,
    links: Items<u64>,
    places: u64,
}

// The root, to which one link leads, or the hash node's keys and links.
fn heads_of(alloc: Global, store: &Store) -> Result<Heads, Memory>
    ensures { IfOk result (λ heads. IsHeads store.now heads.keys heads.links heads.places) }
{
    let node = &store.layout().shape().nodes.as_slice()[0];
    if before(node.kind) == 1 {
        return Ok(Heads {
            keys: store.key_words(alloc)?,
            links: store.slot_words(alloc, 1)?,
            places: places_of(node),
        });
    }
    Ok(Heads {
        keys: Items::new(alloc),
        links: Items::from_slice(alloc, &[1])?,
        places: 1,
    })
}

// A plan of no node yet, where the descent has so many pointer nodes.
fn begun(alloc: Global, store: &Store, total: u64) -> Result<Plan, Memory>
    requires total { total ≡ pointers_of store.now.shape }
    ensures plan { IfOk result (IsPlanOf store.now) }
    ensures empty { IfOk result (λ plan. length plan.levels ≡ 0) }
{
    let Heads {
        keys,
        links,
        places,
    } = heads_of(alloc, store)?;
    let start = Start {
        layout: store.layout().copy(alloc)?,
        links: Items::new(alloc),
        masks: Items::new(alloc),
        stock: Items::new(alloc),
        keys,
        heads: links,
        head_places: places,
        slot_parts: Items::new(alloc),
        mask_parts: Items::new(alloc),
    };
    Ok(Plan {
        start,
        levels: Items::new(alloc),
        over: total,
        width: 1,
    })
}

// The descent of a plan that goes through the last pointer or bitmasked node, and its first seat.
fn seated(
    alloc: Global,
    store: &Store,
    plan: Plan,
    base: usize,
) -> Result<(DescentPass, DescentSeat), Memory>
    requires plan { IsPlanOf store.now plan }
    requires base { base ≡ open_before store.now.shape }
    requires through { base + length plan.levels ≡ last_fused store.now.shape }
    requires fused { 1 ≤ last_fused store.now.shape }
    requires well_formed { IsWellFormed store.now }
    ensures seat { IfOk result (λ r. IsSeatOf r.0 r.1) }
    ensures given { IfOk result (λ r. IsStartOf (start_of r.0) store.now) }
    ensures worker { IfOk result (λ r. worker_of r.1 ≡ newcomer (told_at (start_of r.0)) 16) }
{
    let Plan {
        start,
        levels,
        over: _,
        width: _,
    } = plan;
    let words = words_of(alloc, &start)?;
    let (table, seat) = Table::of_words(alloc, words.as_slice(), &start)?;
    let pass = DescentPass {
        table,
        start,
        base,
        levels,
    };
    let seat = DescentSeat {
        seat,
        spares: [0; 6],
        dry: [false; 6],
        last_bits: [0; 6],
    };
    Ok((pass, seat))
}

// The words of the table: slots, masks, and a count of drawn tickets for each pointer node.
fn words_of(alloc: Global, start: &Start) -> Result<Items<u64>, Memory>
    requires few { length start.now.slot_parts ≤ 6 }
    ensures { IfOk result (λ words. words ≡ first_words start.now) }
{
    let counts = Items::from_slice(alloc, &[0; 6][..start.slot_parts.len()])?;
    let mut rest = Items::from_slice(alloc, start.masks.as_slice())?;
    rest.append(counts)?;
    let mut words = Items::from_slice(alloc, start.links.as_slice())?;
    words.append(rest)?;
    Ok(words)
}

/// The number of the last pointer or bitmasked node, counted from 1; 0 if there is none.
pub(crate) fn last_of(nodes: &[NodeShape]) -> usize
    ensures value { result ≡ last_from 1 nodes.now 0 }
    ensures within { result ≤ length nodes.now }
{
    let mut last = 0;
    for index in 0..nodes.len() {
        if is_fused(nodes[index].kind) {
            last = index + 1;
        }
    }
    last
}

// How many pointer nodes there are among the first so many nodes.
fn pointers_to(nodes: &[NodeShape], last: usize) -> u64
    requires within { last ≤ length nodes.now }
    ensures { result ≡ number_among is_pointer nodes.now (suc last) }
{
    let mut many = 0;
    for index in 0..last {
        if is_pointer(nodes[index].kind) {
            many += 1;
        }
    }
    many
}

fn is_fused(kind: Kind) -> bool
    ensures { result ≡ is_fused kind }
{
    match kind {
        Kind::Bitmasked => true,
        Kind::Pointer => true,
        Kind::Dense => false,
        Kind::Hash => false,
        Kind::Dynamic => false,
    }
}

fn is_pointer(kind: Kind) -> bool
    ensures { result ≡ is_pointer kind }
{
    match kind {
        Kind::Pointer => true,
        Kind::Dense => false,
        Kind::Bitmasked => false,
        Kind::Hash => false,
        Kind::Dynamic => false,
    }
}

// How many nodes are open before a descent, by the kind of the first node: the hash node, where there is one.
fn before(kind: Kind) -> usize
    ensures { result ≡ nodes_before kind }
{
    match kind {
        Kind::Hash => 1,
        Kind::Dense => 0,
        Kind::Bitmasked => 0,
        Kind::Pointer => 0,
        Kind::Dynamic => 0,
    }
}
