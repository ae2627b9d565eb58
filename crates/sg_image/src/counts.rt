//! What is active and live in a store, in one line.

ghost use Rattle.std.specs.Prelude.{◌≡◌, ◌<◌, ◌≤◌, ◌++◌, suc, length, slice_get, Some, IfOk, OnOk, string_bytes};
ghost use Rattle.sg_layout.specs.declared.shape.NodeShape.{NodeShape};
ghost use Rattle.sg_layout.specs.Limits.{most_nodes};
ghost use Rattle.sg_flat.specs.declared.state.FlatLayout.{FlatLayout};
ghost use Rattle.sg_store.specs.WellFormed.{kind_has_cap};
ghost use Rattle.sg_store.specs.StandsFor.{StandsFor};
ghost use Rattle.sg_elements.specs.Active.{CountsActive};
ghost use Rattle.sg_image.specs.Counts.{live_text, node_text, nodes_text, IsCountsLine};

use sg_elements::{active_count, active_count_by_workers};
use sg_layout::Kind;
use sg_store::Store;
use sg_words::{Items, Memory, Text};
use std::alloc::{AllocError, Global};
use std::thread::Threads;

/// The line of a layout of this name: how many coordinates are active, and for each pointer, hash and dynamic node how many
/// containers or chunks are live. It waits for nobody.
pub fn stats(alloc: Global, store: &Store, name: &[u8]) -> Result<Text, Memory>
    ensures { IfOk result (λ text. IsCountsLine store.now name.now text.bytes) }
{
    let count = active_count(alloc, store)?;
    line_of(alloc, store, name, count)
}

/// The same, where so many workers count the coordinates. It waits for them.
pub fn stats_by_workers<R: Threads + Sync>(
    rt: &R,
    alloc: Global,
    store: &Store,
    name: &[u8],
    workers: u32,
) -> Result<Text, Memory>
    requires some { 1 ≤ workers }
    ensures { IfOk result (λ text. IsCountsLine store.now name.now text.bytes) }
{
    let count = active_count_by_workers(rt, alloc, store, workers)?;
    line_of(alloc, store, name, count)
}

/// The line, where so many coordinates are active.
fn line_of(alloc: Global, store: &Store, name: &[u8], count: usize) -> Result<Text, Memory>
    requires count { CountsActive store.now count }
    ensures { IfOk result (λ text. IsCountsLine store.now name.now text.bytes) }
{
    let mut counts = format!(in alloc; " active {count}")?;
    push_nodes(&mut counts, store)?;
    let mut bytes = Vec::new(alloc);
    bytes.extend_from_slice(b"stats ")?;
    bytes.extend_from_slice(name)?;
    bytes.extend_from_slice(counts.as_bytes())?;
    bytes.push(b'\n')?;
    Ok(Text {
        bytes: Items::from_vec(bytes),
    })
}

/// Adds the live counts of the nodes that have one, from the root on.
fn push_nodes(text: &mut String, store: &Store) -> Result<(), AllocError>
    ensures { OnOk result ((flat : FlatLayout) → StandsFor store.now flat →
        string_bytes text.new ≡ string_bytes text.old ++ nodes_text store.now.shape flat.active 1 store.now.shape.nodes) }
{
    for index in 0..store.layout().nodes() {
        push_node(text, store, index)?;
    }
    Ok(())
}

/// Adds the live count of the node with this index, from 0, if it has one.
fn push_node(text: &mut String, store: &Store, index: usize) -> Result<(), AllocError>
    requires there { index < length store.now.shape.nodes }
    requires few { index < most_nodes }
    ensures { OnOk result ((flat : FlatLayout) → StandsFor store.now flat → (node : NodeShape) →
        slice_get store.now.shape.nodes index ≡ Some node →
        string_bytes text.new ≡ string_bytes text.old ++ node_text store.now.shape flat.active (suc index) node) }
{
    let layout = store.layout();
    if has_cap(layout.shape().nodes.as_slice()[index].kind) {
        let number = index as u32 + 1;
        push_live(text, number, store.live(number))?;
    }
    Ok(())
}

/// Adds the live count of the node with this number.
fn push_live(text: &mut String, number: u32, live: u32) -> Result<(), AllocError>
    ensures { OnOk result (string_bytes text.new ≡ string_bytes text.old ++ live_text number live) }
{
    write!(text, " node {number} live {live}")
}

/// Whether a node of this kind has child containers or chunks.
fn has_cap(kind: Kind) -> bool
    ensures { result ≡ kind_has_cap kind }
{
    match kind {
        Kind::Pointer | Kind::Hash | Kind::Dynamic => true,
        Kind::Dense | Kind::Bitmasked => false,
    }
}
