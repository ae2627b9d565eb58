ghost use Rattle.std.specs.Prelude.{◌≡◌, ℕ, ◌<◌, ◌≤◌, ◌++◌, List, length, All, Contains, IfOk, OnOk, OnErr, None, unwrap_or};
ghost use Rattle.sg_words.specs.Answers.{Answers, AnswersAs};
ghost use Rattle.sg_coord.specs.declared.coord.Coord.{Coord};
ghost use Rattle.sg_layout.specs.Axes.{bounds_of_shape};
ghost use Rattle.sg_coord.specs.Coord.{Inside};
ghost use Rattle.sg_layout.specs.Closure.{closure};
ghost use Rattle.sg_layout.specs.Need.{first_full};
ghost use Rattle.sg_flat.specs.declared.state.FlatLayout.{FlatLayout};
ghost use Rattle.sg_store.specs.StandsFor.{StandsFor};
ghost use Rattle.sg_store.specs.Reaching.{KeepsCells};
ghost use Rattle.sg_store.specs.Links.{GrowsLinks};
ghost use Rattle.sg_activate.specs.Activating.{wanted_below, unless_full};
ghost use Rattle.sg_activate.specs.Descending.{open_before};
ghost use Rattle.sg_activate.specs.steps.Finding.{found_in};
ghost use Rattle.sg_activate.specs.steps.Levels.{open_after, OpensTo, IfActRefused, IsFirstFull};

use crate::asking::Work;
use crate::descend::{descend, has_kind, last_fused};
use crate::fault::ActFault;
use crate::few::{are_few, open_few};
use crate::found::is_nothing;
use crate::gates::{pass_gate, workers_at};
use crate::keys::open_keys;
use crate::lengths::open_lengths;
use crate::look::find_new;
use crate::wanted::Wanted;
use sg_layout::{Kind, closure_members, live_grows, need_grows};
use sg_outside::Gate;
use sg_store::laws::{cells_are_active, links_stay};
use sg_store::{Store, levels};
use sg_words::Stop;
use std::alloc::Global;
use std::thread::Threads;

/// Makes the active coordinates the closure of themselves and of what is wanted, and keeps all values. Refused where
/// the need for these passes a cap: then, and where memory runs out, the store is as before. It waits for its workers,
/// which are as `activated` says.
pub fn activate<R: Threads + Sync, W: Wanted + Sync, G: Gate + Sync>(
    rt: &R,
    alloc: Global,
    store: &mut Store,
    want: &W,
    workers: u32,
    gate: &G,
) -> Result<(), Stop<ActFault>>
where
    W::Hand: Send,
    requires some { 1 ≤ workers }
    requires few { workers ≤ 16 }
    requires inside { W.bounds want.now ≡ bounds_of_shape store.old.shape }
    requires within { (list : ℕ → List Coord) → W.Means want.now list → (piece : ℕ) → piece < W.count want.now →
        All (Inside (W.bounds want.now)) (list piece) }
    ensures answer { (list : ℕ → List Coord) → W.Means want.now list → (flat : FlatLayout) →
        StandsFor store.old flat → Answers result
        (unless_full (first_full store.old.shape (flat.active ++ wanted_below list (W.count want.now)))) }
    ensures activated { OnOk result ((list : ℕ → List Coord) → W.Means want.now list → (flat : FlatLayout) →
        StandsFor store.old flat → StandsFor store.new
        (record flat { active = closure store.old.shape (flat.active ++ wanted_below list (W.count want.now)) })) }
    ensures keeps { OnOk result (KeepsCells store.old store.new) }
    ensures links { GrowsLinks store.old store.new }
    ensures stays { OnErr result (store.new ≡ store.old) }
{
    match activated(rt, alloc, store, want, workers, gate) {
        Ok(Some(active)) => {
            *store = active;
            Ok(())
        }
        Ok(None) => Ok(()),
        Err(stop) => Err(stop),
    }
}

/// The store with the closure of what is active and what is wanted in the place of what is active, and all values kept;
/// none if all that is wanted is active already, so that nothing changes. Refused where the need passes a cap. Up to 16
/// workers race for it, each with a slice of the pieces, in order: for the keys of a hash node, then for the links and
/// bits of all pointer and bitmasked nodes, then for the lengths of a dynamic node. In the first of these passes, or if
/// there is none, each passes the gate before each of its pieces. Where the gate can't hold anyone, only as many race
/// as have enough to do, and where few coordinates are new, for so many words of containers, one worker opens them
/// without a race. It waits for its workers.
pub fn activated<R: Threads + Sync, W: Wanted + Sync, G: Gate + Sync>(
    rt: &R,
    alloc: Global,
    store: &Store,
    want: &W,
    workers: u32,
    gate: &G,
) -> Result<Option<Store>, Stop<ActFault>>
where
    W::Hand: Send,
    requires some { 1 ≤ workers }
    requires few { workers ≤ 16 }
    requires inside { W.bounds want.now ≡ bounds_of_shape store.now.shape }
    requires within { (list : ℕ → List Coord) → W.Means want.now list → (piece : ℕ) → piece < W.count want.now →
        All (Inside (W.bounds want.now)) (list piece) }
    ensures answer { (list : ℕ → List Coord) → W.Means want.now list → (flat : FlatLayout) →
        StandsFor store.now flat → AnswersAs (λ next. tt) result
        (unless_full (first_full store.now.shape (flat.active ++ wanted_below list (W.count want.now)))) }
    ensures activated { IfOk result (λ next. (list : ℕ → List Coord) → W.Means want.now list → (flat : FlatLayout) →
        StandsFor store.now flat → StandsFor (unwrap_or next store.now)
        (record flat { active = closure store.now.shape (flat.active ++ wanted_below list (W.count want.now)) })) }
    ensures new { IfOk result (λ next. (list : ℕ → List Coord) → W.Means want.now list → (flat : FlatLayout) →
        StandsFor store.now flat →
        ((at : Coord) → Contains (wanted_below list (W.count want.now)) at → Contains flat.active at) → next ≡ None) }
    ensures keeps { IfOk result (λ next. KeepsCells store.now (unwrap_or next store.now)) }
    ensures links { IfOk result (λ next. GrowsLinks store.now (unwrap_or next store.now)) }
{
    // for the laws that they ensure
    levels::opening_by_nodes();
    live_grows();
    need_grows();
    closure_members();
    cells_are_active();
    links_stay();
    store.layout();
    let pieces = want.pieces();
    let effort = want.effort().saturating_mul(pieces as usize);
    let racing = with_pieces(workers_at(gate, effort, workers), pieces);
    let found = find_new(rt, alloc, store, want, racing)?;
    let list = found.as_slice();
    if is_nothing(list) {
        pass_gate(rt, pieces, workers, gate);
        return Ok(None);
    }
    let mut next = store.copy_by_workers(rt, alloc, workers)?;
    let work = Work {
        found: list,
        axes: store.layout().extents().n,
        pieces,
        workers: racing,
        gate,
        gated: gate.may_hold(),
    };
    if are_few(store, &work) {
        match open_few(alloc, next, work.axes, work.found) {
            Ok(next) => return Ok(Some(next)),
            Err(stop) => return Err(stop),
        }
    }
    match open_all(rt, alloc, &mut next, &work) {
        Ok(()) => {}
        Err(stop) => return Err(stop),
    }
    // for the fact that it ensures
    next.layout();
    Ok(Some(next))
}

/// As many of so many workers as there are pieces; one at least. The slices of these are the same.
fn with_pieces(workers: u32, pieces: u32) -> u32
    requires some { 1 ≤ workers }
    ensures some { 1 ≤ result }
    ensures few { result ≤ workers }
{
    if pieces < 1 {
        return 1;
    }
    workers.min(pieces)
}

/// Opens all nodes for what was found: a hash node first, then the pointer and bitmasked nodes, and then a dynamic one.
fn open_all<R: Threads + Sync, G: Gate + Sync>(
    rt: &R,
    alloc: Global,
    store: &mut Store,
    work: &Work<G>,
) -> Result<(), Stop<ActFault>>
    requires inside { All (Inside (bounds_of_shape store.old.shape)) (found_in work.now.axes work.now.found.now) }
    ensures opened { OnOk result (OpensTo store.old store.new 0 (length store.old.shape.nodes)
        (found_in work.now.axes work.now.found.now)) }
    ensures keeps { OnOk result (KeepsCells store.old store.new) }
    ensures full { IfActRefused result (IsFirstFull store.old 0 (found_in work.now.axes work.now.found.now)) }
{
    let gated = match open_head(rt, alloc, store, work) {
        Ok(gated) => gated,
        Err(stop) => return Err(stop),
    };
    let below = Work {
        found: work.found,
        axes: work.axes,
        pieces: work.pieces,
        workers: work.workers,
        gate: work.gate,
        gated,
    };
    let gated = match open_middle(rt, alloc, store, &below) {
        Ok(gated) => gated,
        Err(stop) => return Err(stop),
    };
    let last = Work {
        found: work.found,
        axes: work.axes,
        pieces: work.pieces,
        workers: work.workers,
        gate: work.gate,
        gated,
    };
    open_tail(rt, alloc, store, &last)
}

/// Opens the first node if it is a hash node. Whether the next pass has the gate.
fn open_head<R: Threads + Sync, G: Gate + Sync>(
    rt: &R,
    alloc: Global,
    store: &mut Store,
    work: &Work<G>,
) -> Result<bool, Stop<ActFault>>
    requires inside { All (Inside (bounds_of_shape store.old.shape)) (found_in work.now.axes work.now.found.now) }
    ensures opened { OnOk result (OpensTo store.old store.new 0 (open_before store.old.shape)
        (found_in work.now.axes work.now.found.now)) }
    ensures keeps { OnOk result (KeepsCells store.old store.new) }
    ensures full { IfActRefused result (IsFirstFull store.old 0 (found_in work.now.axes work.now.found.now)) }
{
    // for the fact that there is a node
    let _nodes = store.layout().nodes();
    if has_kind(store, 1, Kind::Hash) {
        return match open_keys(rt, alloc, store, work) {
            Ok(()) => Ok(false),
            Err(stop) => Err(stop),
        };
    }
    Ok(work.gated)
}

/// Opens the pointer and bitmasked nodes, if there are any. Whether the next pass has the gate.
fn open_middle<R: Threads + Sync, G: Gate + Sync>(
    rt: &R,
    alloc: Global,
    store: &mut Store,
    work: &Work<G>,
) -> Result<bool, Stop<ActFault>>
    requires inside { All (Inside (bounds_of_shape store.old.shape)) (found_in work.now.axes work.now.found.now) }
    ensures opened { OnOk result (OpensTo store.old store.new (open_before store.old.shape)
        (open_after store.old.shape) (found_in work.now.axes work.now.found.now)) }
    ensures keeps { OnOk result (KeepsCells store.old store.new) }
    ensures full { IfActRefused result (IsFirstFull store.old (open_before store.old.shape)
        (found_in work.now.axes work.now.found.now)) }
{
    let last = last_fused(store);
    if last < 1 {
        return Ok(work.gated);
    }
    match descend(rt, alloc, store, work) {
        Ok(()) => Ok(false),
        Err(stop) => Err(stop),
    }
}

/// Opens the dense nodes that are left, and a dynamic node, which is the last.
fn open_tail<R: Threads + Sync, G: Gate + Sync>(
    rt: &R,
    alloc: Global,
    store: &mut Store,
    work: &Work<G>,
) -> Result<(), Stop<ActFault>>
    requires inside { All (Inside (bounds_of_shape store.old.shape)) (found_in work.now.axes work.now.found.now) }
    ensures opened { OnOk result (OpensTo store.old store.new (open_after store.old.shape)
        (length store.old.shape.nodes) (found_in work.now.axes work.now.found.now)) }
    ensures keeps { OnOk result (KeepsCells store.old store.new) }
    ensures full { IfActRefused result (IsFirstFull store.old (open_after store.old.shape)
        (found_in work.now.axes work.now.found.now)) }
{
    // for the laws that they ensure
    levels::opening_by_nodes();
    let nodes = store.layout().nodes() as u32;
    if has_kind(store, nodes, Kind::Dynamic) {
        return open_lengths(rt, alloc, store, nodes, work);
    }
    Ok(())
}
