ghost use Rattle.std.specs.Prelude.{◌≡◌, ◌∷◌, [], true, IfOk, OnOk};
ghost use Rattle.sg_flat.specs.declared.effects.Way.TheVariants.{Own, Acc};
ghost use Rattle.sg_ir.specs.Apt.{Writes, uses_in};
ghost use Rattle.sg_exec.specs.steps.Landing.{current};
ghost use Rattle.sg_exec.specs.steps.Passes.{uses_of, IsAmong, HaveWritten, AddsUses};

use crate::lanes::view::View;
use crate::results::contributions::number_of;
use crate::results::shared::{Accumulated, Owned};
use crate::results::written_fields::WrittenFields;
use sg_accum::AccPass;
use sg_ir::Inst;
use sg_layout::paths_tell;
use sg_store::laws::cells_are_active;
use sg_store::{Store, Stores};
use sg_words::{AccOp, Memory};
use std::alloc::Global;
use std::thread::Threads;

/// The fields that code writes, in the stores with what was reached in their places.
pub(crate) fn written_fields<R: Threads + Sync>(
    rt: &R,
    alloc: Global,
    stores: &Stores,
    reached: &[Option<Store>],
    code: &[Inst],
    workers: u32,
) -> Result<WrittenFields, Memory>
    ensures { IfOk result (HaveWritten (current reached.now stores.now.list) (uses_in code.now)) }
{
    let accumulated = Vec::new(alloc);
    let seats = Vec::new(alloc);
    let owned = Vec::new(alloc);
    let mut fields = WrittenFields {
        accumulated,
        seats,
        owned,
    };
    add_all(rt, alloc, stores, reached, code, workers, &mut fields)?;
    Ok(fields)
}

/// Adds the fields that instructions write.
#[cycle(adding)]
fn add_all<R: Threads + Sync>(
    rt: &R,
    alloc: Global,
    stores: &Stores,
    reached: &[Option<Store>],
    code: &[Inst],
    workers: u32,
    fields: &mut WrittenFields,
) -> Result<(), Memory>
    ensures { OnOk result (AddsUses (current reached.now stores.now.list) (uses_in code.now) fields.old fields.new) }
{
    for inst in code {
        add(rt, alloc, stores, reached, inst, workers, fields)?;
    }
    Ok(())
}

/// Adds the fields that an instruction writes.
#[cycle(adding)]
fn add<R: Threads + Sync>(
    rt: &R,
    alloc: Global,
    stores: &Stores,
    reached: &[Option<Store>],
    inst: &Inst,
    workers: u32,
    fields: &mut WrittenFields,
) -> Result<(), Memory>
    ensures { OnOk result (AddsUses (current reached.now stores.now.list) (uses_of inst.now) fields.old fields.new) }
{
    match inst {
        Inst::Acc {
            op,
            layout,
            field,
            place: _place,
            from: _from,
            index: _index,
            stmt: _stmt,
        } => add_pass(
            rt, alloc, stores, reached, *op, *layout, *field, workers, fields,
        ),
        Inst::OwnWrite {
            layout,
            field,
            from: _from,
            stmt: _stmt,
        } => add_owned(stores, reached, *layout, *field, fields),
        Inst::If {
            cond: _cond,
            yes,
            no,
        } => {
            add_all(rt, alloc, stores, reached, yes.as_slice(), workers, fields)?;
            add_all(rt, alloc, stores, reached, no.as_slice(), workers, fields)
        }
        Inst::For {
            var: _var,
            lo: _lo,
            hi: _hi,
            body,
        } => add_all(rt, alloc, stores, reached, body.as_slice(), workers, fields),
        _ => Ok(()),
    }
}

/// Adds an own-written field that isn't there yet.
fn add_owned(
    stores: &Stores,
    reached: &[Option<Store>],
    layout: u32,
    field: u32,
    fields: &mut WrittenFields,
) -> Result<(), Memory>
    ensures { OnOk result (AddsUses (current reached.now stores.now.list) (Writes layout field Own ∷ []) fields.old fields.new) }
{
    let (_stores, _reached) = (stores, reached);
    if is_owned(fields.owned.as_slice(), layout, field) {
        return Ok(());
    }
    fields.owned.push(Owned { layout, field })?;
    Ok(())
}

/// Whether a field is one of these. If so, it is.
fn is_owned(owned: &[Owned], layout: u32, field: u32) -> bool
    ensures { result ≡ true → IsAmong layout field owned.now }
{
    for own in owned {
        if own.layout == layout && own.field == field {
            return true;
        }
    }
    false
}

/// Adds a pass into a field that has none yet, if there is the field and it has cells.
fn add_pass<R: Threads + Sync>(
    rt: &R,
    alloc: Global,
    stores: &Stores,
    reached: &[Option<Store>],
    op: AccOp,
    layout: u32,
    field: u32,
    workers: u32,
    fields: &mut WrittenFields,
) -> Result<(), Memory>
    ensures { OnOk result (AddsUses (current reached.now stores.now.list) (Writes layout field (Acc op) ∷ []) fields.old fields.new) }
{
    if let Some(_number) = number_of(fields.accumulated.as_slice(), layout, field, 0) {
        return Ok(());
    }
    let view = View::of(stores, reached);
    let Some(store) = view.get(layout) else {
        return Ok(());
    };
    let Some(ty) = store.layout().shape().fields.get(field as usize).copied() else {
        return Ok(());
    };
    // for the laws that they ensure
    cells_are_active();
    paths_tell();
    let front = store.field_front(alloc, field)?;
    let values = front.as_slice();
    if values.len() == 0 {
        return Ok(());
    }
    let (pass, seat) = AccPass::start_by_workers(rt, alloc, values, op, ty, workers)?;
    fields.accumulated.push(Accumulated {
        layout,
        field,
        op,
        ty,
        pass,
    })?;
    fields.seats.push(seat)?;
    Ok(())
}
