//! The fields that a kernel own-writes.

ghost use Rattle.std.specs.Prelude.{◌≡◌, ℕ, [], ◌∷◌, ◌||◌, OnOk, IfOk};
ghost use Rattle.sg_admit.specs.Lines.{Around, stmt_lines, block_lines};
ghost use Rattle.sg_admit.specs.Rules.{ways_in, has_own};
ghost use Rattle.sg_lower.specs.steps.Basis.{is_owned};

use crate::lowering::Field;
use sg_flat::Way;
use sg_types::{TypedKind, TypedStmt};
use sg_words::{Items, Memory};
use std::alloc::Global;

/// The fields that the statements of a block own-write, each once.
pub(crate) fn owned_in(alloc: Global, block: &[TypedStmt]) -> Result<Items<Field>, Memory>
    ensures { IfOk result (λ owned. (around : Around) (layout place : ℕ) → is_owned owned layout place ≡ has_own (ways_in (block_lines block.now around)) layout place) }
{
    let mut owned = Items::new(alloc);
    note_block(block, &mut owned)?;
    Ok(owned)
}

#[cycle(noted)]
fn note_block(block: &[TypedStmt], owned: &mut Items<Field>) -> Result<(), Memory>
    ensures { OnOk result ((around : Around) (layout place : ℕ) →
        is_owned owned.new layout place ≡ (is_owned owned.old layout place || has_own (ways_in (block_lines block.now around)) layout place)) }
{
    for stmt in block {
        note_stmt(stmt, owned)?;
    }
    Ok(())
}

#[cycle(noted)]
fn note_stmt(stmt: &TypedStmt, owned: &mut Items<Field>) -> Result<(), Memory>
    ensures { OnOk result ((around : Around) (layout place : ℕ) →
        is_owned owned.new layout place ≡ (is_owned owned.old layout place || has_own (ways_in (stmt_lines stmt.now around)) layout place)) }
{
    match &stmt.kind {
        TypedKind::Let {
            var: _var,
            value: _value,
        } => {}
        TypedKind::Assign {
            var: _var,
            value: _value,
        } => {}
        TypedKind::Write {
            layout,
            place,
            index: _index,
            way,
            value: _value,
        } => note_write(*layout, *place, *way, owned)?,
        TypedKind::If {
            cond: _cond,
            yes,
            no,
            has_else: _has_else,
        } => {
            note_block(yes.as_slice(), owned)?;
            note_block(no.as_slice(), owned)?;
        }
        TypedKind::For {
            var: _var,
            range: _range,
            body,
        } => note_block(body.as_slice(), owned)?,
    }
    Ok(())
}

fn note_write(layout: u32, place: u32, way: Way, owned: &mut Items<Field>) -> Result<(), Memory>
    ensures { OnOk result ((at_layout at_place : ℕ) →
        is_owned owned.new at_layout at_place ≡ (is_owned owned.old at_layout at_place || has_own (record { layout = layout; place = place; way = way } ∷ []) at_layout at_place)) }
{
    match way {
        Way::Own => {
            if !has_field(owned.as_slice(), layout, place) {
                owned.push(Field { layout, place })?;
            }
        }
        Way::Acc(_op) => {}
    }
    Ok(())
}

fn has_field(fields: &[Field], layout: u32, place: u32) -> bool
    ensures { result ≡ is_owned fields.now layout place }
{
    fields
        .iter()
        .any(|field| field.layout == layout && field.place == place)
}
