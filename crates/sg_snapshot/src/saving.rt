//! The image of what stores stand for.

ghost use Rattle.std.specs.Prelude.{◌≡◌, IfOk};
ghost use Rattle.sg_flat.specs.declared.state.FlatState.{FlatState};
ghost use Rattle.sg_store.specs.Standing.{shapes_of, StandForState};
ghost use Rattle.sg_snapshot.specs.Image.{image_of};

use crate::narrow::narrow;
use crate::writing::{push_number, push_part};
use sg_layout::Layouts;
use sg_store::Stores;
use sg_words::{Items, Memory, Text};
use std::alloc::Global;

/// The image of the flat state for which the stores of these layouts stand.
pub fn save(alloc: Global, stores: &Stores, layouts: &Layouts) -> Result<Text, Memory>
    requires { shapes_of stores.now.list ≡ layouts.now.list }
    ensures { IfOk result (λ text. (state : FlatState) → StandForState layouts.now.list stores.now.list state →
        text.bytes ≡ image_of layouts.now.list state) }
{
    let list = stores.list.as_slice();
    let many = narrow(list.len())?;
    let mut bytes = Vec::new(alloc);
    bytes.extend_from_slice(b"SGS1")?;
    push_number(&mut bytes, many)?;
    for store in list {
        push_part(alloc, &mut bytes, store)?;
    }
    Ok(Text {
        bytes: Items::from_vec(bytes),
    })
}
