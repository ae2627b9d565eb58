ghost use Rattle.std.specs.Prelude.{◌≡◌, option_map};

use sg_store::Spot;

/// What a place register holds: a spot in the store of a layout.
#[derive(Clone, Copy)]
pub struct Held {
    pub layout: u32,
    pub spot: Spot,
}

/// A spot of a layout, if there is one.
#[inline(always)]
pub(crate) fn held_in(layout: u32, spot: Option<Spot>) -> Option<Held>
    ensures { result ≡ option_map (λ spot. record { layout = layout; spot = spot }) spot }
{
    match spot {
        Some(spot) => Some(Held { layout, spot }),
        None => None,
    }
}
