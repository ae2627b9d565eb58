ghost use Rattle.std.specs.Prelude.{◌≡◌, IfOk};

use sg_words::Memory;

/// A count in 32 bits. More can't come: no memory has room for so many.
pub(crate) fn narrow(count: usize) -> Result<u32, Memory>
    ensures { IfOk result (λ number. number ≡ count) }
{
    u32::try_from(count).map_err(|_| Memory)
}
