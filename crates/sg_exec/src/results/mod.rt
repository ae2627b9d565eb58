//! What a run makes of the stores: own writes, passes, landing.

pub(crate) mod commit;
pub(crate) mod contributions;
pub(crate) mod fields;
pub(crate) mod landing;
pub(crate) mod made;
pub(crate) mod own_writes;
pub(crate) mod shared;
pub(crate) mod sums;
pub(crate) mod written_fields;
