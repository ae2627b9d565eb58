//! The snapshot with which the commands of a run begin.

ghost use Rattle.std.specs.Prelude.{◌≡◌, ◌≤◌, IfOk};
ghost use Rattle.sg_outside.specs.Counts.{one_more};
ghost use Rattle.sg_outside.specs.Files.{asked_too};
ghost use Rattle.sg_layout.specs.StorageWords.{total_words};
ghost use Rattle.sg_layout.specs.Limits.{most_words};
ghost use Rattle.sg_store.specs.Standing.{shapes_of};
ghost use Rattle.sparsegrid.specs.steps.Beginning.{is_read, WasRead, SnapshotCause};

use sg_layout::Layouts;
use sg_outside::{Files, Got};
use sg_snapshot::{SnapFault, restore};
use sg_store::Stores;
use sg_words::Stop;
use std::alloc::Global;

/// The most bytes that a snapshot may have.
const SNAPSHOT_LIMIT: u64 = 67_108_864;

/// Why there is no snapshot: its read failed, it has too many bytes, or they are the image of no state.
#[derive(Clone, Copy, Debug, PartialEq, Eq)]
pub enum NoSnapshot {
    Read,
    TooLong,
    Fault(SnapFault),
}

/// The stores of these layouts that stand for the state whose image the file of this name is.
pub(crate) fn read_stores<F: Files>(
    alloc: Global,
    name: &str,
    layouts: &Layouts,
    files: &mut F,
) -> Result<Stores, Stop<NoSnapshot>>
    requires few_words { total_words layouts.now.list ≤ most_words }
    ensures given { WasRead layouts.now.list (F.holds files.old) name.now result }
    ensures shapes { IfOk result (λ stores. shapes_of stores.list ≡ layouts.now.list) }
    ensures asked { F.asked files.new ≡ asked_too (F.asked files.old) name.now }
    ensures reads { F.reads files.new ≡ one_more (F.reads files.old) }
    ensures holds { F.holds files.new ≡ F.holds files.old }
    ensures cause { SnapshotCause (is_read result) (F.faults files.old) (F.faults files.new) }
    ensures never_falls { F.faults files.old ≤ F.faults files.new }
{
    let mut bytes = Vec::new(alloc);
    match files.read(name, SNAPSHOT_LIMIT, &mut bytes) {
        Got::All => match restore(alloc, bytes.as_slice(), layouts) {
            Ok(stores) => Ok(stores),
            Err(Stop::Refused(fault)) => Err(Stop::Refused(NoSnapshot::Fault(fault))),
            Err(Stop::Memory) => Err(Stop::Memory),
        },
        Got::TooLong => Err(Stop::Refused(NoSnapshot::TooLong)),
        Got::Failed => Err(Stop::Refused(NoSnapshot::Read)),
        Got::Memory => Err(Stop::Memory),
    }
}
