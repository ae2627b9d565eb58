//! What admission keeps, each as the contract of a function that does nothing.

ghost use Rattle.sg_admit.specs.Laws.{DirtyIsClosed, DirtyIsLeast, SliceWantsWhatIsWritten, FaultsAreFirst, DomainIsConstant, BoxHasItsSize, OwnWritesStand, FieldsAreWrittenInOneWay, TurnsRise};

use sg_flat::laws::box_in_order;
use sg_layout::laws::closure_members;

/// The dirty variables are closed: each variable that gets a word from what isn't clean is dirty.
pub fn dirty_is_closed()
    ensures { DirtyIsClosed }
{}

/// Every closed set of variables has all dirty ones.
pub fn dirty_is_least()
    ensures { DirtyIsLeast }
{}

/// In each iteration the address slice makes exactly those writes of the body that may activate, in order, except for their values.
pub fn slice_wants_what_is_written()
    ensures { SliceWantsWhatIsWritten }
{}

/// An answer of admission names the first statement that breaks a rule, and the smallest rule that it breaks.
pub fn faults_are_first()
    ensures { FaultsAreFirst }
{}

/// The domain of an admitted kernel is what its loop goes over in every state.
pub fn domain_is_constant()
    ensures { DomainIsConstant }
{}

/// A box has as many points as its size says.
pub fn box_has_its_size()
    ensures { BoxHasItsSize }
{}

/// The own writes of an admitted kernel stand at their iteration's coordinate.
pub fn own_writes_stand()
    ensures { OwnWritesStand }
{}

/// All writes of an admitted kernel to one field are made in one way.
pub fn fields_are_written_in_one_way()
    ensures { FieldsAreWrittenInOneWay }
{}

/// In each state of its layouts the iterations of a kernel rise in row order.
pub fn turns_rise()
    ensures { TurnsRise }
{
    // for the laws that they ensure
    closure_members();
    box_in_order();
}
