//! Laws of verdicts. Each function does nothing: what it ensures is the law, for whoever reasons about audits.

ghost use Rattle.sg_audit.specs.AuditLaws.{NoIsFirst, YesHoldsOnce, YesIsSound};
ghost use Rattle.sg_audit.specs.WholeLines.{FrontsAreSound};

use sg_journal::laws as journals;

/// The verdict is Yes exactly if the bytes are a journal whose every line is sound.
pub fn yes_is_sound()
    ensures { YesIsSound }
{}

/// The line of a No is the first that isn't sound.
pub fn no_is_first()
    ensures { NoIsFirst }
{}

/// If the verdict is Yes, after every line each number stands in at most one slot, and each slot holds at most one number.
pub fn yes_holds_once()
    ensures { YesHoldsOnce }
{
    // for the law that it ensures
    journals::sound_holds_once();
}

/// The whole lines at the front of the text of sound lines, with the end behind them, are a journal whose audit is Yes.
pub fn fronts_are_sound()
    ensures { FrontsAreSound }
{
    // for the law that it ensures
    journals::sound_holds_once();
}
