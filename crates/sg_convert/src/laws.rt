//! A law of advice, as the contract of a function that does nothing.
ghost use Rattle.sg_convert.specs.AdviceLaws.{BestIsLeast};

/// What is best of counts is the first that is least.
pub fn best_is_least()
    ensures { BestIsLeast }
{}
