ghost use Rattle.sg_links.specs.Lists.{Lists};
ghost use Rattle.sg_links.specs.LinkLaws.{StandsAtOnePlace, FitNumbers};

/// In disjoint lists each number stands at one place alone, so they have no more numbers than there are.
pub fn lists_are_disjoint()
    ensures one_place { (l : Lists) → StandsAtOnePlace l }
    ensures fit { (l : Lists) → FitNumbers l }
{}
