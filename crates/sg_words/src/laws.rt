//! Laws of words. Each function does nothing: what it ensures is the law, for whoever reasons about words.
ghost use Rattle.std.specs.Prelude.{ℕ, ℤ, List};
ghost use Rattle.sg_words.specs.declared.operators.Ty.{Ty};
ghost use Rattle.sg_words.specs.declared.operators.BinOp.{BinOp};
ghost use Rattle.sg_words.specs.declared.operators.UnOp.{UnOp};
ghost use Rattle.sg_words.specs.declared.operators.AccOp.{AccOp};
ghost use Rattle.sg_words.specs.RaceMachine.{Setting, Race, Event};
ghost use Rattle.sg_words.specs.RaceLaws.{StartsKept, EventKeeps, RunKeeps, FewWorkers, CountIsSmall, TicketStandsOnce, KeyStandsOnce, NewLinksDiffer, SparesNeverFill};
ghost use Rattle.sg_words.specs.WordLaws.{WordHasNumber, NumberHasWord, SumIsModular, DifferenceIsModular, ProductIsModular, QuotientIsTruncated, FloorIsGreatest, RankKeepsOrder, RankIsInverted, UnrankIsInverted, AppliedIsWord, AppliedUnIsWord, MulqIsWord, FoldedIsWord, FoldedIsApplied, FoldsAlike};

/// Words and the numbers of a type stand for one another.
pub fn words_are_numbers()
    ensures number { (ty : Ty) (w : ℕ) → WordHasNumber ty w }
    ensures word { (ty : Ty) (z : ℤ) → NumberHasWord ty z }
{}

/// Sums, differences and products are those of the numbers modulo 2^32, in each type.
pub fn arithmetic_is_modular()
    ensures sum { (ty : Ty) (a b : ℕ) → SumIsModular ty a b }
    ensures difference { (ty : Ty) (a b : ℕ) → DifferenceIsModular ty a b }
    ensures product { (ty : Ty) (a b : ℕ) → ProductIsModular ty a b }
{}

/// A quotient is rounded toward zero, a shift to the right down.
pub fn division_is_rounded()
    ensures quotient { (ty : Ty) (a b : ℕ) → QuotientIsTruncated ty a b }
    ensures floor { (z : ℤ) (m : ℕ) → FloorIsGreatest z m }
{}

/// Ranks keep the type's order, and are inverse to words.
pub fn ranks_keep_order()
    ensures order { (ty : Ty) (a b : ℕ) → RankKeepsOrder ty a b }
    ensures rank { (ty : Ty) (w : ℕ) → RankIsInverted ty w }
    ensures unrank { (ty : Ty) (k : ℕ) → UnrankIsInverted ty k }
{}

/// Every operator gives a word on words.
pub fn operators_give_words()
    ensures applied { (op : BinOp) (ty : Ty) (a b : ℕ) → AppliedIsWord op ty a b }
    ensures applied_un { (op : UnOp) (a : ℕ) → AppliedUnIsWord op a }
    ensures mulq { (a b s : ℕ) → MulqIsWord a b s }
    ensures folded { (op : AccOp) (ty : Ty) (a b : ℕ) → FoldedIsWord op ty a b }
{}

/// An accumulation joins two words as the operator of its name does.
pub fn folding_is_applying()
    ensures { (op : AccOp) (ty : Ty) (a b : ℕ) → FoldedIsApplied op ty a b }
{}

/// Contributions in any order accumulate to the same word.
pub fn contributions_exchange()
    ensures { (op : AccOp) (ty : Ty) (old : ℕ) (some others : List ℕ) → FoldsAlike op ty old some others }
{}

/// A race starts in its invariant, and every event and so every run keeps it; no event changes a slot, key or bit that isn't 0 or lowers a length.
pub fn races_keep_their_invariant()
    ensures start { (g : Setting) → StartsKept g }
    ensures event { (g : Setting) (s : Race) (e : Event) → EventKeeps g s e }
    ensures run { (g : Setting) (s : Race) (es : List Event) → RunKeeps g s es }
{}

/// At most 16 workers race; each drawn ticket and each key stands once; new links differ, and spares never fill a pool.
pub fn races_hand_out_once()
    ensures workers { (g : Setting) (s : Race) → FewWorkers g s }
    ensures count { (g : Setting) (s : Race) (l : ℕ) → CountIsSmall g s l }
    ensures ticket { (g : Setting) (s : Race) (l t : ℕ) → TicketStandsOnce g s l t }
    ensures key { (g : Setting) (s : Race) (k i j : ℕ) → KeyStandsOnce g s k i j }
    ensures links { (g : Setting) (s : Race) (i j : ℕ) → NewLinksDiffer g s i j }
    ensures pool { (g : Setting) (s : Race) (l c : ℕ) → SparesNeverFill g s l c }
{}
