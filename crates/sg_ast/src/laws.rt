//! What the definitions of the syntax keep between them, each as the contract of a function that does nothing.

ghost use Rattle.sg_ast.specs.Laws.{CutGivesItems, CutKeepsTokens};

/// Cutting a token list into items loses no token and moves none.
pub fn cut_keeps_tokens()
    ensures { CutKeepsTokens }
{}

/// The tokens of a program of the grammar are cut into those of its items, and none are left.
pub fn cut_gives_items()
    ensures { CutGivesItems }
{}
