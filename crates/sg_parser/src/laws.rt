//! What `parse` answers, in words of the grammar alone: each law is the contract of a function that does nothing.

ghost use Rattle.sg_parser.specs.Laws.{ParsedIsSpelled, SpelledIsParsed, FirstFaultIsNamed, TreeIsOne};

/// What is accepted is spelled by the tokens: a program of the grammar with these tokens, each item with the line of its first.
pub fn parsed_is_spelled()
    ensures { ParsedIsSpelled }
{}

/// Each program that the tokens spell is accepted, and is the answer.
pub fn spelled_is_parsed()
    ensures { SpelledIsParsed }
{}

/// A refusal names the first item that spells no tree of the grammar, and the line of its first token.
pub fn first_fault_is_named()
    ensures { FirstFaultIsNamed }
{}

/// No two programs of the grammar have the same tokens, except for the lines of their items.
pub fn tree_is_one()
    ensures { TreeIsOne }
{}
