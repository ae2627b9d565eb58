ghost use Rattle.std.specs.Prelude.{◌≤◌, length, IfOk};
ghost use Rattle.sg_words.specs.Answers.{Answers};
ghost use Rattle.sg_lexer.specs.Limits.{most_file_bytes};
ghost use Rattle.sg_session.specs.Compiling.{spelled_program};
ghost use Rattle.sg_session.specs.Spelled.{IsSpelled};

use crate::refusal::Refusal;
use sg_ast::Program;
use sg_ast::laws::cut_gives_items;
use sg_lexer::lex;
use sg_parser::parse;
use sg_words::Stop;
use std::alloc::Global;

/// The program that bytes spell, or why they spell none.
pub fn spell(alloc: Global, bytes: &[u8]) -> Result<Program, Stop<Refusal>>
    requires { length bytes.now ≤ most_file_bytes }
    ensures answer { Answers result (spelled_program bytes.now) }
    ensures spelled { IfOk result IsSpelled }
{
    match lex(alloc, bytes) {
        Ok(tokens) => {
            // for the laws that they ensure
            sg_lexer::laws::answered_are_few();
            sg_parser::laws::parsed_is_spelled();
            cut_gives_items();
            match parse(alloc, &tokens) {
                Ok(program) => Ok(program),
                Err(Stop::Refused(fault)) => Err(Stop::Refused(Refusal::Parse(fault))),
                Err(Stop::Memory) => Err(Stop::Memory),
            }
        }
        Err(Stop::Refused(fault)) => Err(Stop::Refused(Refusal::Lex(fault))),
        Err(Stop::Memory) => Err(Stop::Memory),
    }
}
