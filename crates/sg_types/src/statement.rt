//! Statements in order, with their numbers and those of their variables.

ghost use Rattle.std.specs.Prelude.{◌≡◌, ◌+◌, map, option_map};
ghost use Rattle.sg_words.specs.Answers.{AnswersAs};
ghost use Rattle.sg_types.specs.Statements as spec;
ghost use Rattle.sg_types.specs.Counting.{stmt_count, block_count, else_count};
ghost use Rattle.sg_types.specs.steps.Views.{known_view, reached_of, HasRoom};

use crate::fault::TypeFault;
use crate::known::Known;
use crate::reached::Reached;
use crate::typed::{TypedKind, TypedStmt};
use sg_ast::{Expr, Name, RangeDecl, Stmt, WayDecl};
use sg_words::{Items, Stop, Ty};

impl<'a> Known<'a> {
    fn let_stmt(
        &self,
        at: &mut Reached<'a>,
        name: &'a Name,
        value: &Expr,
    ) -> Result<TypedStmt, Stop<TypeFault>>
        requires { HasRoom (reached_of at.old) 1 }
        ensures { AnswersAs (λ typed. (typed, reached_of at.new)) result
            (spec.let_step (known_view self.now) name.now value.now (reached_of at.old)) }
    {
        let number = at.number;
        let value = self.let_part(number, &at.scope, name, value)?;
        at.number += 1;
        let var = at.declare(name, value.ty, false)?;
        Ok(TypedStmt {
            number,
            kind: TypedKind::Let { var, value },
        })
    }

    fn assign_stmt(
        &self,
        at: &mut Reached<'a>,
        name: &Name,
        value: &Expr,
    ) -> Result<TypedStmt, Stop<TypeFault>>
        requires { HasRoom (reached_of at.old) 1 }
        ensures { AnswersAs (λ typed. (typed, reached_of at.new)) result
            (spec.simple_step (known_view self.now) (spec.assign_part
            (known_view self.now) at.old.scope name.now value.now) (reached_of at.old)) }
    {
        let number = at.number;
        let kind = self.assign_part(number, &at.scope, name, value)?;
        at.number += 1;
        Ok(TypedStmt { number, kind })
    }

    fn write_stmt(
        &self,
        at: &mut Reached<'a>,
        field: &Name,
        index: &[Expr],
        way: WayDecl,
        value: &Expr,
    ) -> Result<TypedStmt, Stop<TypeFault>>
        requires { HasRoom (reached_of at.old) 1 }
        ensures { AnswersAs (λ typed. (typed, reached_of at.new)) result
            (spec.simple_step (known_view self.now) (spec.write_part
            (known_view self.now) at.old.scope field.now index.now way value.now) (reached_of at.old)) }
    {
        let number = at.number;
        let kind = self.write_part(number, &at.scope, field, index, way, value)?;
        at.number += 1;
        Ok(TypedStmt { number, kind })
    }

    #[cycle(stmts)]
    fn if_stmt(
        &self,
        at: &mut Reached<'a>,
        cond: &Expr,
        yes: &'a [Stmt],
        no: &'a Option<Items<Stmt>>,
    ) -> Result<TypedStmt, Stop<TypeFault>>
        requires { HasRoom (reached_of at.old) (1 + (block_count yes.now + else_count no.now)) }
        ensures { AnswersAs (λ typed. (typed, reached_of at.new)) result
            (spec.if_step (known_view self.now) cond.now (map (spec.typed_stmt (known_view self.now)) yes.now)
            (option_map (map (spec.typed_stmt (known_view self.now))) no.now) (reached_of at.old)) }
    {
        let number = at.number;
        let cond = self.if_part(number, &at.scope, cond)?;
        at.number += 1;
        let yes = self.block(at, yes)?;
        let (no, has_else) = self.else_block(at, no)?;
        Ok(TypedStmt {
            number,
            kind: TypedKind::If {
                cond,
                yes,
                no,
                has_else,
            },
        })
    }

    #[cycle(stmts)]
    fn else_block(
        &self,
        at: &mut Reached<'a>,
        block: &'a Option<Items<Stmt>>,
    ) -> Result<(Items<TypedStmt>, bool), Stop<TypeFault>>
        requires { HasRoom (reached_of at.old) (else_count block.now) }
        ensures { AnswersAs (λ typed. (typed.0, typed.1, reached_of at.new)) result
            (spec.in_else (option_map (map (spec.typed_stmt (known_view self.now))) block.now) (reached_of at.old)) }
    {
        match block {
            Some(block) => {
                let typed = self.block(at, block.as_slice())?;
                Ok((typed, true))
            }
            None => Ok((Items::new(self.alloc), false)),
        }
    }

    #[cycle(stmts)]
    fn for_stmt(
        &self,
        at: &mut Reached<'a>,
        name: &'a Name,
        range: &RangeDecl,
        body: &'a [Stmt],
    ) -> Result<TypedStmt, Stop<TypeFault>>
        requires { HasRoom (reached_of at.old) (1 + block_count body.now) }
        ensures { AnswersAs (λ typed. (typed, reached_of at.new)) result
            (spec.for_step (known_view self.now) name.now range.now (map (spec.typed_stmt
            (known_view self.now)) body.now) (reached_of at.old)) }
    {
        let number = at.number;
        let names = at.scope.len();
        let range = self.for_part(number, &at.scope, name, range)?;
        at.number += 1;
        let var = at.declare(name, Ty::I32, true)?;
        let body = self.stmts(at, body)?;
        at.scope.leave(names);
        Ok(TypedStmt {
            number,
            kind: TypedKind::For { var, range, body },
        })
    }

    #[cycle(stmts)]
    fn stmt(&self, at: &mut Reached<'a>, stmt: &'a Stmt) -> Result<TypedStmt, Stop<TypeFault>>
        requires { HasRoom (reached_of at.old) (stmt_count stmt.now) }
        ensures { AnswersAs (λ typed. (typed, reached_of at.new)) result
            (spec.typed_stmt (known_view self.now) stmt.now (reached_of at.old)) }
    {
        match stmt {
            Stmt::Let { name, value } => self.let_stmt(at, name, value),
            Stmt::Assign { name, value } => self.assign_stmt(at, name, value),
            Stmt::Write {
                field,
                index,
                way,
                value,
            } => self.write_stmt(at, field, index.as_slice(), *way, value),
            Stmt::If { cond, yes, no } => self.if_stmt(at, cond, yes.as_slice(), no),
            Stmt::For { name, range, body } => self.for_stmt(at, name, range, body.as_slice()),
        }
    }

    #[cycle(stmts)]
    fn stmts(
        &self,
        at: &mut Reached<'a>,
        block: &'a [Stmt],
    ) -> Result<Items<TypedStmt>, Stop<TypeFault>>
        requires { HasRoom (reached_of at.old) (block_count block.now) }
        ensures { AnswersAs (λ typed. (typed, reached_of at.new)) result
            (spec.in_turn (map (spec.typed_stmt (known_view self.now)) block.now) (reached_of at.old)) }
    {
        let mut typed = Items::new(self.alloc);
        for stmt in block {
            let next = self.stmt(at, stmt)?;
            typed.push(next)?;
        }
        Ok(typed)
    }

    /// The statements of a block; what they declare is in scope to its end.
    #[cycle(stmts)]
    pub fn block(
        &self,
        at: &mut Reached<'a>,
        block: &'a [Stmt],
    ) -> Result<Items<TypedStmt>, Stop<TypeFault>>
        requires { HasRoom (reached_of at.old) (block_count block.now) }
        ensures { AnswersAs (λ typed. (typed, reached_of at.new)) result
            (spec.typed_block (known_view self.now) block.now (reached_of at.old)) }
    {
        let names = at.scope.len();
        let typed = self.stmts(at, block)?;
        at.scope.leave(names);
        Ok(typed)
    }
}
