//! Where reading a file stops: how far its tokens begin a file of the grammar, and what may stand there.

ghost use Rattle.std.specs.Prelude.{◌≤◌, length, IfOk};

use crate::want::{Step, Want};
use crate::wants::Wants;
use sg_ast::Spanned;
use sg_words::Memory;
use std::alloc::Global;

/// How far the tokens of a file begin a file of the grammar: how many are read, and what may stand behind them.
#[derive(Drop)]
pub struct Reading {
    pub taken: usize,
    pub wants: Wants,
}

impl Reading {
    /// Reads tokens up to their end, or up to the first with which no form goes on.
    pub fn of(alloc: Global, tokens: &[Spanned]) -> Result<Reading, Memory>
        ensures { IfOk result (λ reading. reading.taken ≤ length tokens.now) }
    {
        let mut wants = Wants {
            list: Vec::new(alloc),
            blocks: 0,
        };
        wants.list.push(Want::Items)?;
        let mut taken = 0;
        let turns = tokens.len().saturating_mul(8).saturating_add(8);
        for _turn in 0..turns {
            let Some(first) = tokens.get(taken) else {
                break;
            };
            let Some(want) = wants.list.pop() else {
                break;
            };
            let behind = match tokens.get(taken + 1) {
                Some(next) => Some(&next.token),
                None => None,
            };
            match wants.step(want, &first.token, behind)? {
                Step::Taken => taken += 1,
                Step::Opened => {}
                Step::Stopped => {
                    wants.list.push(want)?;
                    break;
                }
            }
        }
        Ok(Reading { taken, wants })
    }
}
