ghost use Rattle.std.specs.Prelude.{◌≡◌, ◌+◌, ◌<◌, ◌≤◌, All, length, IfOk, OnOk};
ghost use Rattle.ipg_graph_parts.specs.Finished.{IsWalk, moves_left, rule_of};

use crate::links::Links;
use std::alloc::{AllocError, Global};

/// A move of a walk that goes deep first.
#[derive(Clone, Copy)]
pub enum Move {
    Enter(u32),
    Leave(u32),
}

/// A walk over all rules: which ones it has seen, its moves to come, of which the last is the next, and the rules that it
/// has left.
#[derive(Drop)]
pub struct Walk {
    seen: Vec<bool>,
    moves: Vec<Move>,
    left: Vec<u32>,
}

impl Walk {
    fn new(alloc: Global, links: &Links) -> Result<Self, AllocError>
        ensures { IfOk result (IsWalk links.now) }
    {
        let mut moves = Vec::new(alloc);
        for rule in 0..links.rules() {
            moves.push(Move::Enter(rule))?;
        }
        Ok(Walk {
            seen: vec![in alloc; false; links.rules() as usize]?,
            moves,
            left: Vec::new(alloc),
        })
    }

    /// Makes one move.
    fn make(&mut self, links: &Links, next: Move) -> Result<(), AllocError>
        requires walk { IsWalk links.now self.old }
        requires inside { rule_of next < links.now.rules }
        ensures walk { OnOk result (IsWalk links.now self.new) }
        ensures less { OnOk result (moves_left links.now self.new ≤ moves_left links.now self.old) }
    {
        match next {
            Move::Enter(rule) => self.enter(links, rule),
            Move::Leave(rule) => Ok(self.left.push(rule)?),
        }
    }

    fn enter(&mut self, links: &Links, rule: u32) -> Result<(), AllocError>
        requires walk { IsWalk links.now self.old }
        requires inside { rule < links.now.rules }
        ensures walk { OnOk result (IsWalk links.now self.new) }
        ensures less { OnOk result (moves_left links.now self.new ≤ moves_left links.now self.old) }
    {
        if self.seen[rule as usize] {
            return Ok(());
        }
        self.seen[rule as usize] = true;
        self.moves.push(Move::Leave(rule))?;
        self.enter_next(links, rule)
    }

    /// The rules to which edges lead from the rule are to be entered.
    fn enter_next(&mut self, links: &Links, rule: u32) -> Result<(), AllocError>
        requires walk { IsWalk links.now self.old }
        requires inside { rule < links.now.rules }
        ensures walk { OnOk result (IsWalk links.now self.new) }
        ensures seen { OnOk result (self.new.seen.items ≡ self.old.seen.items) }
        ensures few { OnOk result (length self.new.moves.items ≤ length self.old.moves.items + length links.now.callers) }
    {
        links.rules();
        let mut next = links.callers().first(rule);
        while let Some(edge) = next {
            self.moves.push(Move::Enter(links.callees().key(edge)))?;
            next = links.callers().next(edge);
        }
        Ok(())
    }
}

/// The rules in the order in which a walk that goes deep first leaves them.
pub fn finished(alloc: Global, links: &Links) -> Result<Vec<u32>, AllocError>
    ensures { IfOk result (λ order. All (λ rule. rule < links.now.rules) order.items) }
{
    let mut walk = Walk::new(alloc, links)?;
    while let Some(next) = walk.moves.pop() {
        walk.make(links, next)?;
    }
    Ok(walk.left)
}
