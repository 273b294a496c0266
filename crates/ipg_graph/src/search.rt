ghost use Rattle.std.specs.Prelude.{◌≡◌, ℕ, ◌+◌, ◌<◌, ◌≤◌, ◌⊎◌, List, [], ◌∷◌, ◌++◌, not, ◌&&◌, true};
ghost use Rattle.std.specs.Prelude.{false, length, IfOk, slice_index_or, vec_len, vec_capacity};
ghost use Rattle.ipg_graph.specs.Graph.{caller, callee, IsLive, IsWhole};
ghost use Rattle.ipg_graph.specs.Marks.{IsUnseen};
ghost use Rattle.ipg_graph.specs.Walk.{is_free, enter, step, Now, Open, Closed, IsBarren};
ghost use Rattle.ipg_graph.specs.Search.{now, place, IsWalk, IsChoice, IsReady, IsFollowing, GoesOn, IsTrying, Aims, HasMore, IsFound};
ghost use Rattle.ipg_graph.specs.Search.{ClosesAt, Resumes, Finds, FindsNone, IsKept, IsNextFound, HasNothing, spot};
ghost use Rattle.ipg_graph.specs.Answers.{last_of};

use crate::links::Links;
use crate::reach::Reach;
use std::alloc::{AllocError, Global};

/// What the last call found.
#[derive(Clone, Copy)]
pub enum State {
    Start,
    Found,
    End,
}

/// A walk from its least rule on, by edges that are tried in order.
#[derive(Drop)]
pub struct Search {
    links: Links,
    reach: Reach,
    path: Vec<u32>,
    seen: Vec<bool>,
    start: u32,
    tip: u32,
    cursor: u32,
    state: State,
}

fn put(path: &mut Vec<u32>, edge: u32)
    requires { vec_len path.old < vec_capacity path.old }
    ensures items { path.new.items ≡ path.old.items ++ edge ∷ [] }
    ensures room { vec_capacity path.old ≤ vec_capacity path.new }
{
    let _ = path.push(edge);
}

impl Search {
    pub fn new(alloc: Global, links: Links) -> Result<Self, AllocError>
        ensures { IfOk result (λ s. IsKept s × ((s.links ≡ links) × (s.state ≡ State.Start))) }
    {
        let rules = links.rules();
        let _edges = links.len();
        let path = Vec::with_capacity(alloc, rules as usize + 1)?;
        let seen = vec![in alloc; false; rules as usize]?;
        let reach = Reach::new(alloc, rules)?;
        Ok(Search {
            links,
            reach,
            path,
            seen,
            start: rules,
            tip: rules,
            cursor: 0,
            state: State::Start,
        })
    }

    /// The edges of the cycle that was found last, if it was.
    pub fn found(&self) -> &[u32]
        ensures { result.now ≡ last_of (spot self.now) }
    {
        match self.state {
            State::Found => self.path.as_slice(),
            State::Start | State::End => &[],
        }
    }

    /// Finds the next cycle; it is the path then.
    pub fn next(&mut self) -> bool
        requires { IsKept self.old }
        ensures found { result ≡ true → IsNextFound self.old self.new }
        ensures none { result ≡ false → HasNothing self.old self.new }
    {
        match self.state {
            State::Start => self.find(),
            State::Found => {
                self.resume();
                self.find()
            }
            State::End => false,
        }
    }

    /// Goes on behind the cycle that was found.
    fn resume(&mut self)
        requires { IsFound self.old }
        ensures { Resumes self.old self.new }
    {
        if let Some(edge) = self.path.pop() {
            self.cursor = self.following(edge);
        }
    }

    /// Finds the first cycle from the cursor on.
    fn find(&mut self) -> bool
        requires { IsReady self.old }
        ensures found { result ≡ true → Finds self.old self.new }
        ensures none { result ≡ false → FindsNone self.old self.new }
    {
        while self.has_more() {
            if self.advance() {
                self.state = State::Found;
                return true;
            }
        }
        self.state = State::End;
        false
    }

    fn has_more(&self) -> bool
        ensures more { result ≡ true → HasMore self.now }
        ensures ended { result ≡ false → (length self.now.links.callers ≤ self.now.cursor) × (self.now.path.items ≡ []) }
    {
        self.cursor < self.links.len() || !self.is_at_root()
    }

    /// Makes one move: true where it closed a cycle.
    fn advance(&mut self) -> bool
        requires ready { IsReady self.old }
        requires more { HasMore self.old }
        ensures found { result ≡ true → ClosesAt self.old self.new }
        ensures goes { result ≡ false → GoesOn self.old self.new }
    {
        if self.cursor < self.links.len() {
            return self.try_edge();
        }
        self.back_up();
        false
    }

    /// Walks back over the last edge, since no edge is left to try behind it.
    fn back_up(&mut self)
        requires ready { IsReady self.old }
        requires done { length self.old.links.callers ≤ self.old.cursor }
        requires some { 0 < length self.old.path.items }
        ensures { GoesOn self.old self.new }
    {
        if let Some(edge) = self.path.pop() {
            self.seen[self.tip as usize] = false;
            self.tip = self.links.caller(edge);
            self.reach
                .fill(&self.links, self.start, self.seen.as_slice());
            self.cursor = self.following(edge);
        }
    }

    /// Tries the edge at the cursor: true where it closes a cycle.
    fn try_edge(&mut self) -> bool
        requires ready { IsReady self.old }
        requires within { self.old.cursor < length self.old.links.callers }
        ensures found { result ≡ true → ClosesAt self.old self.new }
        ensures goes { result ≡ false → GoesOn self.old self.new }
    {
        let caller = self.links.caller(self.cursor);
        if caller >= self.links.rules() {
            self.skip();
            return false;
        }
        self.aim(caller);
        self.try_live()
    }

    /// Sets the start where the walk is empty.
    fn aim(&mut self, rule: u32)
        requires ready { IsReady self.old }
        requires within { self.old.cursor < length self.old.links.callers }
        requires at { rule ≡ caller self.old.links self.old.cursor }
        requires live { rule < self.old.links.rules }
        ensures { Aims self.old self.new }
    {
        if !self.is_at_root() {
            return;
        }
        if rule == self.start {
            return;
        }
        self.start = rule;
        self.reach.fill(&self.links, rule, self.seen.as_slice());
    }

    fn try_live(&mut self) -> bool
        requires { IsTrying self.old }
        ensures found { result ≡ true → ClosesAt self.old self.new }
        ensures goes { result ≡ false → GoesOn self.old self.new }
    {
        let callee = self.links.callee(self.cursor);
        if callee == self.start {
            put(&mut self.path, self.cursor);
            return true;
        }
        if self.may_enter(callee) {
            self.enter(callee);
        } else {
            self.skip();
        }
        false
    }

    /// Whether a way back to the start may lead over the rule.
    fn may_enter(&self, rule: u32) -> bool
        requires flag { rule < length self.now.seen.items }
        requires mark { rule < length self.now.reach.marks.items }
        ensures { result ≡ (is_free self.now.start self.now.seen.items rule && slice_index_or self.now.reach.marks.items rule false) }
    {
        rule > self.start && !self.seen[rule as usize] && self.reach.holds(rule)
    }

    /// Walks over the edge at the cursor.
    fn enter(&mut self, rule: u32)
        requires trying { IsTrying self.old }
        requires rule { rule ≡ callee self.old.links self.old.cursor }
        requires above { self.old.start < rule }
        requires free { IsUnseen self.old.seen.items rule }
        ensures { GoesOn self.old self.new }
    {
        put(&mut self.path, self.cursor);
        self.seen[rule as usize] = true;
        self.tip = rule;
        self.cursor = self.links.first_out(rule);
    }

    /// Passes the edge at the cursor, from which no cycle closes.
    fn skip(&mut self)
        requires ready { IsReady self.old }
        requires within { self.old.cursor < length self.old.links.callers }
        requires barren { IsBarren self.old.links (step self.old.links (now self.old) self.old.cursor) }
        ensures { GoesOn self.old self.new }
    {
        self.cursor = self.following(self.cursor);
    }

    /// The next edge to try behind an edge of the same level.
    fn following(&self, edge: u32) -> u32
        requires walk { IsWalk self.now self.now.path.items }
        requires within { edge < length self.now.links.callers }
        requires at_tip { 0 < length self.now.path.items → caller self.now.links edge ≡ self.now.tip }
        ensures { IsFollowing self.now edge result }
    {
        if self.is_at_root() {
            return edge + 1;
        }
        self.links.next_out(edge)
    }

    fn is_at_root(&self) -> bool
        ensures root { result ≡ true → self.now.path.items ≡ [] }
        ensures away { result ≡ false → 0 < length self.now.path.items }
    {
        self.path.is_empty()
    }
}
