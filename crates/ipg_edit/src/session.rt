//! Sessions.

ghost use Rattle.std.specs.Prelude.{◌≡◌, ◌↔◌, ◌+◌, ◌-◌, ◌≤◌, ◌^◌, List, [], length, IfOk, IsTrue, OnOk, OnErr, Err, None, Result};
ghost use Rattle.ipg_core.specs.Good.{Good};
ghost use Rattle.ipg_core.specs.Grammar.{Grammar};
ghost use Rattle.ipg_core.specs.Grown.{IsInput};
ghost use Rattle.ipg_core.specs.Lines.{lines};
ghost use Rattle.ipg_core.specs.Meaning.{Means};
ghost use Rattle.ipg_core.specs.Run.{Stop};
ghost use Rattle.ipg_core.specs.Tree.{Tree as AnyTree};
ghost use Rattle.ipg_mach_moves.specs.Moves.{Key};
ghost use Rattle.ipg_table.specs.Rows.{StandFor};
ghost use Rattle.ipg_tree.specs.Puts.{Puts};
ghost use Rattle.ipg_edit.specs.Answered.{Answers, AreAnswers, answer_by};
ghost use Rattle.ipg_edit_laws.specs.Edited.{edited, IsEditOf};
ghost use Rattle.ipg_edit.specs.Edits.{IsAllowed, IsEdited, AreMoved, StaysKnown, memo_with};
ghost use Rattle.ipg_edit.specs.Session.{Knows, Shows, holding, held_by, nothing};

use ipg_edit_laws::laws::{
    earlier_trees_stay, edited_length, keys_after_are_known, known_moves, known_stays,
    later_trees_move, nothing_else, one_origin, stays_right_to_know,
};
use ipg_mach::{Counts, Kept, Remember, Verdict};
use ipg_mach_count_laws::laws::{
    counts_over, deepest_over, fresh_lie_inside, known_at_end, none_where_first_kept,
};
use ipg_memo::Memo;
use ipg_outside::{Sink, SinkFault};
use ipg_table::tables::Tables;
use ipg_tree::print;
use ipg_tree_walk::{Detached, Parsed};
use std::alloc::{AllocError, Allocator};
use std::marker::Model;
use std::mem::replace;

/// What the input comes to, with what was counted: as many bodies as keys had to run.
#[derive(Clone, Copy, Debug, PartialEq, Eq)]
pub enum Answer {
    Tree(Counts),
    NoTree(Counts),
    /// A value left 64 bits.
    Range(Counts),
}

/// Why an edit is refused.
#[derive(Clone, Copy, Debug, PartialEq, Eq)]
pub enum EditFault {
    /// The places aren't in order and within the input, or the input would pass 2^30 bytes.
    OutOfInput,
    Memory,
}

impl From<AllocError> for EditFault {
    ghost use Rattle.std.specs.Prelude.{◌≡◌};
    ghost use Rattle.ipg_edit.specs.declared.session.EditFault.TheVariants.{Memory};

    ghost from_gives = { λ _ fault. fault ≡ Memory };

    fn from(_: AllocError) -> EditFault {
        EditFault::Memory
    }
}

/// What a session knows through an edit.
fn stays_known()
    ensures { StaysKnown }
{
    earlier_trees_stay();
    later_trees_move();
    known_stays();
    known_moves();
    nothing_else();
    one_origin();
    keys_after_are_known();
    stays_right_to_know();
    edited_length();
}

/// How many bytes an input may have.
const MAX_INPUT: usize = 1 << 30;

/// What a session knows of its input.
#[derive(Drop)]
enum State<A: Allocator> {
    /// Nothing: at first, where a value left 64 bits, and after want of memory.
    Nothing,
    Known(Kept<A>),
    /// All that is known, and the tree of the last answer.
    Shown(Detached<A>, Option<Memo<A>>),
}

/// An input that is edited, and answers of calls on it that are known.
#[derive(Drop)]
pub struct Session<'t, A: Allocator> {
    alloc: A,
    tables: &'t Tables,
    input: Vec<u8, A>,
    state: State<A>,
}

impl<'t, A: Allocator> Model for Session<'t, A> {
    ghost use Rattle.std.specs.Coded.{codes};
    ghost use Rattle.std.specs.FinMap as map;
    ghost use Rattle.ipg_memo.specs.Keyed.{key_cmp, key_code, entry_code};
    ghost use Rattle.ipg_edit.specs.Session.{Seen, seen, IsSmall};

    ghost Value = { Seen };

    ghost coded = { Prim.hlevel (codes, map.code {R = key_cmp} key_code entry_code) };

    ghost view = { λ s. seen s };

    ghost invariant = { λ s. IsSmall s };
}

/// Whether an input of so many bytes has the places, in order, and so many bytes in their stead leave one that isn't too long.
fn fits(size: usize, from: u32, to: u32, new: usize) -> bool
    requires { size ≤ 2 ^ 30 }
    ensures { IsTrue result ↔ ((from ≤ to) × (to ≤ size) × (size + new - (to - from) ≤ 2 ^ 30)) }
{
    from <= to
        && to as usize <= size
        && (size - (to - from) as usize).saturating_add(new) <= MAX_INPUT
}

/// Whether an input has the places, in order, and other bytes between them leave one that isn't too long.
fn is_allowed(input: &[u8], from: u32, to: u32, with: &[u8]) -> bool
    requires { length input.now ≤ 2 ^ 30 }
    ensures { IsTrue result ↔ IsAllowed input.now from to with.now }
{
    edited_length();
    fits(input.len(), from, to, with.len())
}

/// What is lent of an input are bytes.
fn holds_bytes(input: &[u8])
    requires { length input.now ≤ 2 ^ 30 }
    ensures { IsInput input.now }
{}

/// The input with the bytes between two places replaced.
fn replaced<A: Allocator + Clone + Drop>(
    alloc: A,
    input: &[u8],
    from: usize,
    to: usize,
    with: &[u8],
) -> Result<Vec<u8, A>, AllocError>
    requires { IsEditOf input.now from to }
    ensures { IfOk result (λ bytes. bytes.items ≡ edited input.now from to with.now) }
{
    let mut bytes = Vec::with_capacity(alloc, input.len() - (to - from) + with.len())?;
    bytes.extend_from_slice(&input[..from])?;
    bytes.extend_from_slice(with)?;
    bytes.extend_from_slice(&input[to..])?;
    Ok(bytes)
}

/// A memo's entries as an edit leaves them.
fn moved_memo<A: Allocator + Clone + Drop>(
    memo: &Option<Memo<A>>,
    from: u32,
    to: u32,
    new: u32,
) -> Result<Option<Memo<A>>, AllocError>
    requires { from ≤ to }
    ensures { IfOk result (AreMoved from to new memo.now) }
{
    match memo {
        Some(memo) => Ok(Some(memo.moved(from, to, new)?)),
        None => Ok(None),
    }
}

/// An input and a memo's entries, as an edit leaves them.
#[derive(Drop)]
struct Later<A: Allocator> {
    input: Vec<u8, A>,
    memo: Option<Memo<A>>,
}

impl<A: Allocator + Clone + Drop> State<A> {
    /// What an edit leaves of an input, and of the entries of what is kept.
    fn after(
        &self,
        alloc: &A,
        input: &[u8],
        from: u32,
        to: u32,
        with: &[u8],
    ) -> Result<Later<A>, AllocError>
        requires { IsAllowed input.now from to with.now }
        ensures { IfOk result (λ later. (later.input.items ≡ edited input.now from to with.now)
            × AreMoved from to (length with.now) (holding self.now).memo (memo_with self.now later.memo)) }
    {
        edited_length();
        let input = replaced(alloc.clone()?, input, from as usize, to as usize, with)?;
        let memo = self.moved(from, to, with.len() as u32)?;
        Ok(Later { input, memo })
    }

    /// The entries of what is kept, as an edit leaves them.
    fn moved(&self, from: u32, to: u32, new: u32) -> Result<Option<Memo<A>>, AllocError>
        requires { from ≤ to }
        ensures { IfOk result (λ memo. AreMoved from to new (holding self.now).memo (memo_with self.now memo)) }
    {
        match self {
            State::Nothing => Ok(None),
            State::Known(kept) => moved_memo(&kept.memo, from, to, new),
            State::Shown(_, memo) => moved_memo(memo, from, to, new),
        }
    }

    /// The same nodes with other entries. No tree is shown.
    fn with_memo(self, memo: Option<Memo<A>>) -> State<A>
        ensures { holding result ≡ record { store = (holding self).store; memo = memo_with self memo; shown = None } }
    {
        match self {
            State::Nothing => State::Nothing,
            State::Known(kept) => State::Known(Kept {
                store: kept.store,
                memo,
            }),
            State::Shown(tree, _) => State::Known(Kept {
                store: tree.into_store(),
                memo,
            }),
        }
    }

    /// Puts other entries over the same nodes. No tree is shown any more.
    fn put(&mut self, memo: Option<Memo<A>>)
        ensures { holding self.new ≡ record { store = (holding self.old).store; memo = memo_with self.old memo; shown = None } }
    {
        let state = replace(self, State::Nothing).with_memo(memo);
        // (as a call, what lay there meanwhile needn't be looked at here)
        drop(replace(self, state));
    }

    /// What is kept. The tree isn't shown any more.
    fn into_kept(self, alloc: &A) -> Result<Kept<A>, AllocError>
        ensures { IfOk result (λ kept. (kept.store ≡ (holding self).store) × (kept.memo ≡ (holding self).memo)) }
    {
        match self {
            State::Nothing => Kept::new(alloc.clone()?, Remember::Answers),
            State::Known(kept) => Ok(kept),
            State::Shown(tree, memo) => Ok(Kept {
                store: tree.into_store(),
                memo,
            }),
        }
    }

    /// What an input comes to over what is kept.
    fn run(self, alloc: &A, tables: &Tables, input: &[u8]) -> Result<Verdict<A>, AllocError>
        requires { length input.now ≤ 2 ^ 30 }
        ensures { IfOk result (λ verdict. AreAnswers tables.now input.now (holding self) (answer_by verdict) (held_by verdict)) }
    {
        counts_over();
        deepest_over();
        fresh_lie_inside();
        known_at_end();
        none_where_first_kept();
        holds_bytes(input);
        let kept = self.into_kept(alloc)?;
        match alloc.clone() {
            Ok(alloc) => kept.run(alloc, tables, input),
            Err(fault) => {
                drop(kept);
                Err(fault)
            }
        }
    }

    /// What is known after a parse. Its tree is shown.
    fn after_parse(verdict: Verdict<A>, alloc: &A) -> Result<(Answer, State<A>), AllocError>
        ensures { IfOk result (λ known. (known.0 ≡ answer_by verdict) × (holding known.1 ≡ held_by verdict)) }
    {
        match verdict {
            Verdict::Tree { root, counts, kept } => {
                let Kept { store, memo } = kept;
                let tree = Detached::new(alloc.clone()?, store, root, counts)?;
                Ok((Answer::Tree(counts), State::Shown(tree, memo)))
            }
            Verdict::NoTree { counts, kept } => Ok((Answer::NoTree(counts), State::Known(kept))),
            Verdict::Range { counts } => Ok((Answer::Range(counts), State::Nothing)),
        }
    }

    /// What an input comes to, and what is known of it then.
    fn answer(
        self,
        alloc: &A,
        tables: &Tables,
        input: &[u8],
    ) -> Result<(Answer, State<A>), AllocError>
        requires { length input.now ≤ 2 ^ 30 }
        ensures { IfOk result (λ given. AreAnswers tables.now input.now (holding self) given.0 (holding given.1)) }
    {
        let verdict = self.run(alloc, tables, input)?;
        State::after_parse(verdict, alloc)
    }

    /// Writes the lines of the tree that is shown, without taking memory, and gives all back as it was.
    fn print<S: Sink>(
        self,
        tables: &Tables,
        input: &[u8],
        out: &mut S,
    ) -> (State<A>, Result<(), SinkFault>)
        ensures stays { holding result.0 ≡ holding self }
        ensures lines { (g : Grammar) (one : AnyTree) → StandFor tables.now g
            → Shows one (record { tables = tables.now; input = input.now; holding = holding self })
            → Puts result.1 (lines g one 0) (S.output out.old) (S.faults out.old) (S.output out.new) (S.faults out.new) }
    {
        match self {
            State::Shown(tree, memo) => {
                let mut parsed = Parsed::attach(tables, input, tree);
                let said = print(&mut parsed, out);
                (State::Shown(parsed.detach(), memo), said)
            }
            other => (other, Ok(())),
        }
    }
}

impl<'t, A: Allocator + Clone + Drop> Session<'t, A> {
    /// A session over a copy of the input. Nothing is known yet.
    pub fn new(alloc: A, tables: &'t Tables, input: &[u8]) -> Result<Session<'t, A>, AllocError>
        requires { length input.now ≤ 2 ^ 30 }
        ensures seen { IfOk result (λ s. s ≡ record { tables = tables.now; input = input.now; holding = nothing }) }
        ensures knows { IfOk result (λ s. (g : Grammar) → StandFor tables.now g → Good g → Knows g [] s) }
    {
        let input = Vec::from_slice(alloc.clone()?, input)?;
        Ok(Session {
            alloc,
            tables,
            input,
            state: State::Nothing,
        })
    }

    /// What the input comes to. What is known spares calls; after want of memory nothing is.
    pub fn answer(&mut self) -> Result<Answer, AllocError>
        ensures ok { IfOk result (λ given. (g : Grammar) (kept : List Key) (answer : Result AnyTree Stop) → Knows g kept self.old
            → Means g self.old.input answer → Answers g self.old.input kept answer given self.new) }
        ensures err { OnErr result (self.new.holding ≡ nothing) }
        ensures input { self.new.input ≡ self.old.input }
        ensures tables { self.new.tables ≡ self.old.tables }
    {
        let state = replace(&mut self.state, State::Nothing);
        let (given, state) = state.answer(&self.alloc, self.tables, self.input.as_slice())?;
        // (as a call, what lay there meanwhile needn't be looked at here)
        drop(replace(&mut self.state, state));
        Ok(given)
    }

    /// Replaces the bytes from one place up to another. What is known of parts before them and behind them stays known. A
    /// refusal changes nothing.
    ///
    /// # Errors
    /// `OutOfInput` exactly where the places aren't in order and within the input, or the input would pass 2^30 bytes;
    /// `Memory` where memory is wanting.
    pub fn edit(&mut self, from: u32, to: u32, with: &[u8]) -> Result<(), EditFault>
        ensures out { result ≡ Err EditFault.OutOfInput ↔ ¬ (IsAllowed self.old.input from to with.now) }
        ensures ok { OnOk result (IsEdited from to with.now self.old self.new) }
        ensures err { OnErr result (self.new ≡ self.old) }
    {
        stays_known();
        if !is_allowed(self.input.as_slice(), from, to, with) {
            return Err(EditFault::OutOfInput);
        }
        let later = self
            .state
            .after(&self.alloc, self.input.as_slice(), from, to, with)?;
        let Later { input, memo } = later;
        drop(replace(&mut self.input, input));
        self.state.put(memo);
        Ok(())
    }

    /// Writes the lines of the tree that is shown, without taking memory.
    pub fn print<S: Sink>(&mut self, out: &mut S) -> Result<(), SinkFault>
        ensures stays { self.new ≡ self.old }
        ensures lines { (g : Grammar) (one : AnyTree) → StandFor self.old.tables g → Shows one self.old
            → Puts result (lines g one 0) (S.output out.old) (S.faults out.old) (S.output out.new) (S.faults out.new) }
    {
        let state = replace(&mut self.state, State::Nothing);
        let (state, said) = state.print(self.tables, self.input.as_slice(), out);
        // (as a call, what lay there meanwhile needn't be looked at here)
        drop(replace(&mut self.state, state));
        said
    }
}
