//! About how much memory the conditions of a call, or of a byte that no slot has, take: told before they are made. No clause speaks
//! of it: it decides where memory is wanting, and nothing else.

use ipg_core::accepted::Core;
use ipg_core::grammar::{CoreAlt, CoreExpr, CoreField, CoreSlot, CoreTerm, Name, Sym};
use ipg_graph::Edge;
use ipg_num::{Op2, item_at};
use std::alloc::{AllocError, Global};

/// How much the conditions of one call or one alternative may take, in words of 64 bits: 1.25 GiB. Past it memory is wanting.
const MOST_ROOM: u64 = 5 << 25;

/// Conditions that take more count as want of memory.
const TOO_LARGE: AllocError = AllocError;

/// What an atom or a choice takes, but for its variables.
const ATOM: u64 = 64;

/// What a variable takes, but for the name or the expression that it spells.
const VARIABLE: u64 = 12;

/// What is made of an expression, in words.
#[derive(Clone, Copy)]
struct Room {
    /// How long it is spelled.
    words: u64,
    /// The variables of its form.
    variables: u64,
    /// The facts that its form carries.
    carried: u64,
    /// The most that a form carries that is made where it is read as a condition.
    most: u64,
    /// The facts that it is true.
    holds: u64,
    /// The facts that it is false.
    fails: u64,
}

impl Room {
    /// The most that is carried where its form is made.
    fn made(self) -> u64 {
        self.most.max(self.carried)
    }
}

/// The names of attributes, and what the bounds of arrays that have run take.
#[derive(Drop)]
struct Context<'a> {
    names: &'a [Name],
    bounds: Vec<u64>,
}

fn sum(parts: &[u64]) -> u64 {
    let mut sum: u64 = 0;
    for part in parts {
        sum = sum.saturating_add(*part);
    }
    sum
}

/// An atom over both forms, behind what they carry.
fn compared(a: Room, b: Room) -> u64 {
    sum(&[a.carried, b.carried, a.variables, b.variables, ATOM])
}

/// The same, with an atom more.
fn equated(a: Room, b: Room) -> u64 {
    sum(&[compared(a, b), a.variables, b.variables, ATOM])
}

/// An atom in either order.
fn parted(a: Room, b: Room) -> u64 {
    sum(&[compared(a, b), compared(b, a), ATOM])
}

fn nought() -> Room {
    Room {
        words: 4,
        variables: 0,
        carried: 0,
        most: 0,
        holds: ATOM,
        fails: ATOM,
    }
}

/// An expression that is true where it isn't 0.
fn plain(words: u64, variables: u64, carried: u64, most: u64) -> Room {
    let form = Room {
        words,
        variables,
        carried,
        most: most.max(carried),
        holds: 0,
        fails: 0,
    };
    Room {
        words,
        variables,
        carried,
        most: most.max(carried),
        holds: parted(form, nought()),
        fails: equated(form, nought()),
    }
}

/// A variable that is known by the expression's spelling.
fn spelled(words: u64, carried: u64, most: u64) -> Room {
    plain(words, words.saturating_add(VARIABLE), carried, most)
}

/// A condition, by what it puts where it is true and where it is false.
fn condition(words: u64, most: u64, holds: u64, fails: u64) -> Room {
    Room {
        words,
        variables: words.saturating_add(VARIABLE),
        carried: 0,
        most,
        holds,
        fails,
    }
}

fn name_length(names: &[Name], attr: u32) -> u64 {
    match item_at(names, attr as usize) {
        None => 0,
        Some(name) => name.len() as u64,
    }
}

fn of_result(context: &Context, sym: &Sym, field: CoreField) -> Room {
    let words = match sym {
        Sym::Text(bytes) => sum(&[(bytes.len() as u64).saturating_mul(4), 8]),
        Sym::Prim(_) => 8,
        Sym::Rule(_) => 8,
    };
    let name = match field {
        CoreField::Attr(attr) => name_length(context.names, attr),
        CoreField::Start => 0,
        CoreField::End => 0,
    };
    plain(words, name.saturating_add(VARIABLE), 0, 0)
}

/// The place behind an array or a repetition: either in the part, or what stands to the left.
fn of_after(context: &Context, term: u32, left: Room) -> Room {
    let words = left.words.saturating_add(4);
    let own = spelled(words, 0, 0);
    let bounds = match item_at(context.bounds.as_slice(), term as usize) {
        Some(bounds) => *bounds,
        None => 0,
    };
    let inside = sum(&[own.variables, own.variables, ATOM, ATOM, ATOM]);
    let carried = sum(&[inside, equated(own, left), bounds, bounds]);
    spelled(words, carried, left.most)
}

fn of_two(op: Op2, a: Room, b: Room) -> Room {
    let words = sum(&[a.words, b.words, 4]);
    let most = a.made().max(b.made());
    match op {
        Op2::Add | Op2::Sub | Op2::Mul => {
            let variables = sum(&[a.variables, b.variables]).max(words.saturating_add(VARIABLE));
            plain(words, variables, sum(&[a.carried, b.carried]), most)
        }
        Op2::Eq => condition(words, most, equated(a, b), parted(a, b)),
        Op2::Ne => condition(words, most, parted(a, b), equated(a, b)),
        Op2::Lt | Op2::Le | Op2::Gt | Op2::Ge => {
            condition(words, most, compared(a, b), compared(a, b))
        }
        _ => spelled(words, 0, most),
    }
}

fn of_both(a: Room, b: Room) -> Room {
    condition(
        sum(&[a.words, b.words, 4]),
        a.most.max(b.most),
        sum(&[a.holds, b.holds]),
        sum(&[a.fails, a.holds, b.fails, ATOM]),
    )
}

fn of_not(a: Room) -> Room {
    condition(a.words.saturating_add(4), a.most, a.fails, a.holds)
}

fn of_either(a: Room, b: Room) -> Room {
    let words = sum(&[a.words, b.words, 4]);
    condition(
        words,
        a.most.max(b.most),
        sum(&[a.holds, a.fails, b.holds, ATOM]),
        sum(&[a.fails, b.fails]),
    )
}

fn of_cond(c: Room, a: Room, b: Room) -> Room {
    let words = sum(&[c.words, a.words, b.words, 4]);
    let own = spelled(words, 0, 0);
    let tests = sum(&[c.holds, c.fails, ATOM]);
    let carried = sum(&[tests, equated(own, a), equated(own, b)]);
    Room {
        words,
        variables: own.variables,
        carried,
        most: c.most.max(a.most).max(b.most),
        holds: sum(&[tests, a.holds, b.holds]),
        fails: sum(&[tests, a.fails, b.fails]),
    }
}

fn of_expr(context: &Context, e: &CoreExpr) -> Room {
    match e {
        CoreExpr::Num(_) => nought(),
        CoreExpr::Eoi => plain(4, VARIABLE, 0, 0),
        CoreExpr::Own(_) => plain(4, VARIABLE, 0, 0),
        CoreExpr::Outer(_) => plain(4, VARIABLE, 0, 0),
        CoreExpr::Loop => plain(4, VARIABLE, 0, 0),
        CoreExpr::Seen {
            term: _,
            sym,
            field,
        } => of_result(context, sym, *field),
        CoreExpr::Item {
            term: _,
            index,
            field: _,
        } => {
            let words = of_expr(context, index.get()).words.saturating_add(4);
            spelled(
                words,
                sum(&[words, words, VARIABLE, VARIABLE, ATOM, ATOM]),
                0,
            )
        }
        CoreExpr::After { term, left } => of_after(context, *term, of_expr(context, left.get())),
        CoreExpr::Neg(a) => {
            let a = of_expr(context, a.get());
            plain(
                a.words.saturating_add(4),
                a.variables.max(a.words.saturating_add(VARIABLE)),
                a.carried,
                a.most,
            )
        }
        CoreExpr::Not(a) => of_not(of_expr(context, a.get())),
        CoreExpr::Two(op, a, b) => {
            of_two(*op, of_expr(context, a.get()), of_expr(context, b.get()))
        }
        CoreExpr::Both(a, b) => of_both(of_expr(context, a.get()), of_expr(context, b.get())),
        CoreExpr::Either(a, b) => of_either(of_expr(context, a.get()), of_expr(context, b.get())),
        CoreExpr::Cond(c, a, b) => of_cond(
            of_expr(context, c.get()),
            of_expr(context, a.get()),
            of_expr(context, b.get()),
        ),
    }
}

/// What is put, and what is taken for a while beside it.
#[derive(Clone, Copy)]
struct Put {
    stays: u64,
    passes: u64,
}

/// At most a dozen atoms over both ends, each of which carries its facts four times.
fn of_ends(context: &Context, from: &CoreExpr, to: &CoreExpr) -> Put {
    let l = of_expr(context, from);
    let r = of_expr(context, to);
    let carried = sum(&[l.carried, r.carried]).saturating_mul(4);
    let atoms = sum(&[l.variables, r.variables, VARIABLE, ATOM]).saturating_mul(12);
    Put {
        stays: sum(&[carried, atoms]),
        passes: l.made().max(r.made()),
    }
}

fn of_many(context: &Context, from: &CoreExpr, to: &CoreExpr) -> Put {
    let l = of_expr(context, from);
    let r = of_expr(context, to);
    Put {
        stays: sum(&[
            compared(nought(), l),
            compared(l, r),
            compared(r, plain(4, VARIABLE, 0, 0)),
        ]),
        passes: l.made().max(r.made()),
    }
}

fn none_put() -> Put {
    Put {
        stays: 0,
        passes: 0,
    }
}

fn both_put(a: Put, b: Put) -> Put {
    Put {
        stays: sum(&[a.stays, b.stays]),
        passes: a.passes.max(b.passes),
    }
}

/// The branches of a switch, each behind the tests of those before it.
fn of_branches(context: &Context, cases: &[(CoreExpr, CoreSlot)], other: &CoreSlot) -> Put {
    let mut earlier: u64 = 0;
    let mut put = of_ends(context, &other.from, &other.to);
    for case in cases {
        let test = of_expr(context, &case.0);
        put = both_put(put, of_ends(context, &case.1.from, &case.1.to));
        put.stays = sum(&[put.stays, earlier, test.holds, ATOM]);
        put.passes = put.passes.max(test.most);
        earlier = sum(&[earlier, test.fails]);
    }
    put.stays = sum(&[put.stays, earlier, ATOM]);
    put
}

/// One branch of a switch, behind the tests of all others.
fn of_branch(context: &Context, cases: &[(CoreExpr, CoreSlot)], other: &CoreSlot) -> Put {
    let mut put = of_ends(context, &other.from, &other.to);
    for case in cases {
        let test = of_expr(context, &case.0);
        let ends = of_ends(context, &case.1.from, &case.1.to);
        put.stays = sum(&[put.stays.max(ends.stays), test.holds, test.fails]);
        put.passes = put.passes.max(test.most).max(ends.passes);
    }
    put
}

fn of_set(context: &Context, value: &CoreExpr) -> Put {
    let value = of_expr(context, value);
    Put {
        stays: equated(plain(4, VARIABLE, 0, 0), value),
        passes: value.made(),
    }
}

fn of_test(context: &Context, test: &CoreExpr) -> Put {
    let test = of_expr(context, test);
    Put {
        stays: test.holds,
        passes: test.most,
    }
}

/// What a term puts that has run.
fn of_term(context: &Context, term: &CoreTerm) -> Put {
    match term {
        CoreTerm::Slot(slot) => of_ends(context, &slot.from, &slot.to),
        CoreTerm::Set { attr: _, value } => of_set(context, value),
        CoreTerm::Test(test) => of_test(context, test),
        CoreTerm::Repeat {
            first,
            last,
            item: _,
            from: _,
            to: _,
        } => Put {
            stays: 0,
            passes: of_bounds(context, first, last),
        },
        CoreTerm::Many { item: _, from, to } => of_many(context, from, to),
        CoreTerm::Pick { cases, other } => of_branches(context, cases.as_slice(), other),
    }
}

/// What a term's slots put beside that where each of them misses a place: two atoms over its ends.
fn of_misses(context: &Context, term: &CoreTerm) -> Put {
    match term {
        CoreTerm::Slot(slot) => of_ends(context, &slot.from, &slot.to),
        CoreTerm::Pick { cases, other } => {
            let mut put = of_ends(context, &other.from, &other.to);
            for case in cases.as_slice() {
                put = both_put(put, of_ends(context, &case.1.from, &case.1.to));
            }
            put
        }
        _ => none_put(),
    }
}

/// What the edge's own term puts.
fn of_own(context: &Context, term: &CoreTerm) -> Put {
    match term {
        CoreTerm::Slot(slot) => of_ends(context, &slot.from, &slot.to),
        CoreTerm::Set { attr: _, value: _ } => none_put(),
        CoreTerm::Test(_) => none_put(),
        CoreTerm::Repeat {
            first,
            last,
            item: _,
            from,
            to,
        } => both_put(of_ends(context, first, last), of_ends(context, from, to)),
        CoreTerm::Many { item: _, from, to } => of_ends(context, from, to),
        CoreTerm::Pick { cases, other } => of_branch(context, cases.as_slice(), other),
    }
}

/// The bounds of an array: they are compared in either way where the place behind it is context.
fn of_bounds(context: &Context, first: &CoreExpr, last: &CoreExpr) -> u64 {
    compared(of_expr(context, first), of_expr(context, last))
}

fn pass(context: &mut Context, at: u32, term: &CoreTerm) {
    if let CoreTerm::Repeat {
        first,
        last,
        item: _,
        from: _,
        to: _,
    } = term
    {
        let bounds = of_bounds(context, first, last);
        if (at as usize) < context.bounds.len() {
            context.bounds[at as usize] = bounds;
        }
    }
}

/// What terms put that run one after another.
fn of_terms(context: &mut Context, terms: &[CoreTerm], order: &[u32]) -> Put {
    let mut put = none_put();
    for at in order {
        if let Some(term) = item_at(terms, *at as usize) {
            put = both_put(put, of_term(context, term));
            pass(context, *at, term);
        }
    }
    put
}

/// Whether all of it is small enough: a form stands in a handful of copies while its facts are put.
fn has_room(put: Put) -> Result<(), AllocError> {
    if MOST_ROOM < put.stays.saturating_add(put.passes.saturating_mul(4)) {
        Err(TOO_LARGE)
    } else {
        Ok(())
    }
}

fn context_of<'a>(
    alloc: Global,
    names: &'a [Name],
    alt: &CoreAlt,
) -> Result<Context<'a>, AllocError> {
    Ok(Context {
        names,
        bounds: vec![in alloc; 0; alt.terms.len()]?,
    })
}

/// The terms that run before one.
fn before(order: &[u32], term: u32) -> &[u32] {
    for at in 0..order.len() {
        if order[at] == term {
            return &order[..at];
        }
    }
    order
}

fn of_call(alloc: Global, names: &[Name], alt: &CoreAlt, term: u32) -> Result<Put, AllocError> {
    let mut context = context_of(alloc, names, alt)?;
    let terms = alt.terms.as_slice();
    let put = of_terms(&mut context, terms, before(alt.order.as_slice(), term));
    match item_at(terms, term as usize) {
        None => Ok(put),
        Some(own) => Ok(both_put(put, of_own(&context, own))),
    }
}

/// All terms of a holder, though some may not matter.
fn of_alt(alloc: Global, names: &[Name], alt: &CoreAlt) -> Result<Put, AllocError> {
    let mut context = context_of(alloc, names, alt)?;
    Ok(of_terms(&mut context, alt.terms.as_slice(), alt.order.as_slice()))
}

/// All terms of an alternative, and that its slots miss a place.
fn of_gap(alloc: Global, names: &[Name], alt: &CoreAlt) -> Result<Put, AllocError> {
    let mut context = context_of(alloc, names, alt)?;
    let mut put = of_terms(&mut context, alt.terms.as_slice(), alt.order.as_slice());
    for term in alt.terms.as_slice() {
        put = both_put(put, of_misses(&context, term));
    }
    Ok(put)
}

fn alt_at(g: &Core, rule: u32, alt: u32) -> Option<&CoreAlt> {
    match item_at(g.rules(), rule as usize) {
        None => None,
        Some(rule) => item_at(rule.alts.as_slice(), alt as usize),
    }
}

fn holder_of(g: &Core, rule: u32) -> Option<&CoreAlt> {
    match item_at(g.rules(), rule as usize) {
        None => None,
        Some(rule) => match rule.holder {
            None => None,
            Some(at) => alt_at(g, at.0, at.1),
        },
    }
}

fn of_holder(alloc: Global, g: &Core, rule: u32) -> Result<Put, AllocError> {
    match holder_of(g, rule) {
        None => Ok(none_put()),
        Some(alt) => of_alt(alloc, g.names(), alt),
    }
}

/// Wants memory where the conditions of the call would take more than `MOST_ROOM`.
pub fn ask_room(alloc: Global, g: &Core, edge: Edge) -> Result<(), AllocError> {
    let held = of_holder(alloc, g, edge.caller)?;
    let own = match alt_at(g, edge.caller, edge.alt) {
        None => none_put(),
        Some(alt) => of_call(alloc, g.names(), alt, edge.term)?,
    };
    has_room(both_put(held, own))
}

/// Wants memory where the conditions of a place that all slots of the alternative miss would take more than `MOST_ROOM`.
pub fn ask_gap_room(alloc: Global, g: &Core, rule: u32, alt: u32) -> Result<(), AllocError> {
    let held = of_holder(alloc, g, rule)?;
    let own = match alt_at(g, rule, alt) {
        None => none_put(),
        Some(alt) => of_gap(alloc, g.names(), alt)?,
    };
    has_room(both_put(held, own))
}
