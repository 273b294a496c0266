//! The rules that must touch a byte.

ghost use Rattle.std.specs.Prelude.{◌≡◌, ◌<◌, length, true, false, IfOk};
ghost use Rattle.ipg_core.specs.MustTouch as spec;
ghost use Rattle.ipg_core.specs.MustTouch.{AreLimit};
ghost use Rattle.ipg_touch.specs.Pass.{AreSound, AreClosed, Marking, unmarked};

use ipg_core::accepted::Core;
use ipg_core::grammar::{CoreAlt, CoreExpr, CoreSlot, CoreTerm, Sym};
use ipg_num::item_at;
use std::alloc::{AllocError, Global};

/// Whether each rule, by number, must touch a byte of each part on which it has a tree. In rounds, one more than rules
/// at most, each in time linear in the grammar.
pub fn must_touch(alloc: Global, g: &Core) -> Result<Vec<bool>, AllocError>
    ensures limit { IfOk result (λ marks. AreLimit g.now marks.items) }
{
    let mut marks = vec![in alloc; false; g.rules().len()]?;
    while mark_more(g, &mut marks) {}
    Ok(marks)
}

/// One pass over the rules, which marks those that touch by the marks so far. Whether it marked one.
fn mark_more(g: &Core, marks: &mut Vec<bool>) -> bool
    requires { AreSound g.now marks.old.items }
    ensures sound { AreSound g.now marks.new.items }
    ensures closed { result ≡ false → AreClosed g.now.rules marks.new.items }
    ensures fewer { result ≡ true → unmarked marks.new.items < unmarked marks.old.items }
{
    let mut more = false;
    for (rule, body) in g.rules().iter().enumerate() {
        more |= mark(marks, rule, body.alts.as_slice());
    }
    more
}

/// Marks a rule where each of its alternatives touches. Whether that is new.
fn mark(marks: &mut Vec<bool>, rule: usize, alts: &[CoreAlt]) -> bool
    requires { rule < length marks.old.items }
    ensures { Marking result marks.old.items rule alts.now marks.new.items }
{
    if marks[rule] || !all_marked(marks.as_slice(), alts) {
        return false;
    }
    marks[rule] = true;
    true
}

/// Each alternative has a term that touches.
fn all_marked(marks: &[bool], alts: &[CoreAlt]) -> bool
    ensures { result ≡ spec.all_marked marks.now alts.now }
{
    for alt in alts {
        if !some_marked(marks, alt.terms.as_slice()) {
            return false;
        }
    }
    true
}

/// Some term touches.
fn some_marked(marks: &[bool], terms: &[CoreTerm]) -> bool
    ensures { result ≡ spec.some_marked marks.now terms.now }
{
    for term in terms {
        if term_marked(marks, term) {
            return true;
        }
    }
    false
}

fn term_marked(marks: &[bool], term: &CoreTerm) -> bool
    ensures { result ≡ spec.term_marked marks.now term.now }
{
    match term {
        CoreTerm::Slot(slot) => sym_marked(marks, &slot.sym),
        CoreTerm::Pick { cases, other } => {
            cases_marked(marks, cases.as_slice()) && sym_marked(marks, &other.sym)
        }
        CoreTerm::Set { .. } => false,
        CoreTerm::Test(_) => false,
        CoreTerm::Repeat { .. } => false,
        CoreTerm::Many { .. } => false,
    }
}

fn cases_marked(marks: &[bool], cases: &[(CoreExpr, CoreSlot)]) -> bool
    ensures { result ≡ spec.cases_marked marks.now cases.now }
{
    for case in cases {
        if !sym_marked(marks, &case.1.sym) {
            return false;
        }
    }
    true
}

/// A terminal that isn't empty, a number, or a rule that is marked.
pub(crate) fn sym_marked(marks: &[bool], sym: &Sym) -> bool
    ensures { result ≡ spec.sym_marked marks.now sym.now }
{
    match sym {
        Sym::Text(bytes) => !bytes.as_slice().is_empty(),
        Sym::Prim(prim) => prim.width() > 0,
        Sym::Rule(rule) => is_marked(marks, *rule),
    }
}

fn is_marked(marks: &[bool], rule: u32) -> bool
    ensures { result ≡ spec.is_marked marks.now rule }
{
    match item_at(marks, rule as usize) {
        Some(mark) => *mark,
        None => false,
    }
}
