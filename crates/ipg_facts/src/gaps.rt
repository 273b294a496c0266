//! The conditions of a place that all slots of an alternative miss.

ghost use Rattle.std.specs.Prelude.{◌≡◌, IfOk, OnOk, ◌++◌, slice_get};
ghost use Rattle.ipg_core.specs.Grammar.{rule_at};
ghost use Rattle.ipg_facts.specs.Keep as keeping;
ghost use Rattle.ipg_facts.specs.Gap as spec;

use crate::edition::Edition;
use crate::keeping::{Ground, alt_of, numbered, opening, put_holder_facts};
use crate::members::put_gap_terms;
use crate::missing::put_is_place;
use ipg_core::accepted::Core;
use ipg_core::grammar::{CoreAlt, CoreRule};
use ipg_facts_forms::Fact;
use ipg_facts_variables::Side;
use ipg_lin::{Boxed, Formula};
use ipg_num::item_at;
use std::alloc::{AllocError, Global};

#[tactic(auto, unfolding(crate::specs::Gap::gap_facts), using(crate::proofs::Puts::in_turn))]
fn put_gap_facts(
    alloc: Global,
    out: &mut Vec<Fact>,
    ground: Ground,
    holder: Option<(u32, u32)>,
    alt: &CoreAlt,
) -> Result<(), AllocError>
    ensures { OnOk result (out.new.items ≡ out.old.items ++ spec.gap_facts ground.entry.grammar.now ground.entry.marks.now holder alt.now) }
{
    let mut scope = opening(alloc, ground, Edition::Later, Side::Caller, alt)?;
    put_is_place(alloc, out, &scope)?;
    put_holder_facts(alloc, out, ground, holder, alt)?;
    put_gap_terms(alloc, out, &mut scope, alt.order.as_slice())
}

#[tactic(auto, unfolding(crate::specs::Gap::rule_gap))]
fn put_rule_gap(
    alloc: Global,
    out: &mut Vec<Fact>,
    ground: Ground,
    rule: &CoreRule,
    alt: u32,
) -> Result<(), AllocError>
    ensures { OnOk result
        (out.new.items ≡ out.old.items ++ spec.rule_gap ground.entry.grammar.now ground.entry.marks.now (Some rule.now) (slice_get rule.now.alts alt)) }
{
    match alt_of(rule, alt) {
        None => Ok(()),
        Some(found) => put_gap_facts(alloc, out, ground, rule.holder, found),
    }
}

#[tactic(auto, unfolding(crate::specs::Gap::rule_gap))]
fn rule_gap(alloc: Global, ground: Ground, rule: u32, alt: u32) -> Result<Vec<Fact>, AllocError>
    ensures { IfOk result (λ facts. facts.items
        ≡ spec.rule_gap ground.entry.grammar.now ground.entry.marks.now (rule_at ground.entry.grammar.now rule)
        (keeping.alt_at ground.entry.grammar.now (rule, alt))) }
{
    let mut facts = Vec::new(alloc);
    match item_at(ground.grammar.rules(), rule as usize) {
        None => Ok(facts),
        Some(found) => {
            put_rule_gap(alloc, &mut facts, ground, found, alt)?;
            Ok(facts)
        }
    }
}

/// Whether a place of the alternative's part lies in nothing that its slots take: a formula over whole numbers, and the
/// bounds of its variables, of which the first is the length of the part and the second the place. `touch` says which rules
/// must touch a byte. It takes time in proportion to the formula and to the expressions that it copies from.
#[tactic(auto, unfolding(crate::specs::Gap::gap))]
pub fn gap(
    alloc: Global,
    g: &Core,
    touch: &[bool],
    rule: u32,
    alt: u32,
) -> Result<(Formula, Boxed), AllocError>
    requires { spec.HasAlternative g.now rule alt }
    ensures { IfOk result (λ made. made ≡ spec.gap g.now touch.now rule alt) }
{
    let ground = Ground {
        grammar: g,
        marks: touch,
    };
    let facts = rule_gap(alloc, ground, rule, alt)?;
    numbered(alloc, facts.as_slice())
}
