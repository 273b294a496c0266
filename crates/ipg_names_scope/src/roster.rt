//! The rules of a text in the order of their heads, local ones included.
ghost use Rattle.std.specs.Prelude.{◌≡◌, ◌<◌, ◌≤◌, ◌^◌, ◌++◌, length, map, IfOk, OnOk};
ghost use Rattle.ipg_ast.specs.Shape.{tool_rules, max_rules, max_alts};
ghost use Rattle.ipg_names_scope.specs.Roster.{locals_from, family_of, roster_from};
ghost use Rattle.ipg_names_scope.specs.View.{entries_view, HasFewAlts, HaveFewAlts, local_entries};

use ipg_ast::{Alt, Rule, Term};
use std::alloc::{AllocError, Global};

/// A rule; of a local one its holder, by rule and alternative, and the holder's terms.
#[derive(Clone, Copy)]
pub struct ListedRule<'a> {
    pub rule: &'a Rule,
    pub holder: Option<(u32, u32)>,
    pub outer: &'a [Term],
}

pub fn roster_of<'a>(alloc: Global, rules: &'a [Rule]) -> Result<Vec<ListedRule<'a>>, AllocError>
    requires count { tool_rules rules.now ≤ max_rules }
    requires alts { HaveFewAlts rules.now }
    ensures { IfOk result (λ roster. entries_view roster.items ≡ roster_from 0 rules.now) }
{
    let mut roster = Vec::new(alloc);
    for rule in rules {
        add_rule(&mut roster, rule)?;
    }
    Ok(roster)
}

fn add_rule<'a>(roster: &mut Vec<ListedRule<'a>>, rule: &'a Rule) -> Result<(), AllocError>
    requires count { length roster.old.items < 2 ^ 32 }
    requires alts { HasFewAlts rule.now }
    ensures { OnOk result (entries_view roster.new.items ≡ entries_view roster.old.items ++ family_of (length roster.old.items) rule.now) }
{
    let number = roster.len() as u32;
    roster.push(ListedRule {
        rule,
        holder: None,
        outer: &[],
    })?;
    add_locals(roster, number, rule.alts.as_slice())
}

fn add_locals<'a>(
    roster: &mut Vec<ListedRule<'a>>,
    rule: u32,
    alts: &'a [Alt],
) -> Result<(), AllocError>
    requires { length alts.now ≤ max_alts }
    ensures { OnOk result (entries_view roster.new.items ≡ entries_view roster.old.items ++ locals_from rule 0 alts.now) }
{
    for (a, alt) in alts.iter().enumerate() {
        add_alt(roster, (rule, a as u32), alt)?;
    }
    Ok(())
}

fn add_alt<'a>(
    roster: &mut Vec<ListedRule<'a>>,
    at: (u32, u32),
    alt: &'a Alt,
) -> Result<(), AllocError>
    ensures { OnOk result (entries_view roster.new.items ≡ entries_view roster.old.items ++ local_entries at alt.now) }
{
    for rule in alt.locals.as_slice() {
        roster.push(ListedRule {
            rule,
            holder: Some(at),
            outer: alt.terms.as_slice(),
        })?;
    }
    Ok(())
}
