//! Alternatives and rules with their names resolved, and their first faults.
ghost use Rattle.std.specs.Prelude.{◌≡◌, ◌<◌, ◌^◌, length, IfOk, OnOk};
ghost use Rattle.std.specs.List.{AllByRecursion};
ghost use Rattle.ipg_names.specs.Fault.{first_of};
ghost use Rattle.ipg_names.specs.Faults as faults;
ghost use Rattle.ipg_names.specs.Resolved as spec;
ghost use Rattle.ipg_names_scope.specs.Marks.{IsShort};
ghost use Rattle.ipg_names_scope.specs.View.{entry_view, entries_view, HasShortTerms, IsFit};
ghost use Rattle.ipg_names_scope.specs.Lookup.{shown};
ghost use Rattle.ipg_names_scope.specs.Site.{site_scope, scopes_at, roster_in, names_under, AreTables, IsOuter};
ghost use Rattle.ipg_names.specs.Judged.{alt_told, alts_named, alts_told, rules_told};

use crate::fault::{NameFault, earlier};
use crate::faults::term_fault;
use crate::named::{NamedAlt, NamedRule, NamedTerm};
use crate::resolved::{copy, named_term};
use ipg_ast::{Alt, Term};
use ipg_names_scope::laws::tables_tell;
use ipg_names_scope::{
    ListedRule, NameTables, Places, TermSite, alt_tables, home_of, outer_of, pass, term_spot,
};
use ipg_num::List;
use std::alloc::{AllocError, Global};

/// A part of a grammar with its names resolved, and its first fault.
#[derive(Drop)]
pub struct Judged<T> {
    pub made: T,
    pub fault: Option<NameFault>,
}

fn judged_term(
    alloc: Global,
    site: &TermSite<'_, '_>,
    term: &Term,
) -> Result<Judged<NamedTerm>, AllocError>
    ensures made { IfOk result (λ judged. judged.made ≡ spec.term_in (site_scope site.now) term.now) }
    ensures fault { IfOk result (λ judged. judged.fault ≡ first_of (faults.term_faults (site_scope site.now) term.now)) }
{
    let spot = term_spot(site);
    Ok(Judged {
        made: named_term(alloc, &spot, term)?,
        fault: term_fault(&spot, term),
    })
}

fn judged_terms<'a>(
    alloc: Global,
    tables: &NameTables<'_, 'a>,
    entry: &ListedRule<'a>,
    at: (u32, u32),
    outer: &Places<'a>,
    terms: &'a [Term],
) -> Result<Judged<List<NamedTerm>>, AllocError>
    requires tables { AreTables tables.now }
    requires outer { IsOuter entry.now.outer.now outer.now }
    requires short { IsShort terms.now }
    ensures made { IfOk result (λ judged. judged.made ≡ spec.terms_from (scopes_at tables.now entry.now at terms.now) 0 terms.now) }
    ensures fault { IfOk result (λ judged. judged.fault ≡ first_of (faults.terms_faults (scopes_at tables.now entry.now at terms.now) 0 terms.now)) }
{
    tables_tell();
    let mut marks = alt_tables(alloc, terms)?;
    let mut made = Vec::with_capacity(alloc, terms.len())?;
    let mut fault = None;
    for (u, term) in terms.iter().enumerate() {
        let site = TermSite {
            tables: *tables,
            home: home_of(at, entry.holder),
            marks: &marks,
            outer,
            term: u as u32,
        };
        let judged = judged_term(alloc, &site, term)?;
        fault = earlier(fault, judged.fault);
        made.push(judged.made)?;
        pass(&mut marks, terms, u as u32)?;
    }
    Ok(Judged {
        made: List::from_vec(made),
        fault,
    })
}

fn judged_alt<'a>(
    alloc: Global,
    tables: &NameTables<'_, 'a>,
    entry: &ListedRule<'a>,
    at: (u32, u32),
    outer: &Places<'a>,
    alt: &'a Alt,
) -> Result<Judged<NamedAlt>, AllocError>
    requires tables { AreTables tables.now }
    requires outer { IsOuter entry.now.outer.now outer.now }
    requires short { HasShortTerms alt.now }
    ensures made { IfOk result (λ judged. judged.made ≡ spec.alt_in (roster_in tables.now) (names_under tables.now) (entry_view entry.now) at alt.now) }
    ensures fault { IfOk result (λ judged. judged.fault ≡ alt_told tables.now entry.now at alt.now) }
{
    let judged = judged_terms(alloc, tables, entry, at, outer, alt.terms.as_slice())?;
    Ok(Judged {
        made: NamedAlt { terms: judged.made },
        fault: judged.fault,
    })
}

fn judged_alts<'a>(
    alloc: Global,
    tables: &NameTables<'_, 'a>,
    rule: u32,
    entry: &ListedRule<'a>,
) -> Result<Judged<List<NamedAlt>>, AllocError>
    requires tables { AreTables tables.now }
    requires fit { IsFit (entry_view entry.now) }
    ensures made { IfOk result (λ judged. judged.made ≡ alts_named tables.now rule entry.now) }
    ensures fault { IfOk result (λ judged. judged.fault ≡ alts_told tables.now rule entry.now) }
{
    let alts = entry.rule.alts.as_slice();
    let outer = outer_of(alloc, entry.outer)?;
    let mut made = Vec::with_capacity(alloc, alts.len())?;
    let mut fault = None;
    for (a, alt) in alts.iter().enumerate() {
        let judged = judged_alt(alloc, tables, entry, (rule, a as u32), &outer, alt)?;
        fault = earlier(fault, judged.fault);
        made.push(judged.made)?;
    }
    Ok(Judged {
        made: List::from_vec(made),
        fault,
    })
}

fn judged_rule<'a>(
    alloc: Global,
    tables: &NameTables<'_, 'a>,
    rule: u32,
    entry: &ListedRule<'a>,
) -> Result<Judged<NamedRule>, AllocError>
    requires tables { AreTables tables.now }
    requires fit { IsFit (entry_view entry.now) }
    ensures made { IfOk result (λ judged. judged.made ≡ spec.rule_in (roster_in tables.now) (names_under tables.now) rule (entry_view entry.now)) }
    ensures fault { IfOk result (λ judged. judged.fault ≡ alts_told tables.now rule entry.now) }
{
    let name = copy(alloc, entry.rule.name.name.as_slice())?;
    let alts = judged_alts(alloc, tables, rule, entry)?;
    Ok(Judged {
        made: NamedRule {
            name,
            holder: entry.holder,
            alts: alts.made,
        },
        fault: alts.fault,
    })
}

/// The rules with their names resolved, and their first fault.
pub fn judged_rules<'a>(
    alloc: Global,
    tables: &NameTables<'_, 'a>,
) -> Result<Judged<List<NamedRule>>, AllocError>
    requires tables { AreTables tables.now }
    requires few { length tables.now.roster.now < 2 ^ 32 }
    requires fit { AllByRecursion IsFit (roster_in tables.now) }
    ensures made { IfOk result (λ judged. judged.made ≡ spec.rules_from (roster_in tables.now) (names_under tables.now) 0 (roster_in tables.now)) }
    ensures fault { IfOk result (λ judged. judged.fault ≡ rules_told tables.now) }
{
    let roster = tables.roster;
    let mut made = Vec::with_capacity(alloc, roster.len())?;
    let mut fault = None;
    for (r, entry) in roster.iter().enumerate() {
        let judged = judged_rule(alloc, tables, r as u32, entry)?;
        fault = earlier(fault, judged.fault);
        made.push(judged.made)?;
    }
    Ok(Judged {
        made: List::from_vec(made),
        fault,
    })
}
