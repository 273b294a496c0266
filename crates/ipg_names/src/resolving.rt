//! The names of a grammar, resolved.
ghost use Rattle.std.specs.Prelude.{◌≡◌, ◌⊎◌, ◌<◌, ◌^◌, Some, None, IfOk, IfErr, length};
ghost use Rattle.ipg_names.specs.Readable.{IsReadable};
ghost use Rattle.ipg_names.specs.Fault.{first_of};
ghost use Rattle.ipg_names.specs.Faults.{roster_faults, faults_of};
ghost use Rattle.ipg_names.specs.Resolved.{rules_from, names_of};
ghost use Rattle.ipg_names_scope.specs.Names as spec;
ghost use Rattle.ipg_names_scope.specs.Lookup.{shown};
ghost use Rattle.ipg_names_scope.specs.View.{entries_view, IsFit};
ghost use Rattle.std.specs.List.{AllByRecursion};

use crate::fault::{NameFault, earlier};
use crate::heads::heads_fault;
use crate::laws::faultless_is_formed;
use crate::named::NamedRule;
use crate::rules::{Judged, judged_rules};
use crate::whole::NamedGrammar;
use ipg_ast::Grammar;
use ipg_names_scope::laws::roster_is_whole;
use ipg_names_scope::{
    Attrs, ListedRule, NameTables, attrs_of, fields_of, listed, numbers_of, roster_of,
};
use ipg_num::List;
use std::alloc::{AllocError, Global};

/// The grammar with its names resolved.
///
/// # Errors
///
/// The first fault of its names, G6 to G11, with its place in bytes; `Memory` where memory is wanting.
pub fn resolve(alloc: Global, g: &Grammar) -> Result<NamedGrammar, NameFault>
    requires { IsReadable g.now }
    ensures ok { IfOk result (λ named. (first_of (faults_of g.now) ≡ None) × (named ≡ names_of g.now)) }
    ensures err { IfErr result (λ fault. (fault ≡ NameFault.Memory) ⊎ (first_of (faults_of g.now) ≡ Some fault)) }
{
    let attrs = attrs_of(alloc, g)?;
    let judged = judged(alloc, g, &attrs)?;
    match judged.fault {
        Some(fault) => Err(fault),
        None => Ok(named(alloc, g, judged.made, &attrs)?),
    }
}

/// The rules with their names resolved, and the first fault of the text.
fn judged<'a>(
    alloc: Global,
    g: &'a Grammar,
    attrs: &Attrs<'a>,
) -> Result<Judged<List<NamedRule>>, AllocError>
    requires readable { IsReadable g.now }
    requires attrs { shown attrs.now.names ≡ spec.attr_names g.now }
    ensures made { IfOk result (λ judged. judged.made ≡ (names_of g.now).rules) }
    ensures fault { IfOk result (λ judged. judged.fault ≡ first_of (faults_of g.now)) }
{
    roster_is_whole();
    let roster = roster_of(alloc, g.rules.as_slice())?;
    judged_roster(alloc, roster.as_slice(), attrs)
}

fn judged_roster<'a>(
    alloc: Global,
    roster: &[ListedRule<'a>],
    attrs: &Attrs<'a>,
) -> Result<Judged<List<NamedRule>>, AllocError>
    requires few { length roster.now < 2 ^ 32 }
    requires fit { AllByRecursion IsFit (entries_view roster.now) }
    ensures made { IfOk result (λ judged. judged.made ≡ rules_from (entries_view roster.now) (shown attrs.now.names) 0 (entries_view roster.now)) }
    ensures fault { IfOk result (λ judged. judged.fault ≡ first_of (roster_faults (entries_view roster.now) (shown attrs.now.names))) }
{
    let numbers = numbers_of(alloc, roster)?;
    let fields = fields_of(alloc, roster)?;
    let tables = NameTables {
        roster,
        numbers: &numbers,
        fields: fields.as_slice(),
        attrs,
    };
    let rules = judged_rules(alloc, &tables)?;
    Ok(Judged {
        made: rules.made,
        fault: earlier(heads_fault(&numbers, roster), rules.fault),
    })
}

fn named(
    alloc: Global,
    g: &Grammar,
    rules: List<NamedRule>,
    attrs: &Attrs<'_>,
) -> Result<NamedGrammar, AllocError>
    requires readable { IsReadable g.now }
    requires faultless { first_of (faults_of g.now) ≡ None }
    requires rules { rules ≡ (names_of g.now).rules }
    requires attrs { shown attrs.now.names ≡ spec.attr_names g.now }
    ensures { IfOk result (λ named. named ≡ names_of g.now) }
{
    faultless_is_formed();
    Ok(NamedGrammar {
        rules,
        names: listed(alloc, attrs)?,
    })
}
