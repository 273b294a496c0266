//! Writes a body.

ghost use Rattle.std.specs.Prelude.{◌≡◌, ◌++◌, [], ◌∷◌, IfOk, OnOk};
ghost use Rattle.ipg_store_body.specs.Fits.{FitsSym, FitsField, FitsHolder, FitsWhereNests};
ghost use Rattle.ipg_store_body.specs.Fits.{SlotFits, CaseFits, TermFits, AltFits, RuleFits, NestsRule, IsBody, bare};
ghost use Rattle.std.specs.List.{AllByRecursion};
ghost use Rattle.ipg_reader.specs.Laws.{IsText, AreCounted};
ghost use Rattle.ipg_reader.specs.Laws.{short_text, long_text, signed_text, counted_text, list_text};
ghost use Rattle.ipg_store_body.specs.Format.{sym_text, field_text, operator_number, expr_text, slot_text, case_text, term_text, alt_text};
ghost use Rattle.ipg_store_body.specs.Format.{holder_text, rule_text, body_text};

use ipg_core::accepted::Core;
use ipg_core::grammar::{CoreAlt, CoreExpr, CoreField, CoreRule, CoreSlot, CoreTerm, Name, Sym};
use ipg_num::{Held, Op2};
use std::alloc::{AllocError, Global};

fn put_byte(out: &mut Vec<u8>, byte: u8) -> Result<(), AllocError>
    ensures { OnOk result (out.new.items ≡ out.old.items ++ byte ∷ []) }
{
    out.push(byte)?;
    Ok(())
}

fn put_short(out: &mut Vec<u8>, number: u32) -> Result<(), AllocError>
    ensures { OnOk result (out.new.items ≡ out.old.items ++ short_text number) }
{
    out.extend_from_slice(&number.to_le_bytes())
}

fn put_count(out: &mut Vec<u8>, count: usize) -> Result<(), AllocError>
    ensures { OnOk result (out.new.items ≡ out.old.items ++ long_text count) }
{
    out.extend_from_slice(&(count as u64).to_le_bytes())
}

fn put_signed(out: &mut Vec<u8>, number: i64) -> Result<(), AllocError>
    ensures { OnOk result (out.new.items ≡ out.old.items ++ signed_text number) }
{
    out.extend_from_slice(&number.cast_unsigned().to_le_bytes())
}

/// A count and as many bytes.
fn put_text(out: &mut Vec<u8>, text: &[u8]) -> Result<(), AllocError>
    ensures text { OnOk result (out.new.items ≡ out.old.items ++ counted_text text.now) }
    ensures fits { IfOk result (λ _. IsText text.now) }
{
    put_count(out, text.len())?;
    out.extend_from_slice(text)
}

/// The place of an operator in their list.
fn operator_byte(op: Op2) -> u8
    ensures { result ≡ operator_number op }
{
    op as u8
}

fn put_sym(out: &mut Vec<u8>, sym: &Sym) -> Result<(), AllocError>
    ensures text { OnOk result (out.new.items ≡ out.old.items ++ sym_text sym.now) }
    ensures fits { IfOk result (λ _. FitsSym sym.now) }
{
    match sym {
        Sym::Text(bytes) => {
            put_byte(out, 0)?;
            put_text(out, bytes.as_slice())
        }
        Sym::Prim(prim) => {
            put_byte(out, 1)?;
            put_byte(out, prim.number())
        }
        Sym::Rule(rule) => {
            put_byte(out, 2)?;
            put_short(out, *rule)
        }
    }
}

fn put_field(out: &mut Vec<u8>, field: CoreField) -> Result<(), AllocError>
    ensures text { OnOk result (out.new.items ≡ out.old.items ++ field_text field) }
    ensures fits { IfOk result (λ _. FitsField field) }
{
    match field {
        CoreField::Attr(attr) => {
            put_byte(out, 0)?;
            put_short(out, attr)
        }
        CoreField::Start => put_byte(out, 1),
        CoreField::End => put_byte(out, 2),
    }
}

fn put_holder(out: &mut Vec<u8>, holder: Option<(u32, u32)>) -> Result<(), AllocError>
    ensures text { OnOk result (out.new.items ≡ out.old.items ++ holder_text holder) }
    ensures fits { IfOk result (λ _. FitsHolder holder) }
{
    match holder {
        None => put_byte(out, 0),
        Some((rule, alt)) => {
            put_byte(out, 1)?;
            put_short(out, rule)?;
            put_short(out, alt)
        }
    }
}

#[cycle(put_expr)]
fn put_expr(out: &mut Vec<u8>, e: &CoreExpr) -> Result<(), AllocError>
    ensures text { OnOk result (out.new.items ≡ out.old.items ++ expr_text e.now) }
    ensures fits { IfOk result (λ _. FitsWhereNests e.now) }
{
    match e {
        CoreExpr::Num(value) => {
            put_byte(out, 0)?;
            put_signed(out, *value)?;
        }
        CoreExpr::Eoi => put_byte(out, 1)?,
        CoreExpr::Own(attr) => {
            put_byte(out, 2)?;
            put_short(out, *attr)?;
        }
        CoreExpr::Outer(attr) => {
            put_byte(out, 3)?;
            put_short(out, *attr)?;
        }
        CoreExpr::Loop => put_byte(out, 4)?,
        CoreExpr::Seen { term, sym, field } => {
            put_byte(out, 5)?;
            put_short(out, *term)?;
            put_sym(out, sym)?;
            put_field(out, *field)?;
        }
        CoreExpr::Item { term, index, field } => {
            put_byte(out, 6)?;
            put_short(out, *term)?;
            put_part(out, index)?;
            put_field(out, *field)?;
        }
        CoreExpr::After { term, left } => {
            put_byte(out, 7)?;
            put_short(out, *term)?;
            put_part(out, left)?;
        }
        CoreExpr::Neg(a) => {
            put_byte(out, 8)?;
            put_part(out, a)?;
        }
        CoreExpr::Not(a) => {
            put_byte(out, 9)?;
            put_part(out, a)?;
        }
        CoreExpr::Two(op, a, b) => {
            put_byte(out, 10)?;
            put_byte(out, operator_byte(*op))?;
            put_part(out, a)?;
            put_part(out, b)?;
        }
        CoreExpr::Both(a, b) => {
            put_byte(out, 11)?;
            put_part(out, a)?;
            put_part(out, b)?;
        }
        CoreExpr::Either(a, b) => {
            put_byte(out, 12)?;
            put_part(out, a)?;
            put_part(out, b)?;
        }
        CoreExpr::Cond(c, a, b) => {
            put_byte(out, 13)?;
            put_part(out, c)?;
            put_part(out, a)?;
            put_part(out, b)?;
        }
    }
    Ok(())
}

/// An expression in another one.
#[cycle(put_expr)]
fn put_part(out: &mut Vec<u8>, part: &Held<CoreExpr>) -> Result<(), AllocError>
    ensures text { OnOk result (out.new.items ≡ out.old.items ++ expr_text part.now) }
    ensures fits { IfOk result (λ _. FitsWhereNests part.now) }
{
    put_expr(out, part.get())
}

fn put_slot(out: &mut Vec<u8>, slot: &CoreSlot) -> Result<(), AllocError>
    ensures text { OnOk result (out.new.items ≡ out.old.items ++ slot_text slot.now) }
    ensures fits { IfOk result (λ _. SlotFits slot.now) }
{
    put_sym(out, &slot.sym)?;
    put_expr(out, &slot.from)?;
    put_expr(out, &slot.to)
}

fn put_case(out: &mut Vec<u8>, case: &(CoreExpr, CoreSlot)) -> Result<(), AllocError>
    ensures text { OnOk result (out.new.items ≡ out.old.items ++ case_text case.now) }
    ensures fits { IfOk result (λ _. CaseFits case.now) }
{
    put_expr(out, &case.0)?;
    put_slot(out, &case.1)
}

fn put_cases(out: &mut Vec<u8>, cases: &[(CoreExpr, CoreSlot)]) -> Result<(), AllocError>
    ensures text { OnOk result (out.new.items ≡ out.old.items ++ list_text case_text cases.now) }
    ensures fits { IfOk result (λ _. AreCounted CaseFits cases.now) }
{
    put_count(out, cases.len())?;
    for case in cases {
        put_case(out, case)?;
    }
    Ok(())
}

/// A symbol on an interval, as items have one.
fn put_item(out: &mut Vec<u8>, item: &Sym, from: &CoreExpr, to: &CoreExpr) -> Result<(), AllocError>
    ensures text { OnOk result (out.new.items ≡ out.old.items ++ (sym_text item.now ++ (expr_text from.now ++ expr_text to.now))) }
    ensures fits { IfOk result (λ _. FitsSym item.now × (FitsWhereNests from.now × FitsWhereNests to.now)) }
{
    put_sym(out, item)?;
    put_expr(out, from)?;
    put_expr(out, to)
}

#[tactic(auto, unfolding(crate::specs::Fits::TermFits))]
fn put_term(out: &mut Vec<u8>, term: &CoreTerm) -> Result<(), AllocError>
    ensures text { OnOk result (out.new.items ≡ out.old.items ++ term_text term.now) }
    ensures fits { IfOk result (λ _. TermFits term.now) }
{
    match term {
        CoreTerm::Slot(slot) => {
            put_byte(out, 0)?;
            put_slot(out, slot)
        }
        CoreTerm::Set { attr, value } => {
            put_byte(out, 1)?;
            put_short(out, *attr)?;
            put_expr(out, value)
        }
        CoreTerm::Test(test) => {
            put_byte(out, 2)?;
            put_expr(out, test)
        }
        CoreTerm::Repeat {
            first,
            last,
            item,
            from,
            to,
        } => {
            put_byte(out, 3)?;
            put_expr(out, first)?;
            put_expr(out, last)?;
            put_item(out, item, from, to)
        }
        CoreTerm::Pick { cases, other } => {
            put_byte(out, 4)?;
            put_cases(out, cases.as_slice())?;
            put_slot(out, other)
        }
        CoreTerm::Many { item, from, to } => {
            put_byte(out, 5)?;
            put_item(out, item, from, to)
        }
    }
}

fn put_terms(out: &mut Vec<u8>, terms: &[CoreTerm]) -> Result<(), AllocError>
    ensures text { OnOk result (out.new.items ≡ out.old.items ++ list_text term_text terms.now) }
    ensures fits { IfOk result (λ _. AreCounted TermFits terms.now) }
{
    put_count(out, terms.len())?;
    for term in terms {
        put_term(out, term)?;
    }
    Ok(())
}

/// An alternative, without the order of its terms.
fn put_alt(out: &mut Vec<u8>, alt: &CoreAlt) -> Result<(), AllocError>
    ensures text { OnOk result (out.new.items ≡ out.old.items ++ alt_text alt.now) }
    ensures fits { IfOk result (λ _. AltFits alt.now) }
{
    put_terms(out, alt.terms.as_slice())
}

fn put_alts(out: &mut Vec<u8>, alts: &[CoreAlt]) -> Result<(), AllocError>
    ensures text { OnOk result (out.new.items ≡ out.old.items ++ list_text alt_text alts.now) }
    ensures fits { IfOk result (λ _. AreCounted AltFits alts.now) }
{
    put_count(out, alts.len())?;
    for alt in alts {
        put_alt(out, alt)?;
    }
    Ok(())
}

fn put_rule(out: &mut Vec<u8>, rule: &CoreRule) -> Result<(), AllocError>
    ensures text { OnOk result (out.new.items ≡ out.old.items ++ rule_text rule.now) }
    ensures fits { IfOk result (λ _. RuleFits rule.now) }
{
    put_text(out, rule.name.as_slice())?;
    put_holder(out, rule.holder)?;
    put_alts(out, rule.alts.as_slice())
}

fn put_rules(out: &mut Vec<u8>, rules: &[CoreRule]) -> Result<(), AllocError>
    ensures text { OnOk result (out.new.items ≡ out.old.items ++ list_text rule_text rules.now) }
    ensures fits { IfOk result (λ _. AreCounted RuleFits rules.now) }
{
    put_count(out, rules.len())?;
    for rule in rules {
        put_rule(out, rule)?;
    }
    Ok(())
}

fn put_names(out: &mut Vec<u8>, names: &[Name]) -> Result<(), AllocError>
    ensures text { OnOk result (out.new.items ≡ out.old.items ++ list_text counted_text names.now) }
    ensures fits { IfOk result (λ _. AreCounted IsText names.now) }
{
    put_count(out, names.len())?;
    for name in names {
        put_text(out, name.as_slice())?;
    }
    Ok(())
}

/// The body of a grammar, of which the orders of terms aren't written.
pub fn write(alloc: Global, core: &Core) -> Result<Vec<u8>, AllocError>
    requires { AllByRecursion NestsRule core.now.rules }
    ensures is { IfOk result (λ bytes. bytes.items ≡ body_text core.now.names core.now.rules) }
    ensures reads_back { IfOk result (λ bytes. IsBody (bare core.now) bytes.items) }
{
    let mut out = Vec::new(alloc);
    put_names(&mut out, core.names())?;
    put_rules(&mut out, core.rules())?;
    Ok(out)
}
