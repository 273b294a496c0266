ghost use Rattle.std.specs.Prelude.{◌≡◌, ◌∷◌, ◌++◌, [], IfOk, OnOk};
ghost use Rattle.ipg_ast.specs.Spelling.{field_tokens, part_tokens, sign_of, expr_tokens, place_tokens, what_token, slot_tokens, case_tokens};
ghost use Rattle.ipg_ast.specs.Spelling.{cases_tokens, set_tokens, test_tokens, pick_tokens, term_tokens, terms_tokens, local_alts_tokens};
ghost use Rattle.ipg_ast.specs.Spelling.{local_tokens, locals_tokens, where_tokens, alt_tokens, alts_tokens, rule_tokens, grammar_tokens};
ghost use Rattle.ipg_ast.specs.Canonical.{tokens_text};
ghost use Rattle.ipg_ast.specs.Shape.{IsFlat};

use crate::put::{put, put_end, put_number, put_string};
use crate::{Alt, Case, Expr, Field, Grammar, Ident, Place, Rule, Slot, Term, What};
use ipg_num::Op2;
use std::alloc::{AllocError, Global};

/// The canonical text of a grammar, in which no local rule has local rules of its own: the language has no text for those.
/// It goes as deep as the grammar's expressions, as dropping them does.
pub fn text_of(alloc: Global, g: &Grammar) -> Result<Vec<u8>, AllocError>
    requires { IsFlat g.now }
    ensures { IfOk result (λ text. text.items ≡ tokens_text (grammar_tokens g.now)) }
{
    let mut out = Vec::new(alloc);
    for rule in g.rules.as_slice() {
        put_rule(rule, &mut out)?;
    }
    Ok(out)
}

fn put_rule(rule: &Rule, out: &mut Vec<u8>) -> Result<(), AllocError>
    ensures { OnOk result (out.new.items ≡ out.old.items ++ tokens_text (rule_tokens rule.now)) }
{
    put(rule.name.name.as_slice(), out)?;
    put_alts(rule.alts.as_slice(), out)?;
    put_end(out)
}

fn put_alts(alts: &[Alt], out: &mut Vec<u8>) -> Result<(), AllocError>
    ensures { OnOk result (out.new.items ≡ out.old.items ++ tokens_text (alts_tokens alts.now)) }
{
    let mut mark: &[u8] = b"->";
    for alt in alts {
        put(mark, out)?;
        put_alt(alt, out)?;
        mark = b"/";
    }
    Ok(())
}

fn put_alt(alt: &Alt, out: &mut Vec<u8>) -> Result<(), AllocError>
    ensures { OnOk result (out.new.items ≡ out.old.items ++ tokens_text (alt_tokens alt.now)) }
{
    put_terms(alt.terms.as_slice(), out)?;
    put_where(alt.locals.as_slice(), out)
}

fn put_where(locals: &[Rule], out: &mut Vec<u8>) -> Result<(), AllocError>
    ensures { OnOk result (out.new.items ≡ out.old.items ++ tokens_text (where_tokens locals.now)) }
{
    if locals.is_empty() {
        return Ok(());
    }
    put(b"where", out)?;
    put(b"{", out)?;
    put_locals(locals, out)?;
    put(b"}", out)
}

fn put_locals(locals: &[Rule], out: &mut Vec<u8>) -> Result<(), AllocError>
    ensures { OnOk result (out.new.items ≡ out.old.items ++ tokens_text (locals_tokens locals.now)) }
{
    for rule in locals {
        put_local(rule, out)?;
    }
    Ok(())
}

fn put_local(rule: &Rule, out: &mut Vec<u8>) -> Result<(), AllocError>
    ensures { OnOk result (out.new.items ≡ out.old.items ++ tokens_text (local_tokens rule.now)) }
{
    put(rule.name.name.as_slice(), out)?;
    put_local_alts(rule.alts.as_slice(), out)?;
    put_end(out)
}

fn put_local_alts(alts: &[Alt], out: &mut Vec<u8>) -> Result<(), AllocError>
    ensures { OnOk result (out.new.items ≡ out.old.items ++ tokens_text (local_alts_tokens alts.now)) }
{
    let mut mark: &[u8] = b"->";
    for alt in alts {
        put(mark, out)?;
        put_terms(alt.terms.as_slice(), out)?;
        mark = b"/";
    }
    Ok(())
}

fn put_terms(terms: &[Term], out: &mut Vec<u8>) -> Result<(), AllocError>
    ensures { OnOk result (out.new.items ≡ out.old.items ++ tokens_text (terms_tokens terms.now)) }
{
    for term in terms {
        put_term(term, out)?;
    }
    Ok(())
}

fn put_term(term: &Term, out: &mut Vec<u8>) -> Result<(), AllocError>
    ensures { OnOk result (out.new.items ≡ out.old.items ++ tokens_text (term_tokens term.now)) }
{
    match term {
        Term::Slot(slot) => put_slot(slot, out),
        Term::Set { name, value } => put_set(name, value, out),
        Term::Test { at: _, cond } => put_test(cond, out),
        Term::Repeat {
            var,
            first,
            last,
            item,
            from,
            to,
        } => {
            put(b"for", out)?;
            put(var.name.as_slice(), out)?;
            put(b"=", out)?;
            put_expr(first, out)?;
            put(b"to", out)?;
            put_expr(last, out)?;
            put(b"do", out)?;
            put(item.name.as_slice(), out)?;
            put_ends(from, to, out)
        }
        Term::Many { at: _, item, place } => {
            put(b"many", out)?;
            put(item.name.as_slice(), out)?;
            put_place(place, out)
        }
        Term::Pick {
            at: _,
            cases,
            other,
        } => put_pick(cases.as_slice(), other, out),
    }
}

fn put_set(name: &Ident, value: &Expr, out: &mut Vec<u8>) -> Result<(), AllocError>
    ensures { OnOk result (out.new.items ≡ out.old.items ++ tokens_text (set_tokens name.now value.now)) }
{
    put(b"{", out)?;
    put(name.name.as_slice(), out)?;
    put(b"=", out)?;
    put_expr(value, out)?;
    put(b"}", out)
}

fn put_test(cond: &Expr, out: &mut Vec<u8>) -> Result<(), AllocError>
    ensures { OnOk result (out.new.items ≡ out.old.items ++ tokens_text (test_tokens cond.now)) }
{
    put(b"?", out)?;
    put(b"(", out)?;
    put_expr(cond, out)?;
    put(b")", out)
}

fn put_pick(cases: &[Case], other: &Slot, out: &mut Vec<u8>) -> Result<(), AllocError>
    ensures { OnOk result (out.new.items ≡ out.old.items ++ tokens_text (pick_tokens cases.now other.now)) }
{
    put(b"switch", out)?;
    put(b"{", out)?;
    put_cases(cases, out)?;
    put(b"else", out)?;
    put_slot(other, out)?;
    put(b"}", out)
}

fn put_cases(cases: &[Case], out: &mut Vec<u8>) -> Result<(), AllocError>
    ensures { OnOk result (out.new.items ≡ out.old.items ++ tokens_text (cases_tokens cases.now)) }
{
    for case in cases {
        put_case(case, out)?;
    }
    Ok(())
}

fn put_case(case: &Case, out: &mut Vec<u8>) -> Result<(), AllocError>
    ensures { OnOk result (out.new.items ≡ out.old.items ++ tokens_text (case_tokens case.now)) }
{
    put(b"case", out)?;
    put(b"(", out)?;
    put_expr(&case.cond, out)?;
    put(b")", out)?;
    put_slot(&case.slot, out)
}

fn put_slot(slot: &Slot, out: &mut Vec<u8>) -> Result<(), AllocError>
    ensures { OnOk result (out.new.items ≡ out.old.items ++ tokens_text (slot_tokens slot.now)) }
{
    put_what(&slot.what, out)?;
    put_place(&slot.place, out)
}

fn put_what(what: &What, out: &mut Vec<u8>) -> Result<(), AllocError>
    ensures { OnOk result (out.new.items ≡ out.old.items ++ tokens_text (what_token what.now ∷ [])) }
{
    match what {
        What::Text(bytes) => put_string(bytes.as_slice(), out),
        What::Call(name) => put(name.as_slice(), out),
    }
}

fn put_place(place: &Place, out: &mut Vec<u8>) -> Result<(), AllocError>
    ensures { OnOk result (out.new.items ≡ out.old.items ++ tokens_text (place_tokens place.now)) }
{
    match place {
        Place::Open => Ok(()),
        Place::Length(length) => {
            put(b"[", out)?;
            put_expr(length, out)?;
            put(b"]", out)
        }
        Place::Ends(left, right) => put_ends(left, right, out),
    }
}

fn put_ends(left: &Expr, right: &Expr, out: &mut Vec<u8>) -> Result<(), AllocError>
    ensures { OnOk result (out.new.items ≡ out.old.items ++ tokens_text (place_tokens (Place.Ends left.now right.now))) }
{
    put(b"[", out)?;
    put_expr(left, out)?;
    put(b",", out)?;
    put_expr(right, out)?;
    put(b"]", out)
}

#[cycle(putting)]
fn put_expr(e: &Expr, out: &mut Vec<u8>) -> Result<(), AllocError>
    ensures { OnOk result (out.new.items ≡ out.old.items ++ tokens_text (expr_tokens e.now)) }
{
    match e {
        Expr::Num(n) => put_number(*n, out),
        Expr::Eoi => put(b"EOI", out),
        Expr::Id(name) => put(name.name.as_slice(), out),
        Expr::Part(of, field) => put_part(of, field, out),
        Expr::Item(of, index, field) => {
            put(of.name.as_slice(), out)?;
            put(b"(", out)?;
            put_expr(index.get(), out)?;
            put(b")", out)?;
            put(b".", out)?;
            put_field(field, out)
        }
        Expr::Group(inner) => {
            put(b"(", out)?;
            put_expr(inner.get(), out)?;
            put(b")", out)
        }
        Expr::Neg(inner) => {
            put(b"-", out)?;
            put_expr(inner.get(), out)
        }
        Expr::Not(inner) => {
            put(b"!", out)?;
            put_expr(inner.get(), out)
        }
        Expr::Two(op, a, b) => put_infix(a.get(), sign(*op), b.get(), out),
        Expr::Both(a, b) => put_infix(a.get(), b"&&", b.get(), out),
        Expr::Either(a, b) => put_infix(a.get(), b"||", b.get(), out),
        Expr::Cond(cond, a, b) => {
            put_expr(cond.get(), out)?;
            put(b"?", out)?;
            put_expr(a.get(), out)?;
            put(b":", out)?;
            put_expr(b.get(), out)
        }
    }
}

#[cycle(putting)]
fn put_infix(a: &Expr, sign: &[u8], b: &Expr, out: &mut Vec<u8>) -> Result<(), AllocError>
    ensures { OnOk result (out.new.items ≡ out.old.items ++ ((tokens_text (expr_tokens a.now) ++ (sign.now ++ (32 ∷ []))) ++ tokens_text (expr_tokens b.now))) }
{
    put_expr(a, out)?;
    put(sign, out)?;
    put_expr(b, out)
}

fn put_part(of: &Ident, field: &Field, out: &mut Vec<u8>) -> Result<(), AllocError>
    ensures { OnOk result (out.new.items ≡ out.old.items ++ tokens_text (part_tokens of.now field.now)) }
{
    put(of.name.as_slice(), out)?;
    put(b".", out)?;
    put_field(field, out)
}

fn put_field(field: &Field, out: &mut Vec<u8>) -> Result<(), AllocError>
    ensures { OnOk result (out.new.items ≡ out.old.items ++ tokens_text (field_tokens field.now)) }
{
    match field {
        Field::Id(name) => put(name.name.as_slice(), out),
        Field::Start => put(b"start", out),
        Field::End => put(b"end", out),
    }
}

fn sign(op: Op2) -> &'static [u8]
    ensures { result.now ≡ sign_of op }
{
    match op {
        Op2::Add => b"+",
        Op2::Sub => b"-",
        Op2::Mul => b"*",
        Op2::Div => b"/",
        Op2::Mod => b"%",
        Op2::Shl => b"<<",
        Op2::Shr => b">>",
        Op2::BitAnd => b"&",
        Op2::BitOr => b"|",
        Op2::BitXor => b"^",
        Op2::Eq => b"==",
        Op2::Ne => b"!=",
        Op2::Lt => b"<",
        Op2::Le => b"<=",
        Op2::Gt => b">",
        Op2::Ge => b">=",
    }
}
