//! The grammar that rows make.

ghost use Rattle.std.specs.Prelude.{◌≡◌, [], ◌∷◌, OnOk, IfOk};
ghost use Rattle.ipg_read_syntax.specs.Grammars.{infix_expr};
ghost use Rattle.ipg_read_scan.specs.Lexemes.{ident_of, infix_of};
ghost use Rattle.ipg_read_scan.specs.Rowed.{row_of, rows_of, member_of};
ghost use Rattle.ipg_read.specs.Counted.{below};
ghost use Rattle.ipg_read.specs.Built as B;
ghost use Rattle.ipg_read.specs.Built.{parts_of};

use ipg_ast::{Alt, Case, Expr, Field, Ident, Name, Place, Rule, Slot, Span, Term, What};
use ipg_num::{Held, List};
use ipg_read_scan::{Extent, Infix, Label, Member, ParseStack, Role, Row, Site};
use std::alloc::{AllocError, Global};
use std::mem::replace;

/// Forms that are still parts to be, and the lists that are being made; `outer` are the terms before a `where`.
#[derive(Drop)]
pub struct Build {
    pub alloc: Global,
    pub exprs: ParseStack<Expr>,
    pub names: ParseStack<Ident>,
    pub slots: ParseStack<Slot>,
    pub cases: List<Case>,
    pub terms: List<Term>,
    pub outer: List<Term>,
    pub local_alts: List<Alt>,
    pub locals: List<Rule>,
    pub alts: List<Alt>,
    pub rules: List<Rule>,
}

pub fn built<'a>(alloc: Global, rows: &[Row<'a>]) -> Result<List<Rule>, AllocError>
    ensures { IfOk result (λ rules. rules ≡ (B.makes (rows_of rows.now) B.blank).rules) }
{
    let mut build = blank(alloc);
    for row in rows {
        make(&mut build, *row)?;
    }
    Ok(replace(&mut build.rules, List::new(alloc)))
}

fn blank(alloc: Global) -> Build
    ensures { parts_of result ≡ B.blank }
{
    Build {
        alloc,
        exprs: ParseStack::new(alloc),
        names: ParseStack::new(alloc),
        slots: ParseStack::new(alloc),
        cases: List::new(alloc),
        terms: List::new(alloc),
        outer: List::new(alloc),
        local_alts: List::new(alloc),
        locals: List::new(alloc),
        alts: List::new(alloc),
        rules: List::new(alloc),
    }
}

fn make<'a>(build: &mut Build, row: Row<'a>) -> Result<(), AllocError>
    ensures { OnOk result (parts_of build.new ≡ B.make (row_of row.entry) (parts_of build.old)) }
{
    match row {
        Row::Rule(_) | Row::First(_, _) | Row::Term(_) | Row::Whole(_) => Ok(()),
        Row::Name(label) => put_name(build, label),
        Row::Text(label) => put_text(build, label),
        Row::Call(label) => put_call(build, label),
        Row::Placed(extent, role) => placed(build, extent, role),
        Row::Set => set_term(build),
        Row::Test(at) => test_term(build, at),
        Row::Repeat => repeat_term(build),
        Row::Pick(at) => pick_term(build, at),
        Row::NextAlt(site) => alt_ends(build, site),
        Row::EndRule(site) => end_rule(build, site),
        Row::Locals => Ok(locals_begin(build)),
        Row::EndLocals => locals_end(build),
        Row::Close => rule_ends(build, Site::Global),
        Row::Num(n) => build.exprs.push(Expr::Num(n)),
        Row::Eoi => build.exprs.push(Expr::Eoi),
        Row::Id => own(build),
        Row::Part(member) => part(build, member),
        Row::Item(member) => item(build, member),
        Row::Group => group(build),
        Row::Neg => neg(build),
        Row::Not => not(build),
        Row::Two(sign) => two(build, sign),
        Row::Cond => cond(build),
    }
}

// expressions

/// The last expression, or `EOI` where there is none.
fn top(exprs: &mut ParseStack<Expr>) -> Expr
    ensures taken { result ≡ B.top exprs.old }
    ensures left { exprs.new ≡ below exprs.old }
{
    match exprs.pop() {
        Some(e) => e,
        None => Expr::Eoi,
    }
}

fn held(build: &mut Build) -> Result<Held<Expr>, AllocError>
    ensures taken { IfOk result (λ held. held ≡ B.top build.old.exprs) }
    ensures left { OnOk result (parts_of build.new ≡ B.put_exprs (below build.old.exprs) (parts_of build.old)) }
{
    Held::new(build.alloc, top(&mut build.exprs))
}

fn put(build: &mut Build, e: Expr) -> Result<(), AllocError>
    ensures { OnOk result (parts_of build.new ≡ B.put_expr e (parts_of build.old)) }
{
    build.exprs.push(e)
}

fn group(build: &mut Build) -> Result<(), AllocError>
    ensures { OnOk result (parts_of build.new ≡ B.one Expr.Group (parts_of build.old)) }
{
    let e = held(build)?;
    put(build, Expr::Group(e))
}

fn neg(build: &mut Build) -> Result<(), AllocError>
    ensures { OnOk result (parts_of build.new ≡ B.one Expr.Neg (parts_of build.old)) }
{
    let e = held(build)?;
    put(build, Expr::Neg(e))
}

fn not(build: &mut Build) -> Result<(), AllocError>
    ensures { OnOk result (parts_of build.new ≡ B.one Expr.Not (parts_of build.old)) }
{
    let e = held(build)?;
    put(build, Expr::Not(e))
}

fn two(build: &mut Build, sign: Infix) -> Result<(), AllocError>
    ensures { OnOk result (parts_of build.new ≡ B.two (infix_expr (infix_of sign)) (parts_of build.old)) }
{
    let b = held(build)?;
    let a = held(build)?;
    put(build, infix(sign, a, b))
}

fn infix(sign: Infix, a: Held<Expr>, b: Held<Expr>) -> Expr
    ensures { result ≡ infix_expr (infix_of sign) a b }
{
    match sign {
        Infix::Either => Expr::Either(a, b),
        Infix::Both => Expr::Both(a, b),
        Infix::Op(op) => Expr::Two(op, a, b),
    }
}

fn cond(build: &mut Build) -> Result<(), AllocError>
    ensures { OnOk result (parts_of build.new ≡ B.three Expr.Cond (parts_of build.old)) }
{
    let no = held(build)?;
    let yes = held(build)?;
    let test = held(build)?;
    put(build, Expr::Cond(test, yes, no))
}

fn own(build: &mut Build) -> Result<(), AllocError>
    ensures { OnOk result (parts_of build.new ≡ B.named Expr.Id build.old.names (parts_of build.old)) }
{
    match build.names.pop() {
        Some(name) => put(build, Expr::Id(name)),
        None => Ok(()),
    }
}

fn part<'a>(build: &mut Build, member: Member<'a>) -> Result<(), AllocError>
    ensures { OnOk result (parts_of build.new ≡ B.named (λ i. Expr.Part i (member_of member.entry)) build.old.names (parts_of build.old)) }
{
    let field = field(build.alloc, member)?;
    match build.names.pop() {
        Some(name) => put(build, Expr::Part(name, field)),
        None => {
            drop(field);
            Ok(())
        }
    }
}

fn item<'a>(build: &mut Build, member: Member<'a>) -> Result<(), AllocError>
    ensures { OnOk result (parts_of build.new ≡ B.indexed (member_of member.entry) build.old.names (parts_of build.old)) }
{
    let field = field(build.alloc, member)?;
    match build.names.pop() {
        Some(name) => {
            let index = held(build)?;
            put(build, Expr::Item(name, index, field))
        }
        None => {
            drop(field);
            Ok(())
        }
    }
}

fn field<'a>(alloc: Global, member: Member<'a>) -> Result<Field, AllocError>
    ensures { IfOk result (λ field. field ≡ member_of member.entry) }
{
    match member {
        Member::Named(label) => Ok(Field::Id(ident(alloc, label)?)),
        Member::Start => Ok(Field::Start),
        Member::End => Ok(Field::End),
    }
}

// names and slots

fn copied(alloc: Global, name: &Name) -> Result<Name, AllocError>
    ensures { IfOk result (λ copy. copy ≡ name.now) }
{
    Ok(List::from_vec(Vec::from_slice(alloc, name.as_slice())?))
}

fn ident<'a>(alloc: Global, label: Label<'a>) -> Result<Ident, AllocError>
    ensures { IfOk result (λ ident. ident ≡ ident_of label.entry) }
{
    Ok(Ident {
        name: copied(alloc, label.name)?,
        span: label.span,
    })
}

fn put_name<'a>(build: &mut Build, label: Label<'a>) -> Result<(), AllocError>
    ensures { OnOk result (parts_of build.new ≡ B.put_names (ident_of label.entry ∷ build.old.names) (parts_of build.old)) }
{
    let name = ident(build.alloc, label)?;
    build.names.push(name)
}

fn put_slot(build: &mut Build, what: What, span: Span) -> Result<(), AllocError>
    ensures { OnOk result (parts_of build.new ≡ B.put_slots (B.slot what span ∷ build.old.slots) (parts_of build.old)) }
{
    let place = Place::Open;
    build.slots.push(Slot { what, span, place })
}

fn put_text<'a>(build: &mut Build, label: Label<'a>) -> Result<(), AllocError>
    ensures { OnOk result (parts_of build.new ≡ B.put_slots (B.slot (What.Text label.entry.name.now) label.entry.span ∷ build.old.slots) (parts_of build.old)) }
{
    let bytes = copied(build.alloc, label.name)?;
    put_slot(build, What::Text(bytes), label.span)
}

fn put_call<'a>(build: &mut Build, label: Label<'a>) -> Result<(), AllocError>
    ensures { OnOk result (parts_of build.new ≡ B.put_slots (B.slot (What.Call label.entry.name.now) label.entry.span ∷ build.old.slots) (parts_of build.old)) }
{
    let name = copied(build.alloc, label.name)?;
    put_slot(build, What::Call(name), label.span)
}

fn placed(build: &mut Build, extent: Extent, role: Role) -> Result<(), AllocError>
    ensures { OnOk result
        (parts_of build.new ≡ B.filled role (B.place_of extent build.old.exprs) (B.put_exprs (B.left_by extent build.old.exprs) (parts_of build.old))) }
{
    let place = place(&mut build.exprs, extent);
    match role {
        Role::Term => slot_term(build, place),
        Role::Many(at) => many_term(build, at, place),
        Role::Case => slot_case(build, place),
        Role::Other => slot_other(build, place),
    }
}

fn place(exprs: &mut ParseStack<Expr>, extent: Extent) -> Place
    ensures taken { result ≡ B.place_of extent exprs.old }
    ensures left { exprs.new ≡ B.left_by extent exprs.old }
{
    match extent {
        Extent::Open => Place::Open,
        Extent::Length => Place::Length(top(exprs)),
        Extent::Ends => {
            let right = top(exprs);
            Place::Ends(top(exprs), right)
        }
    }
}

fn with_place(slot: Slot, place: Place) -> Slot
    ensures { result ≡ B.placed slot place }
{
    let Slot {
        what,
        span,
        place: open,
    } = slot;
    drop(open);
    Slot { what, span, place }
}

// terms

fn put_term(build: &mut Build, term: Term) -> Result<(), AllocError>
    ensures { OnOk result (parts_of build.new ≡ B.put_term term (parts_of build.old)) }
{
    build.terms.push(term)
}

fn slot_term(build: &mut Build, place: Place) -> Result<(), AllocError>
    ensures { OnOk result (parts_of build.new ≡ B.slot_term place build.old.slots (parts_of build.old)) }
{
    match build.slots.pop() {
        Some(slot) => put_term(build, Term::Slot(with_place(slot, place))),
        None => {
            drop(place);
            Ok(())
        }
    }
}

fn many_term(build: &mut Build, at: Span, place: Place) -> Result<(), AllocError>
    ensures { OnOk result (parts_of build.new ≡ B.many_term at place build.old.names (parts_of build.old)) }
{
    match build.names.pop() {
        Some(item) => put_term(build, Term::Many { at, item, place }),
        None => {
            drop(place);
            Ok(())
        }
    }
}

fn slot_case(build: &mut Build, place: Place) -> Result<(), AllocError>
    ensures { OnOk result (parts_of build.new ≡ B.slot_case place build.old.slots (parts_of build.old)) }
{
    match build.slots.pop() {
        Some(slot) => {
            let cond = top(&mut build.exprs);
            let slot = with_place(slot, place);
            build.cases.push(Case { cond, slot })
        }
        None => {
            drop(place);
            Ok(())
        }
    }
}

fn slot_other(build: &mut Build, place: Place) -> Result<(), AllocError>
    ensures { OnOk result (parts_of build.new ≡ B.slot_other place build.old.slots (parts_of build.old)) }
{
    match build.slots.pop() {
        Some(slot) => build.slots.push(with_place(slot, place)),
        None => {
            drop(place);
            Ok(())
        }
    }
}

fn set_term(build: &mut Build) -> Result<(), AllocError>
    ensures { OnOk result (parts_of build.new ≡ B.set_term build.old.names (parts_of build.old)) }
{
    match build.names.pop() {
        Some(name) => {
            let value = top(&mut build.exprs);
            put_term(build, Term::Set { name, value })
        }
        None => Ok(()),
    }
}

fn test_term(build: &mut Build, at: Span) -> Result<(), AllocError>
    ensures { OnOk result (parts_of build.new ≡ B.put_term (Term.Test at (B.top build.old.exprs)) (B.put_exprs (below build.old.exprs) (parts_of build.old))) }
{
    let cond = top(&mut build.exprs);
    put_term(build, Term::Test { at, cond })
}

fn repeat_term(build: &mut Build) -> Result<(), AllocError>
    ensures { OnOk result (parts_of build.new ≡ B.repeat_term build.old.names (parts_of build.old)) }
{
    match build.names.pop() {
        Some(item) => match build.names.pop() {
            Some(var) => repeated(build, var, item),
            None => build.names.push(item),
        },
        None => Ok(()),
    }
}

fn repeated(build: &mut Build, var: Ident, item: Ident) -> Result<(), AllocError>
    ensures { OnOk result (parts_of build.new ≡ B.repeated var item build.old.names (parts_of build.old)) }
{
    let to = top(&mut build.exprs);
    let from = top(&mut build.exprs);
    let last = top(&mut build.exprs);
    let first = top(&mut build.exprs);
    put_term(
        build,
        Term::Repeat {
            var,
            first,
            last,
            item,
            from,
            to,
        },
    )
}

fn pick_term(build: &mut Build, at: Span) -> Result<(), AllocError>
    ensures { OnOk result (parts_of build.new ≡ B.pick_term at build.old.slots (parts_of build.old)) }
{
    match build.slots.pop() {
        Some(other) => {
            let cases = replace(&mut build.cases, List::new(build.alloc));
            put_term(build, Term::Pick { at, cases, other })
        }
        None => Ok(()),
    }
}

// alternatives and rules

fn alt_ends(build: &mut Build, site: Site) -> Result<(), AllocError>
    ensures { OnOk result (parts_of build.new ≡ B.alt_ends site (parts_of build.old)) }
{
    let terms = replace(&mut build.terms, List::new(build.alloc));
    let locals = List::new(build.alloc);
    match site {
        Site::Global => build.alts.push(Alt { terms, locals }),
        Site::Local => build.local_alts.push(Alt { terms, locals }),
    }
}

fn end_rule(build: &mut Build, site: Site) -> Result<(), AllocError>
    ensures { OnOk result (parts_of build.new ≡ B.end_rule site (parts_of build.old)) }
{
    alt_ends(build, site)?;
    rule_ends(build, site)
}

fn rule_ends(build: &mut Build, site: Site) -> Result<(), AllocError>
    ensures { OnOk result (parts_of build.new ≡ B.rule_ends site build.old.names (parts_of build.old)) }
{
    match build.names.pop() {
        Some(name) => put_rule(build, site, name),
        None => Ok(()),
    }
}

fn put_rule(build: &mut Build, site: Site, name: Ident) -> Result<(), AllocError>
    ensures { OnOk result (parts_of build.new ≡ B.put_rule site name (parts_of build.old)) }
{
    match site {
        Site::Global => {
            let alts = replace(&mut build.alts, List::new(build.alloc));
            build.rules.push(Rule { name, alts })
        }
        Site::Local => {
            let alts = replace(&mut build.local_alts, List::new(build.alloc));
            build.locals.push(Rule { name, alts })
        }
    }
}

fn locals_begin(build: &mut Build)
    ensures { parts_of build.new ≡ B.locals_begin (parts_of build.old) }
{
    build.outer = replace(&mut build.terms, List::new(build.alloc));
}

fn locals_end(build: &mut Build) -> Result<(), AllocError>
    ensures { OnOk result (parts_of build.new ≡ B.locals_end (parts_of build.old)) }
{
    let terms = replace(&mut build.outer, List::new(build.alloc));
    let locals = replace(&mut build.locals, List::new(build.alloc));
    build.alts.push(Alt { terms, locals })
}
