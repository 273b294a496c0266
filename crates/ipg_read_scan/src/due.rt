ghost use Rattle.std.specs.Prelude.{◌≡◌, ◌+◌, ◌<◌, ◌^◌, [], ◌∷◌, ◌++◌, option_map};
ghost use Rattle.ipg_read_syntax.specs.Machine.{field_of};
ghost use Rattle.ipg_read_scan.specs.Lexemes.{tok_of, infix_of};
ghost use Rattle.ipg_read_scan.specs.Rowed.{row_of, member_of};
ghost use Rattle.ipg_read_scan.specs.Asked as A;
ghost use Rattle.ipg_read_scan.specs.Answered.{Does, rows_in, row_in, next_of, symbols_of, opening_of};

use crate::lexeme::{Infix, Lexeme, level_of};
use crate::progress::{Answer, Progress, made, onward, passed, taken};
use crate::row::{Extent, Member, Role, Row, Site};
use ipg_ast::Span;
use ipg_num::Op2;
use std::alloc::AllocError;

/// What is due: a symbol of the grammar of grammars, a fixed token, or a row that is made when its parts have ended.
#[derive(Clone, Copy)]
pub enum Due {
    /// Another rule, or the end.
    Rules,
    /// A rule.
    Rule(Site),
    Naming,
    Arrow(Site),
    /// The first term of an alternative.
    First(Site),
    /// Another term, or the end of the alternative.
    Tail(Site),
    WhereOpen,
    /// Another local rule, or the end of them.
    Locals,
    /// The end of an alternative with local rules.
    After,
    Slot(Role),
    Place(Role),
    /// The `]` of a length, or the `,` of two ends.
    Length(Role),
    Right(Role),
    SetEquals,
    SetEnd,
    TestOpen(Span),
    TestEnd(Span),
    ForEquals,
    ForTo,
    ForDo,
    ForOpen,
    ForComma,
    ForEnd,
    PickOpen(Span),
    FirstCase(Span),
    Cases(Span),
    CaseOpen,
    CaseEnd,
    PickEnd(Span),
    Operand,
    /// What may follow an operand: operators of this level or a tighter one.
    Rest(u8),
    AfterName,
    PartField,
    IndexEnd,
    IndexDot,
    ItemField,
    GroupEnd,
    CondColon,
    Neg,
    Not,
    Two(Infix),
    Cond,
    /// A whole expression ends, which began at the token.
    Whole(usize),
}

/// Rows in order.
#[derive(Clone, Copy)]
pub enum Rows<'a> {
    Zero,
    One(Row<'a>),
    Two(Row<'a>, Row<'a>),
}

/// What is due next, the first first.
#[derive(Clone, Copy)]
pub enum Next {
    Zero,
    One(Due),
    Two(Due, Due),
    Three(Due, Due, Due),
    Four(Due, Due, Due, Due),
}

/// One symbol, or two.
#[derive(Clone, Copy)]
pub enum Symbols {
    One(Due),
    Two(Due, Due),
}

/// The row of a term's first token, and what is due after it.
#[derive(Clone, Copy)]
pub struct Begin<'a> {
    pub row: Option<Row<'a>>,
    pub due: Symbols,
}

/// What is due goes on with the token, the one of number `at`: it ends before it, takes it, or no grammar goes on so. The
/// rows that it makes and what is due next are put where they belong.
pub fn ask<'a>(
    to: &mut Progress<'a>,
    at: usize,
    due: Due,
    token: Lexeme<'a>,
) -> Result<Answer, AllocError>
    requires { at + 1 < 2 ^ 64 }
    ensures { Does (A.ask at due (tok_of token.entry)) to.old to.new result }
{
    match due {
        Due::Rules => rules(to, at, token),
        Due::Rule(site) => rule(to, at, site, token),
        Due::Naming => naming(to, token),
        Due::Arrow(site) => arrow(to, site, token),
        Due::First(site) => first(to, at, site, token),
        Due::Tail(site) => tail(to, at, site, token),
        Due::WhereOpen => where_open(to, token),
        Due::Locals => locals(to, at, token),
        Due::After => after(to, token),
        Due::Slot(role) => slot(to, role, token),
        Due::Place(role) => place(to, at, role, token),
        Due::Length(role) => length(to, at, role, token),
        Due::Right(role) => right(to, role, token),
        Due::SetEquals => equals(to, at, Due::SetEnd, token),
        Due::SetEnd => set_end(to, token),
        Due::TestOpen(span) => left_paren(to, at, Due::TestEnd(span), token),
        Due::TestEnd(span) => test_end(to, span, token),
        Due::ForEquals => equals(to, at, Due::ForTo, token),
        Due::ForTo => for_to(to, at, token),
        Due::ForDo => for_do(to, token),
        Due::ForOpen => for_open(to, at, token),
        Due::ForComma => for_comma(to, at, token),
        Due::ForEnd => for_end(to, token),
        Due::PickOpen(span) => pick_open(to, span, token),
        Due::FirstCase(span) => first_case(to, span, token),
        Due::Cases(span) => cases(to, span, token),
        Due::CaseOpen => left_paren(to, at, Due::CaseEnd, token),
        Due::CaseEnd => case_end(to, token),
        Due::PickEnd(span) => pick_end(to, span, token),
        Due::Operand => operand(to, token),
        Due::Rest(level) => rest(to, level, token),
        Due::AfterName => after_name(to, token),
        Due::PartField => part_field(to, token),
        Due::IndexEnd => index_end(to, token),
        Due::IndexDot => index_dot(to, token),
        Due::ItemField => item_field(to, token),
        Due::GroupEnd => group_end(to, token),
        Due::CondColon => cond_colon(to, token),
        Due::Neg => passed(to, Rows::One(Row::Neg)),
        Due::Not => passed(to, Rows::One(Row::Not)),
        Due::Two(sign) => passed(to, Rows::One(Row::Two(sign))),
        Due::Cond => passed(to, Rows::One(Row::Cond)),
        Due::Whole(from) => passed(to, Rows::One(Row::Whole(from))),
    }
}

/// An expression is due after the token `at`, and then what is given.
fn expr<'a>(to: &mut Progress<'a>, at: usize, then: Due) -> Result<Answer, AllocError>
    requires { at + 1 < 2 ^ 64 }
    ensures { Does (A.expr at then) to.old to.new result }
{
    onward(
        to,
        Next::Four(Due::Operand, Due::Rest(0), Due::Whole(at + 1), then),
    )
}

// rules

fn rules<'a>(to: &mut Progress<'a>, at: usize, token: Lexeme<'a>) -> Result<Answer, AllocError>
    ensures { Does (A.rules at (tok_of token.entry)) to.old to.new result }
{
    match token {
        Lexeme::Name(name) => taken(
            to,
            Rows::Two(Row::Rule(at), Row::Name(name)),
            Next::Two(Due::Arrow(Site::Global), Due::Rules),
        ),
        _ => Ok(Answer::Stuck),
    }
}

fn rule<'a>(
    to: &mut Progress<'a>,
    at: usize,
    site: Site,
    token: Lexeme<'a>,
) -> Result<Answer, AllocError>
    ensures { Does (A.rule at site (tok_of token.entry)) to.old to.new result }
{
    match token {
        Lexeme::Name(name) => taken(
            to,
            Rows::Two(Row::Rule(at), Row::Name(name)),
            Next::One(Due::Arrow(site)),
        ),
        _ => Ok(Answer::Stuck),
    }
}

fn naming<'a>(to: &mut Progress<'a>, token: Lexeme<'a>) -> Result<Answer, AllocError>
    ensures { Does (A.naming (tok_of token.entry)) to.old to.new result }
{
    match token {
        Lexeme::Name(name) => made(to, Row::Name(name)),
        _ => Ok(Answer::Stuck),
    }
}

fn arrow<'a>(to: &mut Progress<'a>, site: Site, token: Lexeme<'a>) -> Result<Answer, AllocError>
    ensures { Does (A.arrow site (tok_of token.entry)) to.old to.new result }
{
    match token {
        Lexeme::Arrow => onward(to, Next::Two(Due::First(site), Due::Tail(site))),
        _ => Ok(Answer::Stuck),
    }
}

fn first<'a>(
    to: &mut Progress<'a>,
    at: usize,
    site: Site,
    token: Lexeme<'a>,
) -> Result<Answer, AllocError>
    ensures { Does (A.first at site (tok_of token.entry)) to.old to.new result }
{
    match opening(token) {
        Some(opening) => taken(
            to,
            begun(Row::First(site, at), opening.row),
            alone(opening.due),
        ),
        None => Ok(Answer::Stuck),
    }
}

fn tail<'a>(
    to: &mut Progress<'a>,
    at: usize,
    site: Site,
    token: Lexeme<'a>,
) -> Result<Answer, AllocError>
    ensures { Does (A.tail at site (tok_of token.entry)) to.old to.new result }
{
    match opening(token) {
        Some(opening) => taken(
            to,
            begun(Row::Term(at), opening.row),
            then(opening.due, Due::Tail(site)),
        ),
        None => closing(to, site, token),
    }
}

fn begun<'a>(event: Row<'a>, row: Option<Row<'a>>) -> Rows<'a>
    ensures { rows_in result ≡ row_of event.entry ∷ row_in row.entry }
{
    match row {
        Some(row) => Rows::Two(event, row),
        None => Rows::One(event),
    }
}

fn alone(symbols: Symbols) -> Next
    ensures { next_of result ≡ symbols_of symbols }
{
    match symbols {
        Symbols::One(a) => Next::One(a),
        Symbols::Two(a, b) => Next::Two(a, b),
    }
}

fn then(symbols: Symbols, last: Due) -> Next
    ensures { next_of result ≡ symbols_of symbols ++ (last ∷ []) }
{
    match symbols {
        Symbols::One(a) => Next::Two(a, last),
        Symbols::Two(a, b) => Next::Three(a, b, last),
    }
}

/// The token after a term that begins no other one.
fn closing<'a>(to: &mut Progress<'a>, site: Site, token: Lexeme<'a>) -> Result<Answer, AllocError>
    ensures { Does (A.closing site (tok_of token.entry)) to.old to.new result }
{
    match token {
        Lexeme::Sign(Infix::Op(Op2::Div)) => taken(
            to,
            Rows::One(Row::NextAlt(site)),
            Next::Two(Due::First(site), Due::Tail(site)),
        ),
        Lexeme::Semicolon => made(to, Row::EndRule(site)),
        Lexeme::Where => wherein(to, site),
        _ => Ok(Answer::Stuck),
    }
}

/// A local rule has no `where`.
fn wherein<'a>(to: &mut Progress<'a>, site: Site) -> Result<Answer, AllocError>
    ensures { Does (A.wherein site) to.old to.new result }
{
    match site {
        Site::Global => taken(
            to,
            Rows::One(Row::Locals),
            Next::Two(Due::WhereOpen, Due::After),
        ),
        Site::Local => Ok(Answer::Stuck),
    }
}

fn where_open<'a>(to: &mut Progress<'a>, token: Lexeme<'a>) -> Result<Answer, AllocError>
    ensures { Does (A.where_open (tok_of token.entry)) to.old to.new result }
{
    match token {
        Lexeme::LeftBrace => onward(to, Next::Two(Due::Rule(Site::Local), Due::Locals)),
        _ => Ok(Answer::Stuck),
    }
}

fn locals<'a>(to: &mut Progress<'a>, at: usize, token: Lexeme<'a>) -> Result<Answer, AllocError>
    ensures { Does (A.locals at (tok_of token.entry)) to.old to.new result }
{
    match token {
        Lexeme::Name(name) => taken(
            to,
            Rows::Two(Row::Rule(at), Row::Name(name)),
            Next::Two(Due::Arrow(Site::Local), Due::Locals),
        ),
        Lexeme::RightBrace => made(to, Row::EndLocals),
        _ => Ok(Answer::Stuck),
    }
}

fn after<'a>(to: &mut Progress<'a>, token: Lexeme<'a>) -> Result<Answer, AllocError>
    ensures { Does (A.after (tok_of token.entry)) to.old to.new result }
{
    match token {
        Lexeme::Sign(Infix::Op(Op2::Div)) => {
            onward(
                to,
                Next::Two(Due::First(Site::Global), Due::Tail(Site::Global)),
            )
        }
        Lexeme::Semicolon => made(to, Row::Close),
        _ => Ok(Answer::Stuck),
    }
}

// terms

fn opening<'a>(token: Lexeme<'a>) -> Option<Begin<'a>>
    ensures { option_map opening_of result ≡ A.opening (tok_of token.entry) }
{
    match token {
        Lexeme::Text(label) => led(Row::Text(label)),
        Lexeme::Name(label) => led(Row::Call(label)),
        Lexeme::LeftBrace => opened(Symbols::Two(Due::Naming, Due::SetEquals)),
        Lexeme::Question(span) => opened(Symbols::One(Due::TestOpen(span))),
        Lexeme::For => opened(Symbols::Two(Due::Naming, Due::ForEquals)),
        Lexeme::Many(span) => opened(Symbols::Two(Due::Naming, Due::Place(Role::Many(span)))),
        Lexeme::Switch(span) => opened(Symbols::One(Due::PickOpen(span))),
        _ => None,
    }
}

fn led<'a>(row: Row<'a>) -> Option<Begin<'a>>
    ensures { option_map opening_of result ≡ A.led (row_of row.entry) }
{
    Some(Begin {
        row: Some(row),
        due: Symbols::One(Due::Place(Role::Term)),
    })
}

fn opened<'a>(due: Symbols) -> Option<Begin<'a>>
    ensures { option_map opening_of result ≡ A.opened (symbols_of due) }
{
    Some(Begin { row: None, due })
}

fn slot<'a>(to: &mut Progress<'a>, role: Role, token: Lexeme<'a>) -> Result<Answer, AllocError>
    ensures { Does (A.slot role (tok_of token.entry)) to.old to.new result }
{
    match token {
        Lexeme::Text(label) => {
            taken(to, Rows::One(Row::Text(label)), Next::One(Due::Place(role)))
        }
        Lexeme::Name(label) => {
            taken(to, Rows::One(Row::Call(label)), Next::One(Due::Place(role)))
        }
        _ => Ok(Answer::Stuck),
    }
}

fn place<'a>(
    to: &mut Progress<'a>,
    at: usize,
    role: Role,
    token: Lexeme<'a>,
) -> Result<Answer, AllocError>
    requires { at + 1 < 2 ^ 64 }
    ensures { Does (A.place at role (tok_of token.entry)) to.old to.new result }
{
    match token {
        Lexeme::LeftBracket => expr(to, at, Due::Length(role)),
        _ => passed(to, Rows::One(Row::Placed(Extent::Open, role))),
    }
}

fn length<'a>(
    to: &mut Progress<'a>,
    at: usize,
    role: Role,
    token: Lexeme<'a>,
) -> Result<Answer, AllocError>
    requires { at + 1 < 2 ^ 64 }
    ensures { Does (A.length at role (tok_of token.entry)) to.old to.new result }
{
    match token {
        Lexeme::RightBracket => made(to, Row::Placed(Extent::Length, role)),
        Lexeme::Comma => expr(to, at, Due::Right(role)),
        _ => Ok(Answer::Stuck),
    }
}

fn right<'a>(to: &mut Progress<'a>, role: Role, token: Lexeme<'a>) -> Result<Answer, AllocError>
    ensures { Does (A.right role (tok_of token.entry)) to.old to.new result }
{
    match token {
        Lexeme::RightBracket => made(to, Row::Placed(Extent::Ends, role)),
        _ => Ok(Answer::Stuck),
    }
}

fn equals<'a>(
    to: &mut Progress<'a>,
    at: usize,
    then: Due,
    token: Lexeme<'a>,
) -> Result<Answer, AllocError>
    requires { at + 1 < 2 ^ 64 }
    ensures { Does (A.equals at then (tok_of token.entry)) to.old to.new result }
{
    match token {
        Lexeme::Equals => expr(to, at, then),
        _ => Ok(Answer::Stuck),
    }
}

fn left_paren<'a>(
    to: &mut Progress<'a>,
    at: usize,
    then: Due,
    token: Lexeme<'a>,
) -> Result<Answer, AllocError>
    requires { at + 1 < 2 ^ 64 }
    ensures { Does (A.left_paren at then (tok_of token.entry)) to.old to.new result }
{
    match token {
        Lexeme::LeftParen => expr(to, at, then),
        _ => Ok(Answer::Stuck),
    }
}

fn set_end<'a>(to: &mut Progress<'a>, token: Lexeme<'a>) -> Result<Answer, AllocError>
    ensures { Does (A.set_end (tok_of token.entry)) to.old to.new result }
{
    match token {
        Lexeme::RightBrace => made(to, Row::Set),
        _ => Ok(Answer::Stuck),
    }
}

fn test_end<'a>(to: &mut Progress<'a>, span: Span, token: Lexeme<'a>) -> Result<Answer, AllocError>
    ensures { Does (A.test_end span (tok_of token.entry)) to.old to.new result }
{
    match token {
        Lexeme::RightParen => made(to, Row::Test(span)),
        _ => Ok(Answer::Stuck),
    }
}

fn for_to<'a>(to: &mut Progress<'a>, at: usize, token: Lexeme<'a>) -> Result<Answer, AllocError>
    requires { at + 1 < 2 ^ 64 }
    ensures { Does (A.for_to at (tok_of token.entry)) to.old to.new result }
{
    match token {
        Lexeme::To => expr(to, at, Due::ForDo),
        _ => Ok(Answer::Stuck),
    }
}

fn for_do<'a>(to: &mut Progress<'a>, token: Lexeme<'a>) -> Result<Answer, AllocError>
    ensures { Does (A.for_do (tok_of token.entry)) to.old to.new result }
{
    match token {
        Lexeme::Do => onward(to, Next::Two(Due::Naming, Due::ForOpen)),
        _ => Ok(Answer::Stuck),
    }
}

fn for_open<'a>(to: &mut Progress<'a>, at: usize, token: Lexeme<'a>) -> Result<Answer, AllocError>
    requires { at + 1 < 2 ^ 64 }
    ensures { Does (A.for_open at (tok_of token.entry)) to.old to.new result }
{
    match token {
        Lexeme::LeftBracket => expr(to, at, Due::ForComma),
        _ => Ok(Answer::Stuck),
    }
}

fn for_comma<'a>(to: &mut Progress<'a>, at: usize, token: Lexeme<'a>) -> Result<Answer, AllocError>
    requires { at + 1 < 2 ^ 64 }
    ensures { Does (A.for_comma at (tok_of token.entry)) to.old to.new result }
{
    match token {
        Lexeme::Comma => expr(to, at, Due::ForEnd),
        _ => Ok(Answer::Stuck),
    }
}

fn for_end<'a>(to: &mut Progress<'a>, token: Lexeme<'a>) -> Result<Answer, AllocError>
    ensures { Does (A.for_end (tok_of token.entry)) to.old to.new result }
{
    match token {
        Lexeme::RightBracket => made(to, Row::Repeat),
        _ => Ok(Answer::Stuck),
    }
}

fn pick_open<'a>(to: &mut Progress<'a>, span: Span, token: Lexeme<'a>) -> Result<Answer, AllocError>
    ensures { Does (A.pick_open span (tok_of token.entry)) to.old to.new result }
{
    match token {
        Lexeme::LeftBrace => onward(to, Next::One(Due::FirstCase(span))),
        _ => Ok(Answer::Stuck),
    }
}

fn first_case<'a>(
    to: &mut Progress<'a>,
    span: Span,
    token: Lexeme<'a>,
) -> Result<Answer, AllocError>
    ensures { Does (A.first_case span (tok_of token.entry)) to.old to.new result }
{
    match token {
        Lexeme::Case => onward(to, Next::Two(Due::CaseOpen, Due::Cases(span))),
        _ => Ok(Answer::Stuck),
    }
}

fn cases<'a>(to: &mut Progress<'a>, span: Span, token: Lexeme<'a>) -> Result<Answer, AllocError>
    ensures { Does (A.cases span (tok_of token.entry)) to.old to.new result }
{
    match token {
        Lexeme::Case => onward(to, Next::Two(Due::CaseOpen, Due::Cases(span))),
        Lexeme::Else => onward(to, Next::Two(Due::Slot(Role::Other), Due::PickEnd(span))),
        _ => Ok(Answer::Stuck),
    }
}

fn case_end<'a>(to: &mut Progress<'a>, token: Lexeme<'a>) -> Result<Answer, AllocError>
    ensures { Does (A.case_end (tok_of token.entry)) to.old to.new result }
{
    match token {
        Lexeme::RightParen => onward(to, Next::One(Due::Slot(Role::Case))),
        _ => Ok(Answer::Stuck),
    }
}

fn pick_end<'a>(to: &mut Progress<'a>, span: Span, token: Lexeme<'a>) -> Result<Answer, AllocError>
    ensures { Does (A.pick_end span (tok_of token.entry)) to.old to.new result }
{
    match token {
        Lexeme::RightBrace => made(to, Row::Pick(span)),
        _ => Ok(Answer::Stuck),
    }
}

// expressions

fn operand<'a>(to: &mut Progress<'a>, token: Lexeme<'a>) -> Result<Answer, AllocError>
    ensures { Does (A.operand (tok_of token.entry)) to.old to.new result }
{
    match token {
        Lexeme::Number(n) => made(to, Row::Num(n)),
        Lexeme::Eoi => made(to, Row::Eoi),
        Lexeme::Name(label) => taken(to, Rows::One(Row::Name(label)), Next::One(Due::AfterName)),
        Lexeme::LeftParen => onward(to, Next::Three(Due::Operand, Due::Rest(0), Due::GroupEnd)),
        Lexeme::Sign(Infix::Op(Op2::Sub)) => onward(to, Next::Two(Due::Operand, Due::Neg)),
        Lexeme::Bang => onward(to, Next::Two(Due::Operand, Due::Not)),
        _ => Ok(Answer::Stuck),
    }
}

fn rest<'a>(to: &mut Progress<'a>, level: u8, token: Lexeme<'a>) -> Result<Answer, AllocError>
    ensures { Does (A.rest level (tok_of token.entry)) to.old to.new result }
{
    match token {
        Lexeme::Sign(sign) => operator(to, level, sign),
        Lexeme::Question(_) => question(to, level),
        _ => passed(to, Rows::Zero),
    }
}

/// What binds more tightly than the operator is its right operand, and all else goes on after it.
fn operator<'a>(to: &mut Progress<'a>, level: u8, sign: Infix) -> Result<Answer, AllocError>
    ensures { Does (A.operator level (infix_of sign)) to.old to.new result }
{
    let own = level_of(sign);
    if level <= own {
        onward(
            to,
            Next::Four(
                Due::Operand,
                Due::Rest(own + 1),
                Due::Two(sign),
                Due::Rest(level),
            ),
        )
    } else {
        passed(to, Rows::Zero)
    }
}

/// A conditional binds loosest.
fn question<'a>(to: &mut Progress<'a>, level: u8) -> Result<Answer, AllocError>
    ensures { Does (A.question level) to.old to.new result }
{
    if level == 0 {
        onward(
            to,
            Next::Four(Due::Operand, Due::Rest(0), Due::CondColon, Due::Rest(0)),
        )
    } else {
        passed(to, Rows::Zero)
    }
}

fn after_name<'a>(to: &mut Progress<'a>, token: Lexeme<'a>) -> Result<Answer, AllocError>
    ensures { Does (A.after_name (tok_of token.entry)) to.old to.new result }
{
    match token {
        Lexeme::Dot => onward(to, Next::One(Due::PartField)),
        Lexeme::LeftParen => onward(to, Next::Three(Due::Operand, Due::Rest(0), Due::IndexEnd)),
        _ => passed(to, Rows::One(Row::Id)),
    }
}

/// The attribute that follows a `.`.
fn member<'a>(token: Lexeme<'a>) -> Option<Member<'a>>
    ensures { option_map member_of result ≡ field_of (tok_of token.entry) }
{
    match token {
        Lexeme::Name(label) => Some(Member::Named(label)),
        Lexeme::Start => Some(Member::Start),
        Lexeme::End => Some(Member::End),
        _ => None,
    }
}

fn part_field<'a>(to: &mut Progress<'a>, token: Lexeme<'a>) -> Result<Answer, AllocError>
    ensures { Does (A.part_field (field_of (tok_of token.entry))) to.old to.new result }
{
    match member(token) {
        Some(member) => made(to, Row::Part(member)),
        None => Ok(Answer::Stuck),
    }
}

fn item_field<'a>(to: &mut Progress<'a>, token: Lexeme<'a>) -> Result<Answer, AllocError>
    ensures { Does (A.item_field (field_of (tok_of token.entry))) to.old to.new result }
{
    match member(token) {
        Some(member) => made(to, Row::Item(member)),
        None => Ok(Answer::Stuck),
    }
}

fn index_end<'a>(to: &mut Progress<'a>, token: Lexeme<'a>) -> Result<Answer, AllocError>
    ensures { Does (A.index_end (tok_of token.entry)) to.old to.new result }
{
    match token {
        Lexeme::RightParen => onward(to, Next::One(Due::IndexDot)),
        _ => Ok(Answer::Stuck),
    }
}

fn index_dot<'a>(to: &mut Progress<'a>, token: Lexeme<'a>) -> Result<Answer, AllocError>
    ensures { Does (A.index_dot (tok_of token.entry)) to.old to.new result }
{
    match token {
        Lexeme::Dot => onward(to, Next::One(Due::ItemField)),
        _ => Ok(Answer::Stuck),
    }
}

fn group_end<'a>(to: &mut Progress<'a>, token: Lexeme<'a>) -> Result<Answer, AllocError>
    ensures { Does (A.group_end (tok_of token.entry)) to.old to.new result }
{
    match token {
        Lexeme::RightParen => made(to, Row::Group),
        _ => Ok(Answer::Stuck),
    }
}

fn cond_colon<'a>(to: &mut Progress<'a>, token: Lexeme<'a>) -> Result<Answer, AllocError>
    ensures { Does (A.cond_colon (tok_of token.entry)) to.old to.new result }
{
    match token {
        Lexeme::Colon => onward(to, Next::Three(Due::Operand, Due::Rest(0), Due::Cond)),
        _ => Ok(Answer::Stuck),
    }
}
