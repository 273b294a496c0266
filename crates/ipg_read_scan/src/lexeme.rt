ghost use Rattle.std.specs.Prelude.{◌≡◌};
ghost use Rattle.ipg_read_syntax.specs.Classes.{class_of, word_class, symbol_class, single_class, pair_class, level, op_level};
ghost use Rattle.ipg_read_scan.specs.Lexemes.{tok_of, infix_of};

use ipg_ast::{Name, Reserved, Span, TokenKind};
use ipg_num::Op2;
use ipg_read_tokens::Token;

/// A name and its place.
#[derive(Clone, Copy)]
pub struct Label<'a> {
    pub name: &'a Name,
    pub span: Span,
}

/// An operator between two operands.
#[derive(Clone, Copy)]
pub enum Infix {
    Either,
    Both,
    Op(Op2),
}

/// What a token is to the grammar of grammars.
#[derive(Clone, Copy)]
pub enum Lexeme<'a> {
    Name(Label<'a>),
    Number(i64),
    Text(Label<'a>),
    Sign(Infix),
    Bang,
    Question(Span),
    Colon,
    Dot,
    Comma,
    Equals,
    Arrow,
    Semicolon,
    LeftParen,
    RightParen,
    LeftBracket,
    RightBracket,
    LeftBrace,
    RightBrace,
    For,
    To,
    Do,
    Switch(Span),
    Case,
    Else,
    Where,
    Start,
    End,
    Eoi,
    Many(Span),
    Stray,
}

/// What a token is to the grammar of grammars.
pub fn lexeme_of<'a>(token: &'a Token) -> Lexeme<'a>
    ensures { tok_of result ≡ class_of token.now }
{
    let span = token.span;
    match &token.kind {
        TokenKind::Name(name) => Lexeme::Name(Label { name, span }),
        TokenKind::Word(word) => word_lexeme(*word, span),
        TokenKind::Number(n) => Lexeme::Number(*n),
        TokenKind::Text(bytes) => Lexeme::Text(Label { name: bytes, span }),
        TokenKind::Symbol(bytes) => symbol_lexeme(bytes.as_slice(), span),
    }
}

fn word_lexeme<'a>(word: Reserved, at: Span) -> Lexeme<'a>
    ensures { tok_of result ≡ word_class word at }
{
    match word {
        Reserved::For => Lexeme::For,
        Reserved::To => Lexeme::To,
        Reserved::Do => Lexeme::Do,
        Reserved::Switch => Lexeme::Switch(at),
        Reserved::Case => Lexeme::Case,
        Reserved::Else => Lexeme::Else,
        Reserved::Where => Lexeme::Where,
        Reserved::Start => Lexeme::Start,
        Reserved::End => Lexeme::End,
        Reserved::Eoi => Lexeme::Eoi,
        Reserved::Tok => Lexeme::Stray,
        Reserved::Many => Lexeme::Many(at),
    }
}

fn symbol_lexeme<'a>(symbol: &[u8], at: Span) -> Lexeme<'a>
    ensures { tok_of result ≡ symbol_class symbol.now at }
{
    match symbol {
        [] => Lexeme::Stray,
        [b] => single_lexeme(*b, at),
        _ => pair_lexeme(symbol),
    }
}

fn single_lexeme<'a>(b: u8, at: Span) -> Lexeme<'a>
    ensures { tok_of result ≡ single_class b at }
{
    match b {
        b'%' => Lexeme::Sign(Infix::Op(Op2::Mod)),
        b'&' => Lexeme::Sign(Infix::Op(Op2::BitAnd)),
        b'(' => Lexeme::LeftParen,
        b')' => Lexeme::RightParen,
        b'*' => Lexeme::Sign(Infix::Op(Op2::Mul)),
        b'+' => Lexeme::Sign(Infix::Op(Op2::Add)),
        b',' => Lexeme::Comma,
        b'-' => Lexeme::Sign(Infix::Op(Op2::Sub)),
        b'.' => Lexeme::Dot,
        b'/' => Lexeme::Sign(Infix::Op(Op2::Div)),
        b':' => Lexeme::Colon,
        b';' => Lexeme::Semicolon,
        b'<' => Lexeme::Sign(Infix::Op(Op2::Lt)),
        b'=' => Lexeme::Equals,
        b'>' => Lexeme::Sign(Infix::Op(Op2::Gt)),
        b'?' => Lexeme::Question(at),
        b'!' => Lexeme::Bang,
        b'[' => Lexeme::LeftBracket,
        b']' => Lexeme::RightBracket,
        b'^' => Lexeme::Sign(Infix::Op(Op2::BitXor)),
        b'{' => Lexeme::LeftBrace,
        b'|' => Lexeme::Sign(Infix::Op(Op2::BitOr)),
        b'}' => Lexeme::RightBrace,
        _ => Lexeme::Stray,
    }
}

fn pair_lexeme<'a>(symbol: &[u8]) -> Lexeme<'a>
    ensures { tok_of result ≡ pair_class symbol.now }
{
    match symbol {
        b"->" => Lexeme::Arrow,
        b"<<" => Lexeme::Sign(Infix::Op(Op2::Shl)),
        b">>" => Lexeme::Sign(Infix::Op(Op2::Shr)),
        b"==" => Lexeme::Sign(Infix::Op(Op2::Eq)),
        b"!=" => Lexeme::Sign(Infix::Op(Op2::Ne)),
        b"<=" => Lexeme::Sign(Infix::Op(Op2::Le)),
        b">=" => Lexeme::Sign(Infix::Op(Op2::Ge)),
        b"&&" => Lexeme::Sign(Infix::Both),
        b"||" => Lexeme::Sign(Infix::Either),
        _ => Lexeme::Stray,
    }
}

/// How tightly an operator between operands binds.
pub fn level_of(sign: Infix) -> u8
    ensures { result ≡ level (infix_of sign) }
{
    match sign {
        Infix::Either => 1,
        Infix::Both => 2,
        Infix::Op(op) => op_level(op),
    }
}

fn op_level(op: Op2) -> u8
    ensures { result ≡ op_level op }
{
    match op {
        Op2::Eq | Op2::Ne | Op2::Lt | Op2::Le | Op2::Gt | Op2::Ge => 3,
        Op2::BitOr => 4,
        Op2::BitXor => 5,
        Op2::BitAnd => 6,
        Op2::Shl | Op2::Shr => 7,
        Op2::Add | Op2::Sub => 8,
        Op2::Mul | Op2::Div | Op2::Mod => 9,
    }
}
