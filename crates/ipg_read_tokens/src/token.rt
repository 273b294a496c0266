use ipg_ast::{Span, TokenKind};

/// A token and the bytes of the text that it takes.
#[derive(Debug, Drop)]
pub struct Token {
    pub kind: TokenKind,
    pub span: Span,
}
