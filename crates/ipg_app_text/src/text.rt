//! The text of a grammar, built in or a file's.
ghost use Rattle.std.specs.Prelude.{◌≡◌, ◌≤◌, ℕ, List, IfOk, Ok, Err};
ghost use Rattle.std.specs.Option.{option_map};
ghost use Rattle.ipg_ast.specs.Shape.{IsFlat};
ghost use Rattle.ipg_names.specs.Readable.{IsReadable};
ghost use Rattle.ipg_app_text.specs.CoreOf.{CoreOf, grammar_in};
ghost use Rattle.ipg_app_text.specs.Early.{AnswersOrSays};
ghost use Rattle.ipg_app_text.specs.Found.{FoundText, HeldText, IsText, bytes_of, silence};
ghost use Rattle.ipg_app_text.specs.Lines.{said_of};
ghost use Rattle.ipg_app_text.specs.Order.{contents};
ghost use Rattle.ipg_app_text.specs.Steps.{text_under};
ghost use Rattle.ipg_app_text.specs.Settles.{Settles};

use crate::core_of::core_of;
use crate::early::Early;
use crate::grammar::grammar_in;
use crate::refusal::refusal;
use crate::said::{Settled, read_fault};
use ipg_ast::Grammar;
use ipg_core::accepted::Core;
use ipg_formats::{Kind, kind_named, text};
use ipg_outside::{FileFault, Files};
use ipg_read_tokens::ReadFault;
use std::alloc::Global;

/// The most bytes of a text in a file: 1 MiB.
const MAX_TEXT: u64 = 1 << 20;

/// The text of a grammar.
#[derive(Drop)]
pub enum GrammarText {
    BuiltIn(Kind),
    Read(Vec<u8>),
    /// A file's that is longer than a text may be; nothing of it is kept.
    TooLong,
}

impl GrammarText {
    /// Its bytes, of a text that isn't too long.
    pub fn bytes(&self) -> Option<&[u8]>
        ensures { option_map (λ bytes. bytes.now) result ≡ bytes_of self.now }
    {
        match self {
            GrammarText::BuiltIn(kind) => Some(text(*kind)),
            GrammarText::Read(bytes) => Some(bytes.as_slice()),
            GrammarText::TooLong => None,
        }
    }
}

/// The text under a name: a built-in one by its name, else a file's.
///
/// # Errors
/// What is said of a file that can't be read; of one that is longer than a text may be, the text is `TooLong`.
pub fn text_under<F: Files>(
    alloc: Global,
    name: &str,
    files: &mut F,
) -> Result<GrammarText, Early<Settled>>
    ensures found { AnswersOrSays result (FoundText (F.told files.old) name.now)
        (λ settled. Settles (F.told files.old) (F.faults files.old) (F.faults files.new) (text_under name.now (λ text. silence)) (said_of settled)) }
    ensures told { (n : List ℕ) → F.told files.new n ≡ F.told files.old n }
    ensures counts { (n : List ℕ) → F.faults files.old n ≤ F.faults files.new n }
{
    match kind_named(name) {
        Some(kind) => Ok(GrammarText::BuiltIn(kind)),
        None => text_in_file(alloc, name, files),
    }
}

/// The text in a file; see [`text_under`].
fn text_in_file<F: Files>(
    alloc: Global,
    name: &str,
    files: &mut F,
) -> Result<GrammarText, Early<Settled>>
    ensures found { AnswersOrSays result (HeldText (F.told files.old name.now))
        (λ settled. Settles (F.told files.old) (F.faults files.old) (F.faults files.new) (contents name.now (λ text. silence)) (said_of settled)) }
    ensures told { (n : List ℕ) → F.told files.new n ≡ F.told files.old n }
    ensures counts { (n : List ℕ) → F.faults files.old n ≤ F.faults files.new n }
{
    match files.read_all(alloc, name, MAX_TEXT) {
        Ok(text) => Ok(GrammarText::Read(text)),
        Err(FileFault::TooLarge(_)) => Ok(GrammarText::TooLong),
        Err(FileFault::Failed) => Err(Early::Said(read_fault(alloc)?)),
        Err(FileFault::Memory) => Err(Early::Memory),
    }
}

/// The grammar of a text.
///
/// # Errors
/// What is said of a text that is too long or none of a grammar: G1 to G5.
pub fn grammar_of(alloc: Global, text: &GrammarText) -> Result<Grammar, Early<Settled>>
    ensures read { (bytes : List ℕ) → IsText text.now bytes
        → AnswersOrSays result (λ g. grammar_in bytes ≡ Ok g) (λ settled. grammar_in bytes ≡ Err (said_of settled)) }
    ensures readable { IfOk result IsReadable }
    ensures flat { IfOk result IsFlat }
{
    match text.bytes() {
        Some(bytes) => grammar_in(alloc, bytes),
        None => Err(Early::Said(refusal(alloc, &ReadFault::TooLong)?)),
    }
}

/// The core grammar of a text.
///
/// # Errors
/// What is said of the first of its faults: G1 to G12, then G14.
pub fn core_of_text(alloc: Global, text: &GrammarText) -> Result<Core, Early<Settled>>
    ensures { (bytes : List ℕ) → IsText text.now bytes
        → AnswersOrSays result (λ core. CoreOf bytes (Ok core)) (λ settled. CoreOf bytes (Err (said_of settled))) }
{
    let g = grammar_of(alloc, text)?;
    core_of(alloc, &g)
}
