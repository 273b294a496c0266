//! What an expression is evaluated in.

use ipg_core::grammar::{CoreField, Sym};

/// The values and results that stand when an expression is evaluated, however they are kept. No call takes memory.
pub trait Results {
    ghost use Rattle.std.specs.Prelude.{◌≡◌, option_map, pos};
    ghost use Rattle.ipg_core.specs.Environment.{Environment, value_at, done_at, items_so_far, seen, field_of_item};
    ghost use Rattle.ipg_core.specs.Eval.{item_at, greatest_end};

    /// The environments that they stand for.
    ghost stands: { Self → Environment → Type 0 };

    /// The length of the part at hand.
    fn eoi(&self) -> u32
        ensures { (env : Environment) → stands self.now env → result ≡ env.eoi };

    /// An attribute of the alternative itself.
    fn own(&self, attr: u32) -> Option<i64>
        ensures { (env : Environment) → stands self.now env → result ≡ value_at env.own attr };

    /// An attribute of the holder.
    fn outer(&self, attr: u32) -> Option<i64>
        ensures { (env : Environment) → stands self.now env → result ≡ value_at env.outer attr };

    /// The loop variable.
    fn item(&self) -> Option<i64>
        ensures { (env : Environment) → stands self.now env → result ≡ env.item };

    /// A field of the result of a slot or of a switch, read by a symbol.
    fn seen(&self, term: u32, sym: &Sym, field: CoreField) -> Option<i64>
        ensures { (env : Environment) → stands self.now env → result ≡ seen env.names sym.now field (done_at env.done term) };

    /// A field of an item of an array or a repetition.
    fn item_field(&self, term: u32, index: i64, field: CoreField) -> Option<i64>
        ensures { (env : Environment) → stands self.now env → result ≡ field_of_item env.names field (item_at (items_so_far (done_at env.done term)) index) };

    /// The greatest end of the items of an array or a repetition that touch a byte.
    fn greatest_end(&self, term: u32) -> Option<i64>
        ensures { (env : Environment) → stands self.now env → result ≡ option_map pos (greatest_end (items_so_far (done_at env.done term))) };
}
