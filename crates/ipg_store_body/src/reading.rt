//! Reads a body.

ghost use Rattle.std.specs.Prelude.{◌≡◌, ◌≤◌, MatchResult};
ghost use Rattle.ipg_store_body.specs.declared.body.Body.{Body};
ghost use Rattle.ipg_reader.specs.declared.fault.Fault.TheVariants.{Memory};
ghost use Rattle.ipg_store_body.specs.Fits.{FitsBody, IsBody, spelled};
ghost use Rattle.ipg_reader.specs.Faults.{IsFault};
ghost use Rattle.ipg_reader.specs.Found.{Gives, list_at, text_at};
ghost use Rattle.ipg_store_body.specs.Reading.{sym_at, field_at, leaf_fields, leaf_at, node_fields, level_at, expr_at, whole_expr_at};
ghost use Rattle.ipg_store_body.specs.Reading.{slot_at, case_at, term_fields, array_at, term_at, alt_at, holder_at, rule_at, body_at};

use crate::body::Body;
use crate::tag::{
    EXPR_TAGS, ExprTag, FIELD_TAGS, FieldTag, HOLDER_TAGS, HolderTag, LEAVES, Leaf, Node,
    OPERATORS, SYM_TAGS, SymTag, TERM_TAGS, TermTag,
};
use ipg_core::grammar::{
    CoreAlt, CoreExpr, CoreField, CoreRule, CoreSlot, CoreTerm, Name, PRIMITIVES, Sym,
};
use ipg_num::{Held, List};
use ipg_reader::laws::{numbers_are_exact, texts_are_exact};
use ipg_reader::{Fault, Halt, Reader, whole};
use std::alloc::Global;

/// How many levels may stand below the outermost one of an expression.
const BELOW: u32 = 399;

/// A place in a body, from which it is read.
#[derive(Drop)]
struct BodyReader<'a> {
    alloc: Global,
    bytes: Reader<'a>,
}

impl<'a> BodyReader<'a> {
    #[tactic(auto, unfolding(crate::specs::Reading::sym_at))]
    fn sym(&mut self) -> Result<Sym, Halt>
        ensures { Gives (sym_at self.old.bytes.left.now) self.new.bytes.left.now result }
    {
        match self.bytes.tag(&SYM_TAGS)? {
            SymTag::Text => Ok(Sym::Text(self.bytes.text(self.alloc)?)),
            SymTag::Prim => Ok(Sym::Prim(self.bytes.tag(&PRIMITIVES)?)),
            SymTag::Rule => Ok(Sym::Rule(self.bytes.short()?)),
        }
    }

    #[tactic(auto, unfolding(crate::specs::Reading::field_at))]
    fn field(&mut self) -> Result<CoreField, Halt>
        ensures { Gives (field_at self.old.bytes.left.now) self.new.bytes.left.now result }
    {
        match self.bytes.tag(&FIELD_TAGS)? {
            FieldTag::Attr => Ok(CoreField::Attr(self.bytes.short()?)),
            FieldTag::Start => Ok(CoreField::Start),
            FieldTag::End => Ok(CoreField::End),
        }
    }

    /// What stands behind the tag of a leaf.
    #[tactic(auto, unfolding(crate::specs::Reading::leaf_fields))]
    fn leaf(&mut self, leaf: Leaf) -> Result<CoreExpr, Halt>
        ensures { Gives (leaf_fields leaf self.old.bytes.left.now) self.new.bytes.left.now result }
    {
        match leaf {
            Leaf::Num => Ok(CoreExpr::Num(self.bytes.signed()?)),
            Leaf::Eoi => Ok(CoreExpr::Eoi),
            Leaf::Own => Ok(CoreExpr::Own(self.bytes.short()?)),
            Leaf::Outer => Ok(CoreExpr::Outer(self.bytes.short()?)),
            Leaf::Loop => Ok(CoreExpr::Loop),
            Leaf::Seen => {
                let term = self.bytes.short()?;
                let sym = self.sym()?;
                let field = self.field()?;
                Ok(CoreExpr::Seen { term, sym, field })
            }
        }
    }

    #[tactic(auto, unfolding(crate::specs::Reading::leaf_at))]
    fn whole_leaf(&mut self) -> Result<CoreExpr, Halt>
        ensures { Gives (leaf_at self.old.bytes.left.now) self.new.bytes.left.now result }
    {
        let leaf = self.bytes.tag(&LEAVES)?;
        self.leaf(leaf)
    }

    /// An expression with so many levels below its own.
    #[cycle(expr)]
    fn expr(&mut self, below: u32) -> Result<CoreExpr, Halt>
        ensures { Gives (expr_at below self.old.bytes.left.now) self.new.bytes.left.now result }
    {
        match below.checked_sub(1) {
            None => self.whole_leaf(),
            Some(below) => self.level(below),
        }
    }

    /// An expression whose parts have so many levels below their own.
    #[cycle(expr)]
    #[tactic(auto, unfolding(crate::specs::Reading::level_at))]
    fn level(&mut self, below: u32) -> Result<CoreExpr, Halt>
        ensures { Gives (level_at (expr_at below) self.old.bytes.left.now) self.new.bytes.left.now result }
    {
        match self.bytes.tag(&EXPR_TAGS)? {
            ExprTag::Leaf(leaf) => self.leaf(leaf),
            ExprTag::Node(node) => self.node(node, below),
        }
    }

    /// An expression in another one.
    #[cycle(expr)]
    fn part(&mut self, below: u32) -> Result<Held<CoreExpr>, Halt>
        ensures { Gives (expr_at below self.old.bytes.left.now) self.new.bytes.left.now result }
    {
        let part = self.expr(below)?;
        Ok(Held::new(self.alloc, part)?)
    }

    /// What stands behind the tag of an expression that has others in it.
    #[cycle(expr)]
    #[tactic(auto, unfolding(crate::specs::Reading::node_fields))]
    fn node(&mut self, node: Node, below: u32) -> Result<CoreExpr, Halt>
        ensures { Gives (node_fields (expr_at below) node self.old.bytes.left.now) self.new.bytes.left.now result }
    {
        match node {
            Node::Item => {
                let term = self.bytes.short()?;
                let index = self.part(below)?;
                let field = self.field()?;
                Ok(CoreExpr::Item { term, index, field })
            }
            Node::After => {
                let term = self.bytes.short()?;
                let left = self.part(below)?;
                Ok(CoreExpr::After { term, left })
            }
            Node::Neg => Ok(CoreExpr::Neg(self.part(below)?)),
            Node::Not => Ok(CoreExpr::Not(self.part(below)?)),
            Node::Two => {
                let op = self.bytes.tag(&OPERATORS)?;
                let left = self.part(below)?;
                let right = self.part(below)?;
                Ok(CoreExpr::Two(op, left, right))
            }
            Node::Both => {
                let left = self.part(below)?;
                let right = self.part(below)?;
                Ok(CoreExpr::Both(left, right))
            }
            Node::Either => {
                let left = self.part(below)?;
                let right = self.part(below)?;
                Ok(CoreExpr::Either(left, right))
            }
            Node::Cond => {
                let test = self.part(below)?;
                let left = self.part(below)?;
                let right = self.part(below)?;
                Ok(CoreExpr::Cond(test, left, right))
            }
        }
    }

    fn whole_expr(&mut self) -> Result<CoreExpr, Halt>
        ensures { Gives (whole_expr_at self.old.bytes.left.now) self.new.bytes.left.now result }
    {
        self.expr(BELOW)
    }

    #[tactic(auto, unfolding(crate::specs::Reading::slot_at))]
    fn slot(&mut self) -> Result<CoreSlot, Halt>
        ensures { Gives (slot_at self.old.bytes.left.now) self.new.bytes.left.now result }
    {
        let sym = self.sym()?;
        let from = self.whole_expr()?;
        let to = self.whole_expr()?;
        Ok(CoreSlot { sym, from, to })
    }

    #[tactic(auto, unfolding(crate::specs::Reading::case_at))]
    fn case(&mut self) -> Result<(CoreExpr, CoreSlot), Halt>
        ensures { Gives (case_at self.old.bytes.left.now) self.new.bytes.left.now result }
    {
        let test = self.whole_expr()?;
        let slot = self.slot()?;
        Ok((test, slot))
    }

    /// The branches of a switch.
    #[tactic(auto, unfolding(ipg_reader::specs::Found::list_at))]
    fn cases(&mut self) -> Result<List<(CoreExpr, CoreSlot)>, Halt>
        ensures { Gives (list_at case_at self.old.bytes.left.now) self.new.bytes.left.now result }
    {
        let count = self.bytes.long()?;
        let mut cases = Vec::new(self.alloc);
        for _at in 0..count {
            let case = self.case()?;
            cases.push(case)?;
        }
        Ok(List::from_vec(cases))
    }

    /// What stands behind the tag of a term.
    #[tactic(auto, unfolding(crate::specs::Reading::term_fields))]
    fn fields(&mut self, tag: TermTag) -> Result<CoreTerm, Halt>
        ensures { Gives (term_fields tag self.old.bytes.left.now) self.new.bytes.left.now result }
    {
        match tag {
            TermTag::Slot => Ok(CoreTerm::Slot(self.slot()?)),
            TermTag::Set => {
                let attr = self.bytes.short()?;
                let value = self.whole_expr()?;
                Ok(CoreTerm::Set { attr, value })
            }
            TermTag::Test => Ok(CoreTerm::Test(self.whole_expr()?)),
            TermTag::Repeat => self.array(),
            TermTag::Pick => {
                let cases = self.cases()?;
                let other = self.slot()?;
                Ok(CoreTerm::Pick { cases, other })
            }
            TermTag::Many => {
                let item = self.sym()?;
                let from = self.whole_expr()?;
                let to = self.whole_expr()?;
                Ok(CoreTerm::Many { item, from, to })
            }
        }
    }

    #[tactic(auto, unfolding(crate::specs::Reading::array_at))]
    fn array(&mut self) -> Result<CoreTerm, Halt>
        ensures { Gives (array_at self.old.bytes.left.now) self.new.bytes.left.now result }
    {
        let first = self.whole_expr()?;
        let last = self.whole_expr()?;
        let item = self.sym()?;
        let from = self.whole_expr()?;
        let to = self.whole_expr()?;
        Ok(CoreTerm::Repeat {
            first,
            last,
            item,
            from,
            to,
        })
    }

    #[tactic(auto, unfolding(crate::specs::Reading::term_at))]
    fn term(&mut self) -> Result<CoreTerm, Halt>
        ensures { Gives (term_at self.old.bytes.left.now) self.new.bytes.left.now result }
    {
        let tag = self.bytes.tag(&TERM_TAGS)?;
        self.fields(tag)
    }

    #[tactic(auto, unfolding(ipg_reader::specs::Found::list_at))]
    fn terms(&mut self) -> Result<List<CoreTerm>, Halt>
        ensures { Gives (list_at term_at self.old.bytes.left.now) self.new.bytes.left.now result }
    {
        let count = self.bytes.long()?;
        let mut terms = Vec::new(self.alloc);
        for _at in 0..count {
            let term = self.term()?;
            terms.push(term)?;
        }
        Ok(List::from_vec(terms))
    }

    /// An alternative, whose order isn't written.
    #[tactic(auto, unfolding(crate::specs::Reading::alt_at))]
    fn alt(&mut self) -> Result<CoreAlt, Halt>
        ensures { Gives (alt_at self.old.bytes.left.now) self.new.bytes.left.now result }
    {
        let terms = self.terms()?;
        Ok(CoreAlt {
            terms,
            order: List::new(self.alloc),
        })
    }

    #[tactic(auto, unfolding(ipg_reader::specs::Found::list_at))]
    fn alts(&mut self) -> Result<List<CoreAlt>, Halt>
        ensures { Gives (list_at alt_at self.old.bytes.left.now) self.new.bytes.left.now result }
    {
        let count = self.bytes.long()?;
        let mut alts = Vec::new(self.alloc);
        for _at in 0..count {
            let alt = self.alt()?;
            alts.push(alt)?;
        }
        Ok(List::from_vec(alts))
    }

    #[tactic(auto, unfolding(crate::specs::Reading::holder_at))]
    fn holder(&mut self) -> Result<Option<(u32, u32)>, Halt>
        ensures { Gives (holder_at self.old.bytes.left.now) self.new.bytes.left.now result }
    {
        match self.bytes.tag(&HOLDER_TAGS)? {
            HolderTag::Global => Ok(None),
            HolderTag::Local => {
                let rule = self.bytes.short()?;
                let alt = self.bytes.short()?;
                Ok(Some((rule, alt)))
            }
        }
    }

    #[tactic(auto, unfolding(crate::specs::Reading::rule_at))]
    fn rule(&mut self) -> Result<CoreRule, Halt>
        ensures { Gives (rule_at self.old.bytes.left.now) self.new.bytes.left.now result }
    {
        let name = self.bytes.text(self.alloc)?;
        let holder = self.holder()?;
        let alts = self.alts()?;
        Ok(CoreRule { name, holder, alts })
    }

    #[tactic(auto, unfolding(ipg_reader::specs::Found::list_at))]
    fn rules(&mut self) -> Result<List<CoreRule>, Halt>
        ensures { Gives (list_at rule_at self.old.bytes.left.now) self.new.bytes.left.now result }
    {
        let count = self.bytes.long()?;
        let mut rules = Vec::new(self.alloc);
        for _at in 0..count {
            let rule = self.rule()?;
            rules.push(rule)?;
        }
        Ok(List::from_vec(rules))
    }

    #[tactic(auto, unfolding(ipg_reader::specs::Found::list_at))]
    fn names(&mut self) -> Result<List<Name>, Halt>
        ensures { Gives (list_at text_at self.old.bytes.left.now) self.new.bytes.left.now result }
    {
        let count = self.bytes.long()?;
        let mut names = Vec::new(self.alloc);
        for _at in 0..count {
            let name = self.bytes.text(self.alloc)?;
            names.push(name)?;
        }
        Ok(List::from_vec(names))
    }

    #[tactic(auto, unfolding(crate::specs::Reading::body_at))]
    fn body(&mut self) -> Result<Body, Halt>
        ensures { Gives (body_at self.old.bytes.left.now) self.new.bytes.left.now result }
    {
        let names = self.names()?;
        let rules = self.rules()?;
        Ok(Body { names, rules })
    }
}

/// The grammar that the bytes are the body of.
///
/// # Errors
/// `At` has the first byte that no body goes on with, or the body's length where it ends too early.
pub fn read(alloc: Global, text: &[u8]) -> Result<Body, Fault>
    ensures is { MatchResult result (λ body. IsBody body text.now) (λ fault. IsFault FitsBody spelled text.now fault) }
    ensures back { (body : Body) → IsBody body text.now → MatchResult result (λ read. read ≡ body) (λ fault. fault ≡ Memory) }
{
    numbers_are_exact();
    texts_are_exact();
    let mut reader = BodyReader {
        alloc,
        bytes: Reader { left: text },
    };
    let read = reader.body();
    whole(text, reader.bytes.left, read)
}
