//! The first limit that rows pass.

ghost use Rattle.std.specs.Prelude.{◌≡◌, [], ◌∷◌, OnOk, IfOk, option_map};
ghost use Rattle.ipg_read_scan.specs.Rowed.{row_of, rows_of};
ghost use Rattle.ipg_read.specs.Counted as C;
ghost use Rattle.ipg_read.specs.Counted.{counts_of, over_of};

use crate::limits::{Over, Seen, deeper, more, noted, noted_rule};
use ipg_read_scan::{ParseStack, Role, Row, Site};
use ipg_read_tokens::Which;
use std::alloc::{AllocError, Global};

/// The depths of expressions that are still parts to be, and the lengths of the lists that are being made.
#[derive(Drop)]
pub struct Count {
    pub seen: Seen,
    pub depths: ParseStack<u16>,
    pub terms: u16,
    pub alts: u16,
    pub local_alts: u16,
}

pub fn first_over<'a>(alloc: Global, rows: &[Row<'a>]) -> Result<Option<Over>, AllocError>
    ensures { IfOk result (λ over. option_map over_of over ≡ (C.notes (rows_of rows.now) C.nothing).seen.over) }
{
    let mut count = Count {
        seen: Seen {
            rules: 0,
            over: None,
        },
        depths: ParseStack::new(alloc),
        terms: 0,
        alts: 0,
        local_alts: 0,
    };
    for row in rows {
        note(&mut count, *row)?;
    }
    Ok(count.seen.over)
}

fn note<'a>(count: &mut Count, row: Row<'a>) -> Result<(), AllocError>
    ensures { OnOk result (counts_of count.new ≡ C.note (row_of row.entry) (counts_of count.old)) }
{
    match row {
        Row::Rule(at) => count.seen = noted_rule(at, count.seen),
        Row::First(site, at) => first_term(count, site, at),
        Row::Term(at) => {
            count.seen = noted(
                Which::Terms,
                more(Which::Terms, count.terms),
                at,
                count.seen,
            )
        }
        Row::Placed(_, role) => slot_ends(count, role),
        Row::Set | Row::Test(_) | Row::Repeat | Row::Pick(_) => term_ends(count),
        Row::NextAlt(site) => alt_ends(count, site),
        Row::EndRule(site) => rule_ends(count, site),
        Row::Locals => count.terms = 0,
        Row::EndLocals => alt_ends(count, Site::Global),
        Row::Close => rule_ends(count, Site::Global),
        Row::Name(_) | Row::Text(_) | Row::Call(_) => {}
        Row::Num(_) | Row::Eoi | Row::Id | Row::Part(_) => count.depths.push(1)?,
        Row::Item(_) | Row::Group | Row::Neg | Row::Not => one_deeper(&mut count.depths)?,
        Row::Two(_) => two_deeper(&mut count.depths)?,
        Row::Cond => three_deeper(&mut count.depths)?,
        Row::Whole(from) => whole(count, from)?,
    }
    Ok(())
}

fn top(depths: &mut ParseStack<u16>) -> u16
    ensures taken { result ≡ C.top depths.old }
    ensures left { depths.new ≡ C.below depths.old }
{
    match depths.pop() {
        Some(depth) => depth,
        None => 0,
    }
}

fn one_deeper(depths: &mut ParseStack<u16>) -> Result<(), AllocError>
    ensures { OnOk result (depths.new ≡ C.one_deeper depths.old) }
{
    let depth = top(depths);
    depths.push(deeper(depth))
}

fn two_deeper(depths: &mut ParseStack<u16>) -> Result<(), AllocError>
    ensures { OnOk result (depths.new ≡ C.two_deeper depths.old) }
{
    let right = top(depths);
    let left = top(depths);
    depths.push(deeper(left.max(right)))
}

fn three_deeper(depths: &mut ParseStack<u16>) -> Result<(), AllocError>
    ensures { OnOk result (depths.new ≡ C.three_deeper depths.old) }
{
    let no = top(depths);
    let yes = top(depths);
    let test = top(depths);
    depths.push(deeper(test.max(yes.max(no))))
}

fn whole(count: &mut Count, from: usize) -> Result<(), AllocError>
    ensures { OnOk result (counts_of count.new ≡ C.whole from (counts_of count.old)) }
{
    let depth = top(&mut count.depths);
    count.seen = noted(Which::Depth, depth, from, count.seen);
    Ok(())
}

fn first_term(count: &mut Count, site: Site, at: usize)
    ensures { counts_of count.new ≡ C.first_term site at (counts_of count.old) }
{
    let alts = match site {
        Site::Global => count.alts,
        Site::Local => count.local_alts,
    };
    let seen = noted(
        Which::Alternatives,
        more(Which::Alternatives, alts),
        at,
        count.seen,
    );
    count.seen = noted(Which::Terms, more(Which::Terms, 0), at, seen);
}

fn term_ends(count: &mut Count)
    ensures { counts_of count.new ≡ C.term_ends (counts_of count.old) }
{
    count.terms = more(Which::Terms, count.terms);
}

fn slot_ends(count: &mut Count, role: Role)
    ensures { counts_of count.new ≡ C.slot_ends role (counts_of count.old) }
{
    match role {
        Role::Term | Role::Many(_) => term_ends(count),
        Role::Case | Role::Other => {}
    }
}

fn alt_ends(count: &mut Count, site: Site)
    ensures { counts_of count.new ≡ C.alt_ends site (counts_of count.old) }
{
    count.terms = 0;
    match site {
        Site::Global => count.alts = more(Which::Alternatives, count.alts),
        Site::Local => count.local_alts = more(Which::Alternatives, count.local_alts),
    }
}

fn rule_ends(count: &mut Count, site: Site)
    ensures { counts_of count.new ≡ C.rule_ends site (counts_of count.old) }
{
    count.terms = 0;
    match site {
        Site::Global => count.alts = 0,
        Site::Local => count.local_alts = 0,
    }
}
