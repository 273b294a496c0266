//! Why a term failed, and what comes of it.
ghost use Rattle.std.specs.Prelude.{◌≡◌, ◌++◌, ◌-◌, OnOk};
ghost use Rattle.std.specs.Option.{option_copied};
ghost use Rattle.ipg_app_explain.specs.Furthest as spec;
ghost use Rattle.ipg_app_explain.specs.Furthest.{cause_words, common_words, cut_words, differs_words, found_words, from_words, interval_words};
ghost use Rattle.ipg_app_explain.specs.Furthest.{next_words, no_tree_words, part_words, plain_words, rule_words};
ghost use Rattle.ipg_app_explain.specs.Furthest.{short_words, stands, to_words, wanted_at, why_line};
ghost use Rattle.ipg_app_explain.specs.Named.{wanted_of};
ghost use Rattle.ipg_app_explain.specs.Seen.{subject_of};

use crate::bytes::{add_bytes, add_counted, add_number, add_signed};
use crate::furthest::Subject;
use crate::named::{add_wanted, alternatives, rule_name, size_of};
use crate::spot::{behind, upto};
use ipg_ast::Term;
use ipg_mach_failures::{Cause, Failure};
use std::alloc::AllocError;

/// What stands at a byte, up to the end of a part, so many bytes at most.
fn found_at(input: &[u8], from: u64, to: u32, count: usize) -> &[u8]
    ensures { result.now ≡ spec.found_at input.now from to count }
{
    upto(behind(upto(input, to as usize), from as usize), count)
}

fn add_stands(out: &mut Vec<u8>, found: &[u8], agreed: u64) -> Result<(), AllocError>
    ensures { OnOk result (out.new.items ≡ out.old.items ++ stands found.now agreed) }
{
    if found.len() == 0 {
        return out.extend_from_slice(b". The part ends there.\n");
    }
    add_found(out, found, agreed)
}

fn add_found(out: &mut Vec<u8>, found: &[u8], agreed: u64) -> Result<(), AllocError>
    ensures { OnOk result (out.new.items ≡ out.old.items ++ found_words found.now agreed) }
{
    out.extend_from_slice(b". There stands ")?;
    add_bytes(out, found)?;
    add_common(out, agreed)
}

fn add_common(out: &mut Vec<u8>, agreed: u64) -> Result<(), AllocError>
    ensures { OnOk result (out.new.items ≡ out.old.items ++ common_words agreed) }
{
    out.extend_from_slice(b", with ")?;
    add_counted(out, agreed)?;
    out.extend_from_slice(b" in common.\n")?;
    Ok(())
}

fn add_short(out: &mut Vec<u8>, width: u64, left: u64) -> Result<(), AllocError>
    ensures { OnOk result (out.new.items ≡ out.old.items ++ short_words width left) }
{
    out.extend_from_slice(b", ")?;
    add_counted(out, width)?;
    out.extend_from_slice(b". Left: ")?;
    add_counted(out, left)?;
    out.extend_from_slice(b".\n")
}

fn add_from(out: &mut Vec<u8>, from: i64) -> Result<(), AllocError>
    ensures { OnOk result (out.new.items ≡ out.old.items ++ from_words from) }
{
    out.extend_from_slice(b" on [")?;
    add_signed(out, from)
}

fn add_to(out: &mut Vec<u8>, to: i64) -> Result<(), AllocError>
    ensures { OnOk result (out.new.items ≡ out.old.items ++ to_words to) }
{
    out.extend_from_slice(b", ")?;
    add_signed(out, to)?;
    out.extend_from_slice(b"]")
}

fn add_part(out: &mut Vec<u8>, size: u64) -> Result<(), AllocError>
    ensures { OnOk result (out.new.items ≡ out.old.items ++ part_words size) }
{
    out.extend_from_slice(b", in a part of ")?;
    add_counted(out, size)?;
    out.extend_from_slice(b".\n")?;
    Ok(())
}

/// Two values that are no ends of an interval of a part of this size.
fn add_interval(
    out: &mut Vec<u8>,
    f: &Failure,
    term: &Term,
    from: i64,
    to: i64,
    size: u64,
) -> Result<(), AllocError>
    ensures { OnOk result (out.new.items ≡ out.old.items ++ interval_words (wanted_of f.now.branch term.now) from to size) }
{
    out.extend_from_slice(b"Wanted: ")?;
    add_wanted(out, term, f.branch)?;
    add_from(out, from)?;
    add_to(out, to)?;
    add_part(out, size)
}

/// What is wanted at a byte.
fn add_wanted_at(out: &mut Vec<u8>, at: u64, term: &Term, branch: u64) -> Result<(), AllocError>
    ensures { OnOk result (out.new.items ≡ out.old.items ++ wanted_at at (wanted_of branch term.now)) }
{
    out.extend_from_slice(b"Wanted at byte ")?;
    add_number(out, at)?;
    out.extend_from_slice(b": ")?;
    add_wanted(out, term, branch)
}

fn add_differs(
    out: &mut Vec<u8>,
    input: &[u8],
    f: &Failure,
    term: &Term,
    agreed: u64,
) -> Result<(), AllocError>
    ensures { OnOk result (out.new.items ≡ out.old.items ++ differs_words input.now f.now term.now agreed) }
{
    let at = f.place.saturating_sub(agreed);
    add_wanted_at(out, at, term, f.branch)?;
    add_stands(
        out,
        found_at(input, at, f.to, size_of(term, f.branch)),
        agreed,
    )
}

fn add_cut_short(out: &mut Vec<u8>, f: &Failure, term: &Term, left: u64) -> Result<(), AllocError>
    ensures { OnOk result (out.new.items ≡ out.old.items ++ cut_words f.now term.now left) }
{
    add_wanted_at(out, f.place.saturating_sub(left), term, f.branch)?;
    add_short(out, size_of(term, f.branch) as u64, left)
}

/// What is said where nothing is wanted of the input.
fn plain_words(cause: Cause) -> &'static [u8]
    ensures { result.now ≡ plain_words cause }
{
    match cause {
        Cause::IsZero => b"The test is 0.\n",
        Cause::NoValue => b"An expression of this term has no value.\n",
        _ => b"",
    }
}

fn add_cause(out: &mut Vec<u8>, input: &[u8], f: &Failure, term: &Term) -> Result<(), AllocError>
    ensures { OnOk result (out.new.items ≡ out.old.items ++ cause_words input.now f.now term.now f.now.cause) }
{
    match f.cause {
        Cause::Differs { agreed } => add_differs(out, input, f, term, agreed),
        Cause::CutShort { left } => add_cut_short(out, f, term, left),
        Cause::NoInterval { from, to } => {
            let size = u64::from(f.to.saturating_sub(f.from));
            add_interval(out, f, term, from, to, size)
        }
        _ => out.extend_from_slice(plain_words(f.cause)),
    }
}

/// Why a term failed.
pub fn add_why(
    out: &mut Vec<u8>,
    input: &[u8],
    f: &Failure,
    term: Option<&Term>,
) -> Result<(), AllocError>
    ensures { OnOk result (out.new.items ≡ out.old.items ++ why_line input.now f.now (option_copied term.entry)) }
{
    match term {
        Some(term) => add_cause(out, input, f, term),
        None => Ok(()),
    }
}

fn no_tree_words(in_many: bool) -> &'static [u8]
    ensures { result.now ≡ no_tree_words in_many }
{
    if in_many {
        b" has no tree here, and the repetition ends.\n"
    } else {
        b" has no tree here.\n"
    }
}

fn add_next(out: &mut Vec<u8>, name: &[u8]) -> Result<(), AllocError>
    ensures { OnOk result (out.new.items ≡ out.old.items ++ next_words name.now) }
{
    out.extend_from_slice(b"The next alternative of ")?;
    out.extend_from_slice(name)?;
    out.extend_from_slice(b" is tried.\n")?;
    Ok(())
}

fn add_rule_words(
    out: &mut Vec<u8>,
    name: &[u8],
    is_left: bool,
    in_many: bool,
) -> Result<(), AllocError>
    ensures { OnOk result (out.new.items ≡ out.old.items ++ rule_words name.now is_left in_many) }
{
    if is_left {
        return add_next(out, name);
    }
    out.extend_from_slice(name)?;
    out.extend_from_slice(no_tree_words(in_many))
}

/// What comes of it that a term failed: an item of a repetition ends it; else the next alternative is tried, or the call has no tree.
pub fn add_then(
    out: &mut Vec<u8>,
    subject: Subject<'_>,
    f: &Failure,
    ends: bool,
    in_many: bool,
) -> Result<(), AllocError>
    ensures { OnOk result (out.new.items ≡ out.old.items ++ spec.then_line (subject_of subject.entry) f.now ends in_many) }
{
    if ends {
        return out.extend_from_slice(b"The repetition ends here.\n");
    }
    let name = rule_name(subject.grammar, f.rule);
    let last = alternatives(subject.grammar, f.rule).saturating_sub(1);
    add_rule_words(out, name, (f.alt as usize) < last, in_many)
}
