ghost use Rattle.std.specs.Prelude.{◌≡◌};
ghost use Rattle.ipg_read_syntax.specs.Limits.{limit};
ghost use Rattle.ipg_read_syntax.specs.Counting as C;
ghost use Rattle.ipg_read.specs.Counted.{seen_of};

use ipg_read_tokens::Which;

/// A limit that is passed, and the number of the token there.
#[derive(Clone, Copy)]
pub struct Over {
    pub which: Which,
    pub at: usize,
}

/// How many rules there are so far, and the first limit passed.
#[derive(Clone, Copy)]
pub struct Seen {
    pub rules: u16,
    pub over: Option<Over>,
}

fn limit_of(which: Which) -> u16
    ensures { result ≡ limit which }
{
    match which {
        Which::Rules => 1024,
        Which::Alternatives => 64,
        Which::Terms => 256,
        Which::Depth => 64,
    }
}

/// One more, up to one past the limit.
pub fn more(which: Which, n: u16) -> u16
    ensures { result ≡ C.more which n }
{
    n.min(limit_of(which)) + 1
}

pub fn deeper(n: u16) -> u16
    ensures { result ≡ C.deeper n }
{
    more(Which::Depth, n)
}

pub fn noted(which: Which, count: u16, at: usize, seen: Seen) -> Seen
    ensures { seen_of result ≡ C.noted which count at (seen_of seen) }
{
    if seen.over.is_none() && count > limit_of(which) {
        Seen {
            rules: seen.rules,
            over: Some(Over { which, at }),
        }
    } else {
        seen
    }
}

pub fn noted_rule(at: usize, seen: Seen) -> Seen
    ensures { seen_of result ≡ C.noted_rule at (seen_of seen) }
{
    let rules = more(Which::Rules, seen.rules);
    let over = seen.over;
    noted(Which::Rules, rules, at, Seen { rules, over })
}
