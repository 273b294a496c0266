ghost use Rattle.std.specs.Prelude.{◌≡◌, ◌+◌, ◌^◌, ◌<◌, ◌≤◌, ◌+ℤ◌, ◌-ℤ◌, length, slice_set, MatchOption};
ghost use Rattle.std.specs.Int.RustNames.{unsigned_abs};
ghost use Rattle.ipg_solve_potentials.specs.Falls.{level_at, AreEdges, AllFall};
ghost use Rattle.ipg_solve_potentials.specs.Trails.{AreSmall, FallBetween, IsWrong, is_wrong};

use crate::difference::Difference;

fn plus(x: i128, y: i128) -> i128
    requires { unsigned_abs x + unsigned_abs y < 2 ^ 127 }
    ensures { result ≡ x +ℤ y }
{
    x + y
}

fn minus(x: i128, y: i128) -> i128
    requires { unsigned_abs x + unsigned_abs y < 2 ^ 127 }
    ensures { result ≡ x -ℤ y }
{
    x - y
}

/// How low the edge's end must be.
pub fn reached(levels: &[i128], edge: Difference) -> i128
    requires within { edge.from < length levels.now }
    requires size { unsigned_abs (level_at levels.now edge.from) + unsigned_abs edge.fall < 2 ^ 127 }
    ensures { result ≡ level_at levels.now edge.from -ℤ edge.fall }
{
    minus(levels[edge.from], edge.fall)
}

pub fn put_level(levels: &mut Vec<i128>, node: usize, level: i128)
    requires { node < length levels.old.items }
    ensures { levels.new.items ≡ slice_set levels.old.items node level }
{
    levels[node] = level;
}

/// Whether the level falls less than the edge says.
fn is_wrong(levels: &[i128], edge: Difference) -> bool
    requires from { edge.from < length levels.now }
    requires to { edge.to < length levels.now }
    requires size { unsigned_abs (level_at levels.now edge.to) + unsigned_abs edge.fall < 2 ^ 127 }
    ensures { result ≡ is_wrong levels.now edge }
{
    levels[edge.from] < plus(levels[edge.to], edge.fall)
}

/// The first edge from the one number to before the other that the levels break.
fn wrong_between(levels: &[i128], edges: &[Difference], from: usize, to: usize) -> Option<usize>
    requires edges { AreEdges (length levels.now) edges.now }
    requires few { length levels.now ≤ 2 ^ 22 }
    requires small { AreSmall levels.now }
    requires within { to ≤ length edges.now }
    ensures { MatchOption result (FallBetween from to levels.now edges.now) (λ n. IsWrong levels.now edges.now n) }
{
    for n in from..to {
        if is_wrong(levels, edges[n]) {
            return Some(n);
        }
    }
    None
}

/// The first edge that the levels break, from this one on and then round from the first one.
pub fn next_wrong(levels: &[i128], edges: &[Difference], from: usize) -> Option<usize>
    requires edges { AreEdges (length levels.now) edges.now }
    requires few { length levels.now ≤ 2 ^ 22 }
    requires small { AreSmall levels.now }
    requires within { from ≤ length edges.now }
    ensures { MatchOption result (AllFall levels.now edges.now) (λ n. IsWrong levels.now edges.now n) }
{
    match wrong_between(levels, edges, from, edges.len()) {
        Some(n) => Some(n),
        None => wrong_between(levels, edges, 0, from),
    }
}
