ghost use Rattle.std.specs.Prelude.{◌≡◌, ℕ, ◌+◌, ◌-◌, ◌<◌, ◌≤◌};
ghost use Rattle.sk_parts.specs.Cut.{cut_of, size_of};

use sk_base::Range;

/// Part `part`, counted from 0, of the indices `0..n` cut into `p` consecutive parts. Their sizes differ by at most one,
/// and the longer ones come first.
pub fn cut(n: u32, p: u32, part: u32) -> Range
    requires { part < p }
    ensures lo { result.lo ≡ (cut_of n p part).lo }
    ensures hi { result.hi ≡ (cut_of n p part).hi }
    ensures within { result.hi ≤ n }
{
    let size = n / p;
    let longer = n % p;
    let lo = part * size + part.min(longer);
    let hi = lo + size + u32::from(part < longer);
    Range { lo, hi }
}

/// What every cut has: its parts follow one another from 0 to `n`, and a later part is as long as an earlier one or one
/// shorter. It runs nothing.
pub fn cut_covers(n: u32, p: u32, part: u32, later: u32)
    requires part { part ≤ later }
    requires later { later < p }
    ensures first { (cut_of n p 0).lo ≡ 0 }
    ensures next { (cut_of n p part).hi ≡ (cut_of n p (part + 1)).lo }
    ensures last { (cut_of n p (p - 1)).hi ≡ n }
    ensures longer_first { size_of n p later ≤ size_of n p part }
    ensures even { size_of n p part ≤ size_of n p later + 1 }
{}
