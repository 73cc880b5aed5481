// A set of jobs as one word of 32 bits, job 0 the lowest. What `facts` does at 64 bits stands here at 32 where the word comes back: one trait over both
// would have an impl for each width, with the same bodies.

#![tactic(auto)]

ghost use Rattle.std.specs.Prelude.{◌≡◌, Bool, not, ◌&&◌, ℕ, ◌≤◌, ◌<◌, ◌^◌, T, ltb};
ghost use Rattle.std.specs.Int.Bits.{bit_or};
ghost use Rattle.facts.specs.Facts.{has};
ghost use Rattle.facts.specs.Words.{Word, Covers, Decides};
ghost use Rattle.facts.specs.Least.{least};
ghost use Rattle.facts.specs.Walks.{Walk};
ghost use Rattle.facts.specs.Tests.{Agrees};
ghost use Rattle.jobs.specs.Jobs.{Noted, Lack, Single};

use facts::Members;

// Bit j of w.
pub fn has(w: u32, j: usize) -> bool
    requires { j < 24 }
    ensures { result ≡ has w j }
{
    (w >> j) % 2 == 1
}

// w with bit j set.
pub fn with(w: u32, j: usize) -> u32
    requires { j < 24 }
    ensures { result ≡ bit_or w (2 ^ j) }
{
    w | (1u32 << j)
}

// w with bit j where the flag says so and j is a job.
pub fn with_if(w: u32, j: usize, flag: bool) -> u32
    ensures { Noted (T flag) j w result }
{
    if !flag {
        return w;
    }
    if 24 <= j {
        return w;
    }
    with(w, j)
}

// Every bit of w is in v.
pub fn within(w: u32, v: u32) -> bool
    ensures { Decides result (Covers v w) }
{
    facts::covers(u64::from(v), u64::from(w))
}

// The lowest bit of w, or 32, as the clause `least` says it.
pub fn lowest(w: u32) -> usize
    ensures { result ≡ least (has w) 32 }
{
    u32::trailing_zeros(w) as usize
}

// w without its lowest bit.
pub fn rest(w: u32) -> u32
    requires { 0 < w }
    ensures { Walk 32 w result }
{
    w & (w - 1)
}

// The jobs of a word, the lowest first.
pub fn each(w: u32) -> Members
    ensures { result.left ≡ w }
{
    facts::each(u64::from(w))
}

// The jobs below n that pass the test, as a word.
pub fn those<F: Fn(usize) -> bool>(n: usize, test: F) -> u32
    requires few { n ≤ 24 }
    requires callable { (i : ℕ) → i < n → F.pre test i }
    ensures word { (f : ℕ → Bool) → ((i : ℕ) → i < n → Agrees f i (F.post test i)) → Word (λ p. ltb p n && f p) result }
    ensures below { (p : ℕ) → T (has result p) → p < n }
{
    facts::those(n, test) as u32
}

// The jobs of w that are not in v.
pub fn outside(w: u32, v: u32) -> u32
    ensures { Word (λ b. has w b && not (has v b)) result }
{
    w & !v
}

// The first job of w that is not in v.
pub fn lack(w: u32, v: u32) -> Option<usize>
    ensures { Lack w v result }
{
    let d = lowest(outside(w, v));
    if d < 24 { Some(d) } else { None }
}

// The one bit of w, if it is a job.
pub fn single(w: u32) -> Option<usize>
    ensures { Single w result }
{
    if w == 0 || rest(w) != 0 {
        return None;
    }
    let a = lowest(w);
    if a < 24 { Some(a) } else { None }
}
