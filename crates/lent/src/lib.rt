// The problem of a search as one lent table: what stands where, and how it is read.

#![tactic(auto)]

ghost use Rattle.std.specs.Prelude.{◌≡◌, ◌+◌, ◌*◌, ◌≤◌, ◌<◌, ◌%◌, ◌^◌, length};
ghost use Rattle.facts.specs.Facts.{has};
ghost use Rattle.facts.specs.Least.{least};
ghost use Rattle.cells.specs.View.{Sets};
ghost use Rattle.lent.specs.Lent.{wants_of, opening_of, adders_of, killers_of, step_of, hits_of, count_of, gap_of, bound_of, est_of, wait_of, led_of};

pub type Tables = [u64; 853];

// The lower half of a word.
fn low(x: u64) -> u32
    ensures { result ≡ x % 2 ^ 32 }
{
    (x % 4294967296) as u32
}

// The conditions of job b, for 24 the goals.
pub fn wants(t: &Tables, b: usize) -> u64
    requires { b ≤ 24 }
    ensures { result ≡ wants_of t.now b }
{
    t[b]
}

// The opening facts.
pub fn opening(t: &Tables) -> u64
    ensures { result ≡ opening_of t.now }
{
    t[25]
}

// The jobs that add the fact p.
pub fn adders(t: &Tables, p: usize) -> u32
    requires { p < 64 }
    ensures { result ≡ adders_of t.now p }
{
    low(t[p + 26])
}

// The jobs that delete it.
pub fn killers(t: &Tables, p: usize) -> u32
    requires { p < 64 }
    ensures { result ≡ killers_of t.now p }
{
    low(t[p + 90])
}

// How long job a takes, with the gap behind it.
pub fn step(t: &Tables, a: usize) -> u32
    requires { a < 24 }
    ensures { result ≡ step_of t.now a }
{
    low(t[a + 154])
}

// The jobs that interfere with a.
pub fn hits(t: &Tables, a: usize) -> u32
    requires { a < 24 }
    ensures { result ≡ hits_of t.now a }
{
    low(t[a + 178])
}

// Where job a begins at the earliest.
pub fn est(t: &Tables, a: usize) -> u32
    requires { a < 24 }
    ensures { result ≡ est_of t.now a }
{
    low(t[a + 202])
}

// How long after the start of job a job b starts at the earliest if a is over before it; for 24 how long the plan lasts.
pub fn wait(t: &Tables, a: usize, b: usize) -> u32
    requires { (a < 24) × (b ≤ 24) }
    ensures { result ≡ wait_of t.now a b }
{
    low(t[25 * a + b + 228])
}

// The job that job a leads in the first plan, or 24.
pub fn led(t: &Tables, a: usize) -> usize
    requires { a < 24 }
    ensures { result ≡ led_of t.now a }
{
    low(t[a + 828]) as usize
}

// How many jobs there are.
pub fn count(t: &Tables) -> usize
    ensures { result ≡ count_of t.now }
{
    low(t[226]) as usize
}

// The gap between jobs that bind.
pub fn gap(t: &Tables) -> u32
    ensures { result ≡ gap_of t.now }
{
    low(t[227])
}

// The bound.
pub fn bound(t: &Tables) -> u32
    ensures { result ≡ bound_of t.now }
{
    low(t[852])
}

// The word at i is x.
fn put(t: &mut [u64], i: usize, x: u64)
    requires { i < length t.old }
    ensures { Sets t.old i x t.new }
{
    t[i] = x;
}

// The wait of a and b is x.
pub fn put_wait(t: &mut Tables, a: usize, b: usize, x: u64)
    requires { (a < 24) × (b ≤ 24) }
    ensures { Sets t.old (25 * a + b + 228) x t.new }
{
    put(t, 25 * a + b + 228, x);
}

// Job a leads n.
pub fn put_led(t: &mut Tables, a: usize, n: usize)
    requires { a < 24 }
    ensures { Sets t.old (a + 828) n t.new }
{
    put(t, a + 828, n as u64);
}

// The bound is x.
pub fn put_bound(t: &mut Tables, x: u32)
    ensures { Sets t.old 852 x t.new }
{
    put(t, 852, u64::from(x));
}
