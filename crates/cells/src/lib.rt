// The state of the search as one array of words that is changed in place: its tests and its changes.

#![tactic(auto)]

ghost use Rattle.std.specs.Prelude.{◌≡◌, ◌+◌, ◌≤◌, ◌<◌, ◌^◌, length, get_or};
ghost use Rattle.std.specs.Int.Bits.{bit_or};
ghost use Rattle.cells.specs.View.{ins, outs, sures, nevers, los, his, word_at, view, Blank, Prunes, NoneLeft, Sets, Puts, PutsBit, IsIn, IsOut, IsAhead, AllAhead, NotAhead, From, Till};

pub type State = [u32; 100];

// The sum of two numbers of 32 bits, which fits.
pub fn sum(x: u32, y: u32) -> u64
    ensures { (result ≡ x + y) × (result < 2 ^ 33) }
{
    u64::from(x) + u64::from(y)
}

// The jobs inside, as a word.
pub fn insides(s: &State) -> u32
    ensures { result ≡ word_at s.now ins }
{
    s[0]
}

// The jobs barred, as a word.
pub fn outsides(s: &State) -> u32
    ensures { result ≡ word_at s.now outs }
{
    s[1]
}

// The jobs that are over before b, as a word.
pub fn row_sure(s: &State, b: usize) -> u32
    requires { b < 24 }
    ensures { result ≡ word_at s.now (sures b) }
{
    s[4 * b + 4]
}

// The jobs that are not over before b, as a word.
pub fn row_never(s: &State, b: usize) -> u32
    requires { b < 24 }
    ensures { result ≡ word_at s.now (nevers b) }
{
    s[4 * b + 5]
}

// The earliest start of job j.
pub fn lo(s: &State, j: usize) -> u32
    requires { j < 24 }
    ensures { result ≡ (view s.now).lo j }
{
    s[4 * j + 6]
}

// The latest start of job j.
pub fn hi(s: &State, j: usize) -> u32
    requires { j < 24 }
    ensures { result ≡ (view s.now).hi j }
{
    s[4 * j + 7]
}

// Job j is in.
pub fn inside(s: &State, j: usize) -> bool
    requires { j < 24 }
    ensures { result ≡ (view s.now).inside j }
{
    jobs::has(s[0], j)
}

// Job j is out.
pub fn barred(s: &State, j: usize) -> bool
    requires { j < 24 }
    ensures { result ≡ (view s.now).barred j }
{
    jobs::has(s[1], j)
}

// a is over before b.
pub fn sure(s: &State, a: usize, b: usize) -> bool
    requires { (a < 24) × (b < 24) }
    ensures { result ≡ (view s.now).sure a b }
{
    jobs::has(s[4 * b + 4], a)
}

// a is not over before b.
pub fn never(s: &State, a: usize, b: usize) -> bool
    requires { (a < 24) × (b < 24) }
    ensures { result ≡ (view s.now).never a b }
{
    jobs::has(s[4 * b + 5], a)
}

// The word at i is x.
fn put(s: &mut [u32], i: usize, x: u32)
    requires { i < length s.old }
    ensures { Sets s.old i x s.new }
{
    s[i] = x;
}

// The word at i has the bits of v more.
fn put_bits(s: &mut [u32], i: usize, v: u32)
    requires { i < length s.old }
    ensures { Sets s.old i (bit_or (get_or s.old i 0) v) s.new }
{
    s[i] = s[i] | v;
}

// The word at i has bit j more.
fn put_bit(s: &mut [u32], i: usize, j: usize)
    requires { (i < length s.old) × (j < 24) }
    ensures { Sets s.old i (bit_or (get_or s.old i 0) (2 ^ j)) s.new }
{
    s[i] = jobs::with(s[i], j);
}

// The state that says nothing: every start up to 65,535 is free.
pub fn blank() -> State
    ensures { Blank result 24 }
{
    let mut s = [0u32; 100];
    for j in 0..24 {
        s[4 * j + 7] = 65535;
    }
    s
}

// Job j is in.
pub fn put_inside(s: &mut State, j: usize)
    requires { j < 24 }
    ensures { PutsBit (IsIn j) ins j s.old s.new }
{
    put_bit(s, 0, j);
}

// Job j is out.
pub fn put_barred(s: &mut State, j: usize)
    requires { j < 24 }
    ensures { PutsBit (IsOut j) outs j s.old s.new }
{
    put_bit(s, 1, j);
}

// a is over before b.
pub fn put_sure(s: &mut State, a: usize, b: usize)
    requires { (a < 24) × (b < 24) }
    ensures { PutsBit (IsAhead a b) (sures b) a s.old s.new }
{
    put_bit(s, 4 * b + 4, a);
}

// a is not over before b.
pub fn put_never(s: &mut State, a: usize, b: usize)
    requires { (a < 24) × (b < 24) }
    ensures { PutsBit (NotAhead a b) (nevers b) a s.old s.new }
{
    put_bit(s, 4 * b + 5, a);
}

// The jobs of v are over before b.
pub fn put_sures(s: &mut State, b: usize, v: u32)
    requires { b < 24 }
    ensures { Puts (AllAhead v b) (sures b) (bit_or (word_at s.old (sures b)) v) s.old s.new }
{
    put_bits(s, 4 * b + 4, v);
}

// Job j starts at x or later, which is no sooner than it was.
pub fn put_lo(s: &mut State, j: usize, x: u32)
    requires { (j < 24) × (word_at s.old (los j) ≤ x) }
    ensures { Puts (From j x) (los j) x s.old s.new }
{
    put(s, 4 * j + 6, x);
}

// Job j starts at x or earlier, which is no later than it was.
pub fn put_hi(s: &mut State, j: usize, x: u32)
    requires { (j < 24) × (x ≤ word_at s.old (his j)) }
    ensures { Puts (Till j x) (his j) x s.old s.new }
{
    put(s, 4 * j + 7, x);
}

// No plan is left: a job is inside and barred.
pub fn kill(s: &mut State)
    ensures { Prunes (NoneLeft s.old) s.old s.new }
{
    put_inside(s, 0);
    put_barred(s, 0);
}
