// Numbers by job: 24 of them by value, compared and filled into lent memory.

#![tactic(auto)]

ghost use Rattle.std.specs.Prelude.{◌≡◌, ◌≤◌, ◌<◌, length};
ghost use Rattle.facts.specs.Words.{Decides};
ghost use Rattle.tables.specs.Tables.{filled};
ghost use Rattle.entries.specs.Entries.{entry, Same};

// The first n numbers of both are the same.
pub fn same(a: [u16; 24], b: [u16; 24], n: usize) -> bool
    requires { n ≤ 24 }
    ensures { Decides result (Same a b n) }
{
    (0..n).all(|i| a[i] == b[i])
}

// The first n numbers into lent memory.
pub fn fill(out: &mut [u16], from: [u16; 24], n: usize)
    requires { (n ≤ 24) × (n ≤ length out.old) }
    ensures { out.new ≡ filled (entry from) n out.old }
{
    out[..n].copy_from_slice(&from[..n]);
}
