// Who can support a fact of a consumer: a job, or End for 24.

#![tactic(auto)]

ghost use Rattle.std.specs.Prelude.{◌≡◌, List, ℕ, ◌≤◌, ◌<◌};
ghost use Rattle.facts.specs.Words.{Decides};
ghost use Rattle.states.specs.State.{Search, surely_late, surely_done, useless, serves, there, StartMay};
ghost use Rattle.cells.specs.View.{view};
ghost use Rattle.lent.specs.Lent.{Cols, Kills, Lent};
ghost use Rattle.lent.specs.Consumers.{who_at};
ghost use Rattle.supports.specs.Supports.{Sifts, OtherThreat, Threat, Danger, Candidate, FairSupport, Sight};

use cells::State;
use lent::Tables;

// The consumer b is surely there; End always is.
pub fn there_for(s: &State, b: usize) -> bool
    requires { b ≤ 24 }
    ensures { result ≡ there (view s.now) (who_at b) }
{
    b == 24 || cells::inside(s, b)
}

// The consumer b is surely not over before d.
pub fn late_for(s: &State, b: usize, d: usize) -> bool
    requires { (b ≤ 24) × (d < 24) }
    ensures { result ≡ surely_late (view s.now) (who_at b) d }
{
    b == 24 || cells::never(s, b, d)
}

// The consumer b is surely over before d starts; End never is.
fn done_for(s: &State, b: usize, d: usize) -> bool
    requires { (b ≤ 24) × (d < 24) }
    ensures { result ≡ surely_done (view s.now) (who_at b) d }
{
    b != 24 && cells::sure(s, b, d)
}

// Job a is surely not over before the consumer b.
fn useless_for(s: &State, a: usize, b: usize) -> bool
    requires { (b ≤ 24) × (a < 24) }
    ensures { result ≡ useless (view s.now) a (who_at b) }
{
    b != 24 && cells::never(s, a, b)
}

// Job a is surely over before the consumer b.
pub fn serves_for(s: &State, a: usize, b: usize) -> bool
    requires { (b ≤ 24) × (a < 24) }
    ensures { result ≡ serves (view s.now) a (who_at b) }
{
    b == 24 || cells::sure(s, a, b)
}

// The jobs of the word that pass the test.
fn sifted<F: Fn(usize) -> bool>(all: u32, test: F) -> u32
    requires { (j : ℕ) → j < 24 → F.pre test j }
    ensures { Sifts (F.post test) all result }
{
    let mut w: u32 = 0;
    for j in jobs::each(all) {
        if j < 24 {
            w = jobs::with_if(w, j, test(j));
        }
    }
    w
}

// Another job d, before which the consumer is surely not over, or not surely over: `sure` says which, as callers of `threats` do.
fn threat_at(s: &State, b: usize, d: usize, sure: bool) -> bool
    requires { (b ≤ 24) × (d < 24) }
    ensures { Decides result (OtherThreat sure s.now b d) }
{
    if d == b {
        return false;
    }
    if sure {
        late_for(s, b, d)
    } else {
        !done_for(s, b, d)
    }
}

// The jobs inside that delete the fact whose deleters are `kills`, and before which the consumer is surely not over, or not surely over.
pub fn threats(s: &State, b: usize, kills: u32, sure: bool) -> u32
    requires { b ≤ 24 }
    ensures { (P : Search) (p : ℕ) → Cols (Kills P.problem p) kills 24 → Cols (Threat sure P s.now p b) result 24 }
{
    sifted(kills & cells::insides(s), |d| threat_at(s, b, d, sure))
}

// Job a is not out, may be over before the consumer b, and no danger surely follows it.
fn fair_at(s: &State, b: usize, a: usize, dang: u32) -> bool
    requires { (b ≤ 24) × (a < 24) }
    ensures { Decides result (FairSupport s.now b dang a) }
{
    a != b && !cells::barred(s, a) && !useless_for(s, a, b) && (cells::row_never(s, a) & dang) == 0
}

// The candidates among those that add the fact.
pub fn cands(s: &State, b: usize, adders: u32, dang: u32) -> u32
    requires { b ≤ 24 }
    ensures { (P : Search) (p : ℕ) → Sight P s.now p b adders dang → Cols (Candidate P s.now p b) result 24 }
{
    sifted(adders, |a| fair_at(s, b, a, dang))
}

// Start is a candidate: the fact is open and there is no danger.
pub fn may_start(t: &Tables, p: usize, dang: u32) -> bool
    requires { p < 64 }
    ensures { (P : Search) (s : List ℕ) (b : ℕ) → Lent t.now P → Cols (Danger P s p b) dang 24 → Decides result (StartMay P (view s) p (who_at b)) }
{
    dang == 0 && facts::has(lent::opening(t), p)
}
