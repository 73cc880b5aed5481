// Tidying a job file in the lent buffer.

#![tactic(auto)]

ghost use Rattle.std.specs.Prelude.{◌≡◌, ◌-◌, ◌≤◌, length, take};
ghost use Rattle.jobfile.specs.Format.{trailer_at, trailer_in, distance_in, save_length};
ghost use Rattle.jobfile.specs.Tidy.{pulled, Tidies};
ghost use Rattle.jobfile_tidy.specs.Copies.{forwards};

use tables::Answer;

// The last n of the bytes in use to the front, as copying them forwards leaves them, and zeros behind them.
fn pull(n: usize, used: usize, buf: &mut [u8])
    requires { (n ≤ used) × (used ≤ length buf.old) }
    ensures bytes { buf.new ≡ pulled n used buf.old }
    ensures copied { take n buf.new ≡ take n (forwards (used - n) n buf.old) }
{
    buf.copy_within(used - n..used, 0);
    buf[n..used].fill(0);
}

// How long the last save of a file is, its notes included.
fn save_length(file: &[u8]) -> usize
    requires { (24 ≤ length file.now) × (distance_in (trailer_in file.now) ≤ trailer_at file.now) }
    ensures { result ≡ save_length file.now }
{
    let start = file.len() - 24;
    jobfile_read::distance_in(&file[start..]) + 24
}

// Moves the last save of the bytes in use to the front, and returns the new length.
pub fn tidy(used: usize, buf: &mut [u8]) -> Answer
    ensures { Tidies used buf.old buf.new result }
{
    if 65536 < used {
        return tables::refuse(1, 0, 0);
    }
    if buf.len() < used {
        return tables::refuse(3, 0, 0);
    }
    let a = jobfile_read::read_file(&buf[..used], 255).answer;
    if a.number != 0 {
        return a;
    }
    let long = save_length(&buf[..used]);
    pull(long, used, buf);
    tables::done(long as u32)
}
