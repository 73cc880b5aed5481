// Reads the groups of batches on standard input, a byte each, and writes the job file of their table with bound 0, or three bytes: the refusal's
// number, and its place, low byte first.

#![tactic(auto)]

use std::io;
use std::io::{Input, Print};
use tables::Answer;

// Writes a refusal.
fn refuse<R: Print>(rt: &R, a: Answer) -> io::Result<()> {
    let [low, high] = a.place.to_le_bytes();
    rt.write_all(&[a.number, low, high])
}

// Writes what the batches make.
fn write<R: Print>(rt: &R, groups: &[u8], out: &mut [u8]) -> io::Result<()> {
    let r = batches::expand(groups, 24);
    let a = r.answer;
    if a.number != 0 {
        return refuse(rt, a);
    }
    let w = jobfile_write::write_file(r.table, r.ask, 0, out);
    let n = (w.value as usize).min(out.len());
    rt.write_all(&out[..n])
}

// Reads as many groups as there is room for, and writes what they make.
fn expand<R: Input + Print>(rt: &R, space: &mut [u8], out: &mut [u8]) -> io::Result<()> {
    let n = streams::read_full(&mut rt.reader(), space)?;
    write(rt, &space[..n], out)
}

// A place has 16 bits: an unknown group behind 65,536 others is not looked for.
fn main(rt: HostRuntime) -> io::Result<()> {
    let mut space = [0u8; 65536];
    let mut out = [0u8; 1024];
    expand(&rt, &mut space, &mut out)
}
