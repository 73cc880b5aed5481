// Reads a job file on standard input and prints its least bound, plan and binding pairs, or the refusal.

#![tactic(auto)]

use std::io;
use std::io::{Input, Print};

// Prints what the page of a file holds.
fn print<R: Print>(rt: &R, file: &[u8], text: &mut [u8]) -> io::Result<()> {
    let a = page::page(file, text);
    let n = (a.value as usize).min(text.len());
    rt.write_all(&text[..n])
}

// Reads as much as there is room for, and prints its page.
fn plan<R: Input + Print>(rt: &R, space: &mut [u8], text: &mut [u8]) -> io::Result<()> {
    let n = streams::read_full(&mut rt.reader(), space)?;
    print(rt, &space[..n], text)
}

// One byte more than a file may have is read, so that a longer file is seen and refused. The room of each program is its own.
fn main(rt: HostRuntime) -> io::Result<()> {
    let mut space = [0u8; 65537];
    let mut text = [0u8; 8192];
    plan(&rt, &mut space, &mut text)
}
