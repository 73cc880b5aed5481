// Writes the plan of a job file as text, or checks a plan that is given as text. Standard input is a byte, 0 to write and 1 to check, the lengths of
// the job file and of the name table, four bytes each, lowest byte first, and then the job file, the name table and the text.

#![tactic(auto)]

use std::io;
use std::io::{Input, Print};
use tables::{Answer, Ask, Loaded};

// What is asked for: the plan's text, or a verdict on the text of one.
#[derive(Clone, Copy)]
enum Asked {
    Write,
    Check,
}

impl From<u8> for Asked {
    fn from(byte: u8) -> Asked {
        if byte == 0 {
            Asked::Write
        } else {
            Asked::Check
        }
    }
}

// Prints a refusal as bench-plan does.
fn refuse<R: Print>(rt: &R, a: Answer) -> io::Result<()> {
    println!(rt; "refused {} {}", a.number, a.place)
}

// Writes the plan of the least bound.
fn write<R: Print>(
    rt: &R,
    l: Loaded,
    q: Ask,
    names: &[u8],
    starts: &mut [u16],
    out: &mut [u8],
) -> io::Result<()> {
    let planned = planning::least_bound(l, q, starts);
    if planned.number != 0 {
        return refuse(rt, planned);
    }
    let a = plantext_write::write_text(l, q, names, starts, out);
    if a.number != 0 {
        return refuse(rt, a);
    }
    let n = (a.value as usize).min(out.len());
    rt.write_all(&out[..n])
}

// Says whether the plan that the text gives is valid.
fn check<R: Print>(
    rt: &R,
    l: Loaded,
    q: Ask,
    names: &[u8],
    text: &[u8],
    starts: &mut [u16],
) -> io::Result<()> {
    let read = plantext_read::read_text(l, q, names, text, starts);
    if read.number != 0 {
        return refuse(rt, read);
    }
    let a = verdict::check_plan(l, q, starts);
    if a.number != 0 {
        return refuse(rt, a);
    }
    rt.write_all(b"valid\n")
}

// Does what is asked of a job file with names.
fn exchange<R: Print>(
    rt: &R,
    asked: Asked,
    file: &[u8],
    names: &[u8],
    text: &[u8],
    out: &mut [u8],
) -> io::Result<()> {
    let read = jobfile_read::read_file(file, 255);
    let a = read.answer;
    if a.number != 0 {
        return refuse(rt, a);
    }
    let mut space = [65535u16; 24];
    let starts: &mut [u16] = &mut space;
    match asked {
        Asked::Write => write(rt, read.table, read.ask, names, starts, out),
        Asked::Check => check(rt, read.table, read.ask, names, text, starts),
    }
}

// Takes apart what stands behind the file; a length that is more than there is means all of it.
fn with_file<R: Print>(
    rt: &R,
    asked: Asked,
    told: u32,
    file: &[u8],
    rest: &[u8],
    out: &mut [u8],
) -> io::Result<()> {
    let n = (told as usize).min(rest.len());
    exchange(rt, asked, file, &rest[..n], &rest[n..], out)
}

// Takes apart what was read.
fn take_apart<R: Print>(rt: &R, given: &[u8], out: &mut [u8]) -> io::Result<()> {
    if given.len() < 9 {
        return refuse(rt, tables::refuse(2, 0, 0));
    }
    let file = bytes_le::number(given, 1, 4) as u32;
    let names = bytes_le::number(given, 5, 4) as u32;
    let rest = &given[9..];
    let n = (file as usize).min(rest.len());
    with_file(rt, given[0].into(), names, &rest[..n], &rest[n..], out)
}

// Reads as much as there is room for.
fn run<R: Input + Print>(rt: &R, space: &mut [u8], out: &mut [u8]) -> io::Result<()> {
    let n = streams::read_full(&mut rt.reader(), space)?;
    take_apart(rt, &space[..n], out)
}

// One byte more than a job file may have, 16 bytes of names for each of 255 jobs, and 65,536 of text are read.
fn main(rt: HostRuntime) -> io::Result<()> {
    let mut space = [0u8; 135162];
    let mut out = [0u8; 1024];
    run(&rt, &mut space, &mut out)
}
