// Runs every schedule that its arguments name, and compares what is printed with the text that stands beside the schedule, byte for byte.
#![tactic(auto)]

ghost use Rattle.io.specs.Counts.{IsPrefixLen};

use std::env::FillError;
use std::fs::File;
use std::rt::Env;
use std::{fs, io, str};
use text::Page;

// The bytes that are kept of an argument and of a path: no file has a longer one. Buffers are fixed, with a count beside, since nothing is allocated.
const PATH: usize = 4096;

// Opens the file at a path, to read it; a path that isn't text names none.
fn open(rt: &HostRuntime, path: &[u8]) -> io::Result<File> {
    match str::from_utf8(path) {
        Ok(path) => fs::open(rt, path),
        Err(_) => Err(io::Error::from(io::ErrorKind::InvalidFilename)),
    }
}

// A line on standard error: the case, and why it can't be read. Where that line can't be written, the run goes on all the same.
fn tell_error(rt: &HostRuntime, name: &[u8], error: io::Error) {
    let err = rt.stderr();
    let _ = err.write_all(name);
    let _ = err.println(format_args!(": {error}"));
}

// Reads the file of a case, its name and an ending, to the start of a buffer; how much of it was read, up to a read that fails. Of a file that can't be opened that is nothing.
fn read_case(rt: &HostRuntime, name: &[u8], ending: &[u8], into: &mut [u8]) -> usize
    ensures { IsPrefixLen result into.new }
{
    let mut path = [0u8; PATH];
    let mut page = Page::new(&mut path);
    page.put(name);
    page.put(ending);
    match open(rt, page.text()) {
        Ok(mut file) => {
            let (read, _ended) = input::read_full(&mut file, into);
            read
        }
        Err(error) => {
            tell_error(rt, name, error);
            0
        }
    }
}

// What the case's schedule prints is its text.
fn agrees(rt: &HostRuntime, name: &[u8]) -> bool {
    let mut schedule = [0u8; replay::READ];
    let read = read_case(rt, name, b".bin", &mut schedule);
    let mut printed = [0u8; replay::PRINTED];
    let end = replay::run(&schedule[..read], &mut printed);
    let mut text = [0u8; replay::PRINTED];
    let length = read_case(rt, name, b".txt", &mut text);
    printed[..end] == text[..length]
}

// The case of an argument: its name, and whether it agrees. False where there is no such argument, a yes or no with no value beside it; one that is too long for any path counts as empty.
fn tell(rt: &HostRuntime, i: usize) -> io::Result<bool> {
    let mut name = [0u8; PATH];
    let length = match rt.arg(i, &mut name) {
        Ok(length) => length,
        Err(FillError::TooLong) => 0,
        Err(FillError::NotPresent) => return Ok(false),
    };
    rt.write_all(&name[..length])?;
    if agrees(rt, &name[..length]) {
        rt.write_all(b" ok\n")?;
    } else {
        rt.write_all(b" not ok\n")?;
    }
    Ok(true)
}

fn main(rt: HostRuntime) -> io::Result<()> {
    for i in 1..usize::MAX {
        if !tell(&rt, i)? {
            break;
        }
    }
    Ok(())
}
