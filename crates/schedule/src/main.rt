// Runs the schedule on standard input, and writes the lines that it prints.
#![tactic(auto)]

use std::io;

// What a schedule prints is written out. The buffer is local here, where it is zeroed once: a local of `main` is zeroed at its start too.
fn write_run(rt: &HostRuntime, schedule: &[u8]) -> io::Result<()> {
    let mut out = [0u8; replay::PRINTED];
    let end = replay::run(schedule, &mut out);
    rt.write_all(&out[..end])
}

// Fixed buffers, with the count of what stands in them beside: nothing is allocated.
fn main(rt: HostRuntime) -> io::Result<()> {
    let mut bytes = [0u8; replay::READ];
    let (read, ended) = input::read_full(&mut rt.stdin(), &mut bytes);
    ended?;
    write_run(&rt, &bytes[..read])
}
