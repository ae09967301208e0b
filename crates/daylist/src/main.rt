//! A day file on standard input, its listing on standard output, the STOP line last where the listing stops.
#![tactic(auto)]

use listing::listing::{FILE_LIMIT, Listing, list, stop_line};
use listing::stop::Stop;
use std::io::{Read, Write};

/// Room for the listing of every file: no record brings about more than five bytes of listing for each of its own.
const ROOM: usize = 5 * FILE_LIMIT;

/// Room for every STOP line.
const STOP_ROOM: usize = 68;

/// The day file. One byte past the limit is enough for the library to see that a file is too long.
fn read_file(rt: &HostRuntime) -> anyhow::Result<Vec<u8>> {
    let mut file = Vec::new(rt.alloc());
    rt.stdin()
        .take(FILE_LIMIT as u64 + 1)
        .read_to_end(&mut file)?;
    Ok(file)
}

fn print_stop(rt: &HostRuntime, stop: Stop) -> anyhow::Result<()> {
    let mut line = [0; STOP_ROOM];
    if let Ok(length) = stop_line(stop, &mut line) {
        rt.stdout().write_all(&line[0..length])?;
    }
    Ok(())
}

fn run(rt: &HostRuntime) -> anyhow::Result<()> {
    let file = read_file(rt)?;
    let mut out = vec![in rt.alloc(); 0u8; ROOM]?;
    let Listing { length, stop } = list(&file, &mut out);
    rt.stdout().write_all(&out[0..length])?;
    match stop {
        None => Ok(()),
        Some(stop) => print_stop(rt, stop),
    }
}

fn main(rt: HostRuntime) -> anyhow::Result<()> {
    run(&rt)
}
