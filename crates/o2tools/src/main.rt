//! The program: what the system gives, handed to the tool that the words name.
#![tactic(auto)]

mod descriptors;
mod ending;

use descriptors::open_standard;
use ending::Ending;
use o2_disk::{FileDisk, StdSink};
use o2_tools::run;
use std::env;
use std::process::ExitCode;
use std::random::RandomSource;
use std::time::{SystemTime, UNIX_EPOCH};

// The command line's words behind the program's name.
fn words(rt: HostRuntime) -> Result<Vec<String>, Ending> {
    let mut words = Vec::new(rt.alloc());
    for word in env::args(&rt)?.skip(1) {
        if words.push(word).is_err() {
            return Err(Ending::NoMemory);
        }
    }
    Ok(words)
}

fn random(rt: HostRuntime) -> Result<[u8; 24], Ending> {
    let mut bytes = [0; 24];
    match rt.fill_bytes(&mut bytes) {
        Ok(()) => Ok(bytes),
        Err(_) => Err(Ending::NoRandom),
    }
}

// The seconds since 1970, and 0 where the clock can't be read or is set before that.
fn now(rt: HostRuntime) -> u64 {
    match SystemTime::now(&rt) {
        Ok(time) => time
            .duration_since(UNIX_EPOCH)
            .map_or(0, |past| past.as_secs()),
        Err(_) => 0,
    }
}

fn status(rt: HostRuntime) -> Result<u8, Ending> {
    if open_standard(rt).is_err() {
        return Err(Ending::NoNull);
    }
    let words = words(rt)?;
    let random = random(rt)?;
    let mut device = FileDisk::new(rt, rt.alloc());
    let mut other = FileDisk::new(rt, rt.alloc());
    let mut out = StdSink::new(rt);
    let done = run(
        rt.alloc(),
        &words,
        &mut device,
        &mut other,
        &mut out,
        now(rt),
        &random,
    );
    Ok(done.status)
}

fn main(rt: HostRuntime) -> ExitCode {
    let status = match status(rt) {
        Ok(status) => status,
        Err(ending) => ending.status(),
    };
    ExitCode::from(status)
}
