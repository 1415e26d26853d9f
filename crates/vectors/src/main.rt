//! Compares every way to compute a hash with the values of the reference library, a table on standard input.
//! `oracle/vectors.c` documents its format.
#![tactic(auto)]

mod kernels;
mod rows;
mod ways;

use crate::rows::Row;
use std::io;
use std::process::ExitCode;

// Number of test cases that agree, and of those that don't.
#[derive(Clone, Copy)]
struct Counts {
    agreeing: u64,
    disagreeing: u64,
}

fn compare(rt: &HostRuntime, table: &str) -> io::Result<Counts> {
    let mut counts = Counts {
        agreeing: 0,
        disagreeing: 0,
    };
    for line in table.lines() {
        if line.starts_with('#') {
            continue;
        }
        let agrees = match Row::parse(line) {
            Some(row) => ways::agree(rt.alloc(), &row)?,
            None => false,
        };
        if agrees {
            counts.agreeing = counts.agreeing.saturating_add(1);
        } else {
            counts.disagreeing = counts.disagreeing.saturating_add(1);
            println!(rt; "disagrees: {line}")?;
        }
    }
    Ok(counts)
}

fn main(rt: HostRuntime) -> io::Result<ExitCode> {
    let table = io::read_to_string(rt.alloc(), rt.stdin())?;
    let Counts {
        agreeing,
        disagreeing,
    } = compare(&rt, table.as_str())?;
    println!(rt; "{agreeing} rows agree, {disagreeing} do not")?;
    Ok(ExitCode::from(u8::from(disagreeing > 0 || agreeing == 0)))
}
