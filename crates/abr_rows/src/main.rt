//! Runs the commands of `abr` on the rows of `data/`, and prints the rows that differ. A row is
//! data: the words of a command line, its input, and the expected output, faults and status. All
//! that a command line or a recording can say is tested by a row.
//!
//! Then it tests recordings that are read and printed, and replays and commands with readers and
//! writers that fail, because no row can describe these. The first such test that differs ends the
//! run with an error.
#![tactic(auto)]

mod commands;
mod core_after;
mod fates;
mod input;
mod lines;
mod lsas;
mod many;
mod objects;
mod reasons;
mod recordings;
mod replays;
mod row;
mod told_changes;
mod trial;
mod workers;

use anyhow::Result;
use row::read_rows;
use std::alloc::{AllocError, Global};
use std::hash::RandomState;
use std::random::RandomSource;
use std::rt::Files;
use std::sync::Wait;
use std::thread::Threads;
use std::{fs, io};
use trial::is_as_wanted;

// The files of rows.
const FILES: [&str; 19] = [
    "commands.rows",
    "recordings.rows",
    "versions.rows",
    "bases.rows",
    "events.rows",
    "routes.rows",
    "summaries.rows",
    "externals.rows",
    "dues.rows",
    "updates.rows",
    "workers.rows",
    "changes.rows",
    "follow.rows",
    "json.rows",
    "progress.rows",
    "explain.rows",
    "explain_due.rows",
    "page.rows",
    "capture.rows",
];

/// The number of rows that ran, and the number of rows that differ.
#[derive(Clone, Copy)]
struct Count {
    ran: u64,
    differ: u64,
}

fn main(rt: HostRuntime) -> Result<()> {
    let mut count = Count { ran: 0, differ: 0 };
    for file in FILES {
        count = run_file(&rt, file, count)?;
    }
    let Count { ran, differ } = count;
    println!(rt; "{ran} rows, {differ} differ")?;
    run_others(&rt)?;
    run_printed(&rt)
}

// Prints explanations of addresses and due summaries, JSON objects, and LSAs as text.
fn run_printed(rt: &HostRuntime) -> Result<()> {
    fates::run(rt)?;
    many::run(rt)?;
    reasons::run(rt)?;
    lines::run(rt)?;
    objects::run(rt)?;
    lsas::run(rt)
}

// Runs the tests that no row can describe, and prints their names.
fn run_others<R: AllocGlobal + RandomSource + Print + Threads + Wait + Sync>(rt: &R) -> Result<()> {
    recordings::run(rt)?;
    println!(rt; "recordings that are read and printed")?;
    replays::run(rt)?;
    println!(rt; "replays over inputs and outputs that fail")?;
    workers::run(rt)?;
    println!(rt; "a replay over two workers")?;
    told_changes::run(rt)?;
    println!(rt; "changes over inputs and outputs that fail")?;
    commands::run(rt)?;
    println!(rt; "commands over outputs that fail")?;
    Ok(())
}

// Runs the rows of a file, and prints the rows that differ.
fn run_file<R: Files + AllocGlobal + RandomSource + Print + Threads + Wait + Sync>(
    rt: &R,
    file: &str,
    count: Count,
) -> io::Result<Count> {
    let text = fs::read_to_string(rt, file)?;
    let hashing = RandomState::new(rt)?;
    let mut count = count;
    match read_rows(rt.alloc(), text.as_str()) {
        Ok(rows) => {
            for row in rows.as_slice() {
                count.ran = count.ran.saturating_add(1);
                if !is_as_wanted(rt, rt.alloc(), hashing, row)? {
                    count.differ = count.differ.saturating_add(1);
                    let line = row.line;
                    println!(rt; "{file}:{line} differs")?;
                }
            }
        }
        Err(fault) => {
            count.differ = count.differ.saturating_add(1);
            println!(rt; "{file}: {fault}")?;
        }
    }
    Ok(count)
}
