//! The program that runs scripts, and compares how each ends and what it prints with what it must be. The
//! scripts and their answers are data: the text on standard input, and the files that it names.
//! Each of some 470 runs is made by `olap` in memory, by large pieces and, where nothing else is said and its
//! text is not long, byte by byte too. A case says the words, the faults of source and sink, the status, and
//! the whole text that must come, or several of which one must; its form stands at the head of `stdin`. Ten
//! thousand splits, moves and balances are among them. It ends with the status 1 where a run differs.
#![tactic(auto)]

mod cases;
mod fault;
mod reading;
mod runs;
mod said;
mod texts;

use cases::Item;
use reading::read_items;
use runs::{Tally, run_case, run_wants};
use std::io;
use std::process::ExitCode;
use std::rt::Files;
use std::sync::Wait;
use std::thread::Threads;

/// Runs each case and each list of words, and tells how it went.
fn run_items<R: Print + AllocGlobal + Threads + Wait + Sync>(
    rt: &R,
    items: &[Item],
) -> io::Result<Tally> {
    let mut tally = Tally::default();
    for item in items {
        match item {
            Item::Case(case) => run_case(rt, case, &mut tally)?,
            Item::Wants(wants) => run_wants(rt, wants, &mut tally)?,
        }
    }
    Ok(tally)
}

/// Runs the cases that standard input tells. Whether all of them are as wanted.
fn run_all<R: Files + Input + Print + AllocGlobal + Threads + Wait + Sync>(
    rt: &R,
) -> io::Result<bool> {
    let text = io::read_to_string(rt.alloc(), rt.reader())?;
    let items = match read_items(rt, text.as_str()) {
        Ok(items) => items,
        Err(bad) => {
            let at = bad.at;
            let fault = bad.fault;
            println!(rt; "bad case at line {at}: {fault}")?;
            return Ok(false);
        }
    };
    let tally = run_items(rt, items.as_slice())?;
    let runs = tally.runs;
    let lists = tally.lists;
    let others = tally.others;
    println!(rt; "{runs} runs, {lists} lists of words, {others} differ")?;
    Ok(others == 0)
}

/// Ends with the status 0 where all cases are as wanted, and else with 1.
fn main(rt: HostRuntime) -> ExitCode {
    match run_all(&rt) {
        Ok(true) => ExitCode::SUCCESS,
        Ok(false) => ExitCode::FAILURE,
        Err(error) => {
            let _ = eprintln!(rt; "script_cases: {error}");
            ExitCode::FAILURE
        }
    }
}
