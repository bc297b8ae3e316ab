//! For measuring: the inserts of the script on standard input, dealt out to as many sessions as the word
//! says, each of a server and on a thread of its own. It prints how many were acknowledged.
//! The word is 1, 2 or 4. The hall has always four servers, a worker and 65536 cells; commands that are no
//! inserts are passed over. It ends with 2 for another word, 1 where the input is not read, 3 where it is no
//! script, 5 where memory is wanting or there is no dimension, and 4 where it can not print. No answer is
//! judged here, and nothing is proved of how many are acknowledged; `bench/hall.py` takes the time.
#![tactic(auto)]

ghost use Rattle.std.specs.Prelude.{◌<◌, IfSome};

mod deal;

use deal::acknowledged;
use script_form::read_script;
use std::process::ExitCode;
use std::{env, io};

/// The number of sessions that the first word behind the program's name says: 1, 2 or 4.
fn sessions(rt: &HostRuntime) -> Option<usize>
    ensures { IfSome result (λ count. 0 < count) }
{
    let mut args = env::args(rt).ok()?.skip(1);
    let word = args.next()?;
    match word.as_str() {
        "1" => Some(1),
        "2" => Some(2),
        "4" => Some(4),
        _ => None,
    }
}

fn main(rt: HostRuntime) -> ExitCode {
    let alloc = rt.alloc();
    let Some(count) = sessions(&rt) else {
        return ExitCode::from(2);
    };
    let Ok(text) = io::read_to_string(alloc, rt.stdin()) else {
        return ExitCode::from(1);
    };
    let Ok(script) = read_script(alloc, text.as_bytes()) else {
        return ExitCode::from(3);
    };
    let Some(acked) = acknowledged(&rt, alloc, script, count) else {
        return ExitCode::from(5);
    };
    match println!(rt; "{acked}") {
        Ok(()) => ExitCode::SUCCESS,
        Err(_) => ExitCode::from(4),
    }
}
