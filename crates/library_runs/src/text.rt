//! A script, from its bytes to the bytes of its answers, with the history in hand.
ghost use Rattle.std.specs.Prelude.{◌≡◌, ◌≢◌, ◌<◌, ◌^◌, [], ◌∷◌, Err, IfOk, codes, length, map, string_bytes};
ghost use Rattle.library_runs.specs.Text.{IsAnswer, IsBadText};

use olap_top::{Status, olap};
use row_ledger::Ledger;
use std::alloc::{AllocError, Global};
use std::sync::Wait;
use std::thread::Threads;
use volap_io::{MemSink, MemSource, Quiet};

/// What a script printed, and what happened.
#[derive(Drop)]
pub struct Answered {
    pub text: Vec<u8>,
    pub ledger: Ledger,
}

/// How many bytes are read or written at once.
const PIECE: usize = 4096;

/// The word of a command line that asks for a script, one command after the other.
fn step(alloc: Global) -> Result<Vec<String>, AllocError>
    ensures { IfOk result (λ words. map string_bytes words.items ≡ codes "step" ∷ []) }
{
    let mut words = Vec::new(alloc);
    words.push(String::from_str(alloc, "step")?)?;
    Ok(words)
}

/// Runs the script that a text is, one command after the other, and gives what it printed, for which
/// there is room for so many bytes, and what happened.
pub fn run_text<R: Threads + Wait + Sync>(
    rt: &R,
    alloc: Global,
    text: Vec<u8>,
    room: usize,
) -> Result<Answered, Status>
    ensures done { IfOk result (λ answered. IsAnswer text.items answered.text.items answered.ledger.history) }
    ensures bad { result ≡ Err Status.BadScript → IsBadText text.items }
    ensures large { result ≡ Err Status.TooLarge → 2 ^ 26 < length text.items }
    ensures words { result ≢ Err Status.BadWords }
{
    let Ok(words) = step(alloc) else {
        return Err(Status::NoMemory);
    };
    let Ok(mut sink) = MemSink::new(alloc, room, Vec::new(alloc), PIECE) else {
        return Err(Status::NoMemory);
    };
    let mut source = MemSource::new(text, Vec::new(alloc), PIECE);
    let outcome = olap(rt, alloc, words.as_slice(), &mut source, &mut sink, &Quiet);
    let Status::Done = outcome.status else {
        return Err(outcome.status);
    };
    let Ok(text) = sink.taken().to_vec(alloc) else {
        return Err(Status::NoMemory);
    };
    Ok(Answered {
        text,
        ledger: outcome.ledger,
    })
}
