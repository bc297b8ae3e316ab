//! The reader of scripts.
ghost use Rattle.std.specs.Prelude.{◌≡◌, ◌<◌, ◌+◌, true, length, All, IfOk};
ghost use Rattle.csv.specs.Reading.{error_kind, stops_reader};
ghost use Rattle.script_form.specs.Fits.{AreSettings, Fits};
ghost use Rattle.script_form.specs.Faults.{IsAnswer};
ghost use Rattle.script_form.specs.Scripts.{records_of, script};

use crate::record::{RecordFault, take_record};
use crate::script::{Cause, Commands, Script, ScriptFault};
use csv::{ByteRecord, Error, ErrorKind, ReaderBuilder};
use dim_hierarchy::Hierarchy;
use row_ledger::Use;
use std::alloc::Global;

/// The settings of a script without a `use` record.
const DEFAULT: Use = Use {
    servers: 2,
    workers: 2,
    threads: 2,
    cells: 16384,
};

/// The script of a text; else the first record that is bad and its first cause, or want of memory,
/// which it tells as well at 2^28 concepts. The settings of a script are in their ranges, each insert and query
/// names one of its servers and has a name or a pick for each dimension, a group has a pick for each and a
/// level of a dimension that stands, and where there is a command there is a dimension.
pub fn read_script(alloc: Global, text: &[u8]) -> Result<Script, ScriptFault>
    ensures answer { IsAnswer (script (records_of text.now)) result }
    ensures settings { IfOk result (λ s. AreSettings s.with) }
    ensures fits { IfOk result (λ s. All (Fits s) s.commands) }
    ensures dims { IfOk result (λ s. 0 < length s.commands → 0 < length s.hierarchy) }
{
    let mut reader = ReaderBuilder::new()
        .has_headers(false)
        .flexible(true)
        .from_reader(alloc, text);
    let mut row = ByteRecord::new(alloc);
    let mut script = Script {
        with: DEFAULT,
        hierarchy: Hierarchy::new(alloc),
        commands: Commands::new(alloc),
    };
    for at in 0..u64::MAX {
        match reader.read_byte_record(&mut row) {
            Ok(true) => {}
            Ok(false) => {
                if at == 0 {
                    return Err(bad(at, Cause::Version));
                }
                return Ok(script);
            }
            Err(error) => return Err(want_of_memory(&error)),
        }
        match take_record(alloc, at, &mut script, &row) {
            Ok(()) => {}
            Err(RecordFault::Bad(cause)) => return Err(bad(at, cause)),
            Err(RecordFault::NoMemory) => return Err(ScriptFault::NoMemory),
        }
    }
    unreachable!()
}

/// The record behind so many is bad.
fn bad(at: u64, cause: Cause) -> ScriptFault
    requires { at < u64.MAX }
    ensures { result ≡ ScriptFault.Bad (at + 1) cause }
{
    ScriptFault::Bad { at: at + 1, cause }
}

/// The errors that stop a reader are want of memory here: no read of a slice fails.
fn want_of_memory(error: &Error) -> ScriptFault
    requires { stops_reader (error_kind error.now) ≡ true }
    ensures { result ≡ ScriptFault.NoMemory }
{
    match error.kind() {
        ErrorKind::Io(_) | ErrorKind::OutOfMemory => ScriptFault::NoMemory,
        ErrorKind::UnequalLengths { .. }
        | ErrorKind::Utf8 { .. }
        | ErrorKind::Serialize(_)
        | ErrorKind::Deserialize { .. } => unreachable!(),
    }
}
