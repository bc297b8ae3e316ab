//! What is tested of `script_form`.
use crate::fixtures::text_of;
use crate::words::{Word, word_in};
use dim_hierarchy::NamePick;
use row_ledger::Use;
use script_form::{Command, NewRow, Script, ScriptFault, read_script, script_laws};
use std::alloc::{AllocError, Global};
use std::process::Abort;
use std::test::Fail;

/// The lines with which the scripts begin: one dimension of a country and two cities.
const BASE: &[u8] =
    b"volap,1\ndim,geo,2\nconcept,geo,de,*\nconcept,geo,berlin,de\nconcept,geo,munich,de\n";

/// The fault of a text, or how many commands it has.
fn outcome(alloc: Global, text: &[u8]) -> Result<usize, ScriptFault> {
    Ok(read_script(alloc, text)?.commands.len())
}

/// The outcome of a text of the base and then these lines.
fn on_base(alloc: Global, lines: &[u8]) -> Result<Result<usize, ScriptFault>, AllocError> {
    Ok(outcome(alloc, &text_of(alloc, BASE, lines)?))
}

#[test]
fn good_texts(rt: HostRuntime) -> Result<(), Fail> {
    const CASES: [(&[u8], usize); 14] = [
        (b"", 0),
        (b"insert,0,5,\"berlin\"\r\nquery,1,de|berlin\r\nbarrier", 3),
        (
            b"insert,00000000000000000001,-9223372036854775808,berlin",
            1,
        ),
        (b"insert,0,9223372036854775807,nowhere\n\nquery,0,*\n", 2),
        (b"insert,0,-0,\xFF\xFE", 1),
        (
            b"concept,geo,aaaaaaaaaaaaaaaaaaaaaaaaaaaaaaaaaaaaaaaaaaaaaaaaaaaaaaaaaaaaaaaa,de",
            0,
        ),
        (
            b"concept,geo,\"rome, \"\"old\"\"\",de\ninsert,0,1,\"rome, \"\"old\"\"\"",
            1,
        ),
        (
            b"dim,day,1\nconcept,day,mon,*\ninsert,0,7,berlin,mon\nquery,0,*,mon",
            2,
        ),
        (b"tree,4294967295", 1),
        (b"shards\naudit\nshards", 3),
        (b"sync,00000000000000000001\nsettle\nsync,0\nsettle", 4),
        (
            b"split,4294967295\nmove,4294967295,255\nbalance,1\nbalance,016\nshards\naudit",
            6,
        ),
        (
            b"tree,0\ninsert,0,5,berlin\ntree,00000000000000000001\nbarrier",
            4,
        ),
        (
            b"group,geo,1,*\ngroup,geo,00000000000000000002,de|nowhere\n\"group\",\"geo\",\"2\",berlin",
            3,
        ),
    ];
    for (lines, commands) in &CASES {
        assert_eq!(rt; on_base(rt.alloc(), lines)?, Ok(*commands));
    }
    let marked = outcome(rt.alloc(), b"\xEF\xBB\xBFvolap,1\r\n\r\n");
    assert_eq!(rt; marked, Ok(0));
    Ok(())
}

/// Compares the settings and the hierarchy of a script.
fn expect_head<R: Abort>(rt: &R, script: &Script) {
    let with = Use {
        servers: 3,
        workers: 16,
        threads: 8,
        cells: 64,
    };
    assert_eq!(rt; script.with, with);
    assert_eq!(rt; script.hierarchy.dims(), 2);
    assert_eq!(rt; script.hierarchy.concepts(), 2);
}

/// Compares an insert.
fn expect_insert<R: Abort>(rt: &R, row: &NewRow) {
    assert_eq!(rt; (row.server, row.measures), (2, -5));
    if row.names.len() != 2 {
        panic!(rt; "another row");
    }
    assert_eq!(rt; row.names.get(0), b"berlin".as_slice());
}

/// Compares the filter of a query or of a group.
fn expect_filter<R: Abort>(rt: &R, filter: &[NamePick]) {
    let [NamePick::Any(names), NamePick::All] = filter else {
        panic!(rt; "another filter");
    };
    let names = names.as_slice();
    assert_eq!(rt; names.len(), 2);
    assert_eq!(rt; names[1].as_slice(), b"fr".as_slice());
}

/// Compares a group.
fn expect_group<R: Abort>(rt: &R, command: &Command) {
    let Command::Group { dim, level, filter } = command else {
        panic!(rt; "another command");
    };
    assert_eq!(rt; (*dim, *level), (1, 1));
    expect_filter(rt, filter.as_slice());
}

/// The calls of a script, behind its insert, its query and its group.
const CALLS: [Word; 9] = [
    Word::Tree(4294967295),
    Word::Sync(1),
    Word::Barrier,
    Word::Settle,
    Word::Split(7),
    Word::Move(8, 9),
    Word::Balance(16),
    Word::Shards,
    Word::Audit,
];

/// Compares calls.
fn expect_calls<R: Abort>(rt: &R, commands: &[Command]) {
    assert_eq!(rt; commands.len(), CALLS.len());
    for (i, command) in commands.iter().enumerate() {
        assert_eq!(rt; word_in(command), CALLS.get(i).copied());
    }
}

/// Compares the commands of a script.
fn expect_commands<R: Abort>(rt: &R, commands: &[Command]) {
    let [
        Command::Insert(row),
        Command::Query(question),
        group,
        calls @ ..,
    ] = commands
    else {
        panic!(rt; "other commands");
    };
    expect_insert(rt, row);
    expect_filter(rt, question.filter.as_slice());
    expect_group(rt, group);
    expect_calls(rt, calls);
}

#[test]
fn what_a_script_holds(rt: HostRuntime) -> Result<(), Fail> {
    const TEXT: &[u8] =
        b"volap,1\nuse,3,16,8,64\ndim,geo,2\nconcept,geo,de,*\ndim,day,1\nconcept,day,mon,*\ninsert,2,-5,berlin,mon\nquery,0,de|fr,*\ngroup,day,1,de|fr,*\ntree,4294967295\nsync,1\nbarrier\nsettle\nsplit,7\nmove,8,9\nbalance,16\nshards\naudit\n";
    let script = read_script(rt.alloc(), TEXT)?;
    script_laws();
    expect_head(&rt, &script);
    expect_commands(&rt, script.commands.as_slice());
    Ok(())
}
