//! What is tested of `answer_text`.
use crate::fixtures::text_of;
use crate::words::{Word, call_of, command_of};
use answer_text::laws::tellers_go_on;
use answer_text::{Teller, phase, told};
use describing_set::{DescSet, Part, Path};
use dim_hierarchy::{ConceptId, Filter, Row};
use measure_agg::Agg;
use row_ledger::{
    AuditLine, Call, Decline, Event, GroupLine, GroupLines, GroupPage, History, How, NodeLine,
    NodeList, Page, ShardLine, ShardList, TreePage, Use,
};
use script_form::{Commands, read_script};
use std::alloc::{AllocError, Global};
use std::process::Abort;
use std::test::Fail;

/// What happens in a small history, for tables. Sessions 0, 1 and 2 are those of the servers, 3 is
/// the pulling one and 4 the controlling one.
#[derive(Clone, Copy)]
enum Step {
    Begun(u16),
    Asked(u16),
    Unknown(u16, u8),
    Acked(u64),
    /// A query is answered by the aggregate of one measure, or of none.
    Answered(u64, Option<i64>),
    Failed(u64),
    Refused(u16),
    Pulled(u8),
    Called(Word),
    Split(u64, u32, u32),
    Ended(u64, How),
    Shows(u64, Shown),
}

/// Which page is shown.
#[derive(Clone, Copy)]
enum Shown {
    Tree,
    Shards,
    Audit,
    Groups,
}

/// The aggregate of one measure, or of none.
fn agg_of(measure: Option<i64>) -> Agg {
    match measure {
        Some(measure) => Agg::one(measure),
        None => Agg::EMPTY,
    }
}

/// A dimension of a set: its level, and at most six concepts by their numbers.
fn part(level: u8, numbers: &[u32]) -> Part {
    let mut part = Part::default();
    part.level = level;
    for number in numbers {
        let id = ConceptId((level as u32) << 28 | *number);
        let _room = part.ids.put(id);
    }
    part
}

/// A set of two dimensions.
fn set_of(first: Part, second: Part) -> DescSet {
    let mut set = DescSet::default();
    set.parts.push(first);
    set.parts.push(second);
    set
}

/// The set of two concepts of the second level and one of the first.
fn two_and_one() -> DescSet {
    set_of(part(2, &[0, 7]), part(1, &[11]))
}

/// The aggregate of two rows.
fn two_rows() -> Agg {
    Agg::one(-3).join(&Agg::one(8))
}

/// A tree of height 2, of a directory over one leaf.
fn tree_page(alloc: Global) -> Result<Page, AllocError> {
    let directory = NodeLine {
        depth: 0,
        leaf: false,
        blocks: 1,
        items: 1,
        agg: two_rows(),
        set: set_of(part(1, &[0, 2]), part(0, &[0])),
    };
    let leaf = NodeLine {
        depth: 1,
        leaf: true,
        blocks: 2,
        items: 2,
        agg: two_rows(),
        set: two_and_one(),
    };
    let nodes = vec![in alloc; directory, leaf]?;
    Ok(Page::Tree(TreePage {
        shard: 0,
        height: 2,
        rows: 2,
        queued: 4,
        nodes: NodeList::from_vec(nodes),
    }))
}

/// A shard of worker 1 with three rows in its queue.
fn shard(id: u32, rows: u64, set: DescSet) -> ShardLine {
    ShardLine {
        shard: id,
        worker: 1,
        rows,
        queued: 3,
        set,
    }
}

/// A shard of two rows, and one of none.
fn shards_page(alloc: Global) -> Result<Page, AllocError> {
    let none = set_of(part(2, &[]), part(1, &[]));
    let shards = vec![in alloc; shard(1, 2, two_and_one()), shard(2, 0, none)]?;
    Ok(Page::Shards(ShardList::from_vec(shards)))
}

/// All rows, of two shards.
fn audit_page() -> Page {
    Page::Audit(AuditLine {
        agg: two_rows(),
        shards: 2,
    })
}

/// The aggregate of one row under a concept of the second level.
fn group(number: u32, measure: i64) -> GroupLine {
    GroupLine {
        id: ConceptId(0x2000_0000 | number),
        agg: Agg::one(measure),
    }
}

/// Two concepts with a row each.
fn groups_page(alloc: Global) -> Result<Page, AllocError> {
    let lines = vec![in alloc; group(0, -3), group(7, 8)]?;
    Ok(Page::Group(GroupPage {
        lines: GroupLines::from_vec(lines),
        all: two_rows(),
    }))
}

/// The page that is shown.
fn page_of(alloc: Global, shown: Shown) -> Result<Page, AllocError> {
    match shown {
        Shown::Tree => tree_page(alloc),
        Shown::Shards => shards_page(alloc),
        Shown::Audit => Ok(audit_page()),
        Shown::Groups => groups_page(alloc),
    }
}

/// The event of a step.
fn event(alloc: Global, step: &Step) -> Result<Event, AllocError> {
    let event = match *step {
        Step::Begun(session) => Event::Begun {
            session,
            server: 0,
            row: Row::default(),
        },
        Step::Asked(session) => Event::Asked {
            session,
            server: 0,
            filter: Filter::new(alloc),
        },
        Step::Unknown(session, dim) => Event::Unknown {
            session,
            server: 0,
            dim,
        },
        Step::Acked(of) => Event::Acked {
            of,
            path: Path::new(alloc),
        },
        Step::Answered(of, measure) => Event::Answered {
            of,
            agg: agg_of(measure),
        },
        Step::Failed(of) => Event::Failed { of },
        Step::Refused(session) => Event::Refused { session },
        Step::Pulled(server) => Event::Called {
            session: 3,
            call: Call::Sync(server),
        },
        Step::Called(word) => Event::Called {
            session: 4,
            call: call_of(alloc, word),
        },
        Step::Split(of, left, right) => Event::Split {
            of,
            shard: 0,
            left,
            right,
        },
        Step::Ended(of, how) => Event::Ended { of, how },
        Step::Shows(of, shown) => Event::Shown {
            of,
            page: page_of(alloc, shown)?,
        },
    };
    Ok(event)
}

/// The history of these steps.
fn history_of(alloc: Global, steps: &[Step]) -> Result<History, AllocError> {
    let mut events = Vec::new(alloc);
    for step in steps {
        events.push(event(alloc, step)?)?;
    }
    Ok(History::from_vec(events))
}

/// Compares what is told of commands when this has happened.
fn expect_told<R: Abort>(
    rt: &R,
    alloc: Global,
    with: &Use,
    commands: &Commands,
    steps: &[Step],
    text: &[u8],
) -> Result<(), AllocError> {
    let history = history_of(alloc, steps)?;
    let said = told(alloc, with, commands, &history)?;
    assert_eq!(rt; said.as_slice(), text);
    Ok(())
}

/// Lines of a script behind the base, what happens, and what is told.
type LineCase = (&'static [u8], &'static [Step], &'static [u8]);

/// Compares what is told of a script.
fn expect_lines<R: Abort>(rt: &R, alloc: Global, case: &LineCase) -> Result<(), Fail> {
    const BASE: &[u8] = b"volap,1\nuse,3,1,1,64\ndim,geo,1\nconcept,geo,de,*\n";
    let (lines, steps, text) = case;
    let script = read_script(alloc, &text_of(alloc, BASE, lines)?)?;
    expect_told(rt, alloc, &script.with, &script.commands, steps, text)?;
    Ok(())
}

#[test]
fn lines_of_inserts_and_queries(rt: HostRuntime) -> Result<(), Fail> {
    const CASES: [LineCase; 5] = [
        (b"", &[Step::Begun(0)], b""),
        (
            b"insert,0,5,fr\nquery,2,fr",
            &[Step::Unknown(2, 7), Step::Unknown(0, 0)],
            b"1 insert unknown 0\n2 query unknown 7\n",
        ),
        (
            b"insert,0,1,de\nquery,0,de",
            &[
                Step::Asked(0),
                Step::Answered(0, Some(9)),
                Step::Begun(7),
                Step::Acked(90),
                Step::Begun(300),
            ],
            b"",
        ),
        (
            b"insert,0,5,de\ninsert,0,6,de\nquery,0,de",
            &[
                Step::Begun(0),
                Step::Refused(0),
                Step::Failed(0),
                Step::Asked(0),
                Step::Failed(3),
            ],
            b"1 insert nomem\n2 insert nomem\n3 query nomem\n",
        ),
        (
            b"insert,0,1,de\nquery,1,de\nquery,0,*",
            &[
                Step::Asked(1),
                Step::Begun(0),
                Step::Answered(0, Some(9)),
                Step::Acked(1),
                Step::Asked(0),
                Step::Answered(4, None),
            ],
            b"1 insert ok\n2 query 1 9 9 9\n3 query 0 0 - -\n",
        ),
    ];
    for case in &CASES {
        expect_lines(&rt, rt.alloc(), case)?;
    }
    Ok(())
}

const WITH: Use = Use {
    servers: 3,
    workers: 1,
    threads: 1,
    cells: 64,
};

/// The commands of these words.
fn commands_of(alloc: Global, words: &[Word]) -> Result<Commands, AllocError> {
    let mut commands = Commands::new(alloc);
    for word in words {
        commands.push(command_of(alloc, *word))?;
    }
    Ok(commands)
}

/// Calls, what happens, and what is told.
type CallCase = (&'static [Word], &'static [Step], &'static [u8]);

/// Compares what is told of calls.
fn expect_calls<R: Abort>(rt: &R, alloc: Global, case: &CallCase) -> Result<(), AllocError> {
    let (words, steps, text) = case;
    let commands = commands_of(alloc, words)?;
    expect_told(rt, alloc, &WITH, &commands, steps, text)
}

#[test]
fn lines_of_calls(rt: HostRuntime) -> Result<(), Fail> {
    const CASES: [CallCase; 6] = [
        (
            &[Word::Sync(2), Word::Barrier, Word::Settle],
            &[
                Step::Pulled(2),
                Step::Ended(0, How::Fine),
                Step::Called(Word::Barrier),
                Step::Ended(2, How::Fine),
                Step::Called(Word::Settle),
                Step::Ended(4, How::NoMemory),
            ],
            b"1 sync ok\n2 barrier ok\n3 settle nomem\n",
        ),
        (
            &[Word::Split(0), Word::Split(1), Word::Move(2, 0)],
            &[
                Step::Called(Word::Split(0)),
                Step::Split(0, 1, 2),
                Step::Ended(0, How::Fine),
                Step::Called(Word::Split(1)),
                Step::Ended(3, How::Declined(Decline::OnePlace)),
                Step::Called(Word::Move(2, 0)),
                Step::Ended(5, How::Fine),
            ],
            b"1 split ok 1 2\n2 split declined oneplace\n3 move ok\n",
        ),
        (
            &[Word::Split(9), Word::Split(0), Word::Move(0, 1)],
            &[
                Step::Called(Word::Split(9)),
                Step::Ended(0, How::NoMemory),
                Step::Called(Word::Split(0)),
                Step::Ended(2, How::Postponed),
                Step::Refused(4),
            ],
            b"1 split postponed\n2 split postponed\n3 move postponed\n",
        ),
        (
            &[Word::Move(0, 7), Word::Split(0), Word::Balance(4)],
            &[
                Step::Called(Word::Move(0, 7)),
                Step::Ended(0, How::Declined(Decline::Unknown)),
                Step::Called(Word::Split(0)),
                Step::Ended(2, How::Declined(Decline::NoCell { need: 100, free: 3 })),
                Step::Called(Word::Balance(4)),
                Step::Split(4, 1, 2),
                Step::Ended(
                    4,
                    How::Balanced {
                        done: 1,
                        planned: 3,
                    },
                ),
            ],
            b"1 move declined unknown\n2 split declined nocell 100 3\n3 balance 1 3\n",
        ),
        (
            &[Word::Balance(1), Word::Shards, Word::Tree(5), Word::Audit],
            &[
                Step::Refused(4),
                Step::Called(Word::Shards),
                Step::Ended(1, How::NoMemory),
                Step::Called(Word::Tree(5)),
                Step::Ended(3, How::Declined(Decline::Unknown)),
                Step::Called(Word::Audit),
                Step::Ended(5, How::NoMemory),
            ],
            b"1 balance nomem\n2 shards nomem\n3 tree declined unknown\n4 audit nomem\n",
        ),
        (
            &[Word::Group(1), Word::Group(2), Word::Group(1)],
            &[
                Step::Refused(4),
                Step::Unknown(4, 3),
                Step::Called(Word::Group(1)),
                Step::Ended(2, How::NoMemory),
            ],
            b"1 group nomem\n2 group unknown 3\n3 group nomem\n",
        ),
    ];
    for case in &CASES {
        expect_calls(&rt, rt.alloc(), case)?;
    }
    Ok(())
}

/// Compares what is told of each phase.
fn expect_phases<R: Abort>(
    rt: &R,
    alloc: Global,
    commands: &Commands,
    history: &History,
    cases: &[(u64, &[u8])],
) -> Result<(), AllocError> {
    for (n, text) in cases {
        let said = phase(alloc, &WITH, commands, history, *n)?;
        assert_eq!(rt; said.as_slice(), *text);
    }
    Ok(())
}

#[test]
fn pages_are_told_phase_by_phase(rt: HostRuntime) -> Result<(), Fail> {
    const WORDS: [Word; 5] = [
        Word::Tree(0),
        Word::Shards,
        Word::Audit,
        Word::Group(2),
        Word::Audit,
    ];
    const STEPS: [Step; 13] = [
        Step::Called(Word::Tree(0)),
        Step::Shows(0, Shown::Tree),
        Step::Ended(0, How::Fine),
        Step::Called(Word::Shards),
        Step::Shows(3, Shown::Shards),
        Step::Ended(3, How::Fine),
        Step::Called(Word::Audit),
        Step::Shows(6, Shown::Audit),
        Step::Ended(6, How::Fine),
        Step::Called(Word::Group(2)),
        Step::Shows(9, Shown::Groups),
        Step::Ended(9, How::Fine),
        Step::Called(Word::Audit),
    ];
    const CASES: [(u64, &[u8]); 6] = [
        (
            0,
            b"1 tree 0 height 2 rows 2 queued 4\n1 node 0 dir 1 1 2 5 -3 8 1:0+2/0:0\n1 node 1 leaf 2 2 2 5 -3 8 2:0+7/1:11\n",
        ),
        (
            1,
            b"2 shard 1 worker 1 rows 2 queued 3 box 2:0+7/1:11\n2 shard 2 worker 1 rows 0 queued 3 box 2:/1:\n",
        ),
        (2, b"3 audit 2 5 -3 8 shards 2\n"),
        (
            3,
            b"4 group 2:0 1 -3 -3 -3\n4 group 2:7 1 8 8 8\n4 group all 2 5 -3 8\n",
        ),
        (4, b""),
        (u64::MAX, b""),
    ];
    let alloc = rt.alloc();
    let commands = commands_of(alloc, &WORDS)?;
    let history = history_of(alloc, &STEPS)?;
    expect_phases(&rt, alloc, &commands, &history, &CASES)?;
    Ok(())
}

/// What a new teller tells of one phase.
fn first_phase(
    alloc: Global,
    commands: &Commands,
    history: &History,
) -> Result<Vec<u8>, AllocError> {
    tellers_go_on();
    let mut teller = Teller::new(alloc)?;
    teller.phase(alloc, &WITH, commands.as_slice(), history.events())
}

#[test]
fn a_teller_tells_a_phase(rt: HostRuntime) -> Result<(), Fail> {
    const STEPS: [Step; 2] = [Step::Called(Word::Barrier), Step::Ended(0, How::Fine)];
    let alloc = rt.alloc();
    let commands = commands_of(alloc, &[Word::Barrier])?;
    let history = history_of(alloc, &STEPS)?;
    let said = first_phase(alloc, &commands, &history)?;
    assert_eq!(rt; said.as_slice(), b"1 barrier ok\n".as_slice());
    Ok(())
}
