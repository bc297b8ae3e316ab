//! Phases whose steps are made by hand, each in an order that is told.
ghost use Rattle.std.specs.Prelude.{◌≡◌, ◌++◌, IfOk, true};
ghost use Rattle.script_form.specs.Fits.{AreSettings};
ghost use Rattle.library_runs.specs.seeded_run.specs.Phase.{ClosesLast, MayAllRun};

use crate::runs::{all_rest, answers, events, run_all};
use crate::scripts::{Line, script};
use library_runs::of_seeded_run::{Move, Schedule, run_by_hand};
use library_runs::of_volap_cell::{Kind, State};
use script_form::{Command, Script};
use script_run::phase_len;
use std::alloc::{AllocError, Global};
use std::process::Abort;
use std::test::Fail;

/// Who makes steps of which kinds, one after the other. Who makes none has to wait at that time.
pub(crate) type Moves = &'static [(u32, &'static [Kind])];

/// Adds the steps of these kinds, which an actor makes; or that it waits, where there is none.
fn push_steps(steps: &mut Vec<Move>, actor: u32, kinds: &[Kind]) -> Result<(), AllocError> {
    if kinds.is_empty() {
        steps.push((actor, None))?;
    }
    for kind in kinds {
        steps.push((actor, Some(*kind)))?;
    }
    Ok(())
}

/// The steps of these moves, one by one.
fn steps(alloc: Global, moves: Moves) -> Result<Vec<Move>, AllocError> {
    let mut steps = Vec::new(alloc);
    for (actor, kinds) in moves {
        push_steps(&mut steps, *actor, kinds)?;
    }
    Ok(steps)
}

/// Two servers and one worker. The sessions are the actors 0 and 1, the puller is 2, and the hand 4.
const BASE: &str =
    "volap,1\nuse,2,1,1,256\ndim,place,2\nconcept,place,de,*\nconcept,place,berlin,de\nconcept,place,munich,de\n";

/// What an insert does until its row has come in at the root.
pub(crate) const BEFORE: &[Kind] = &[
    Kind::BeginInsert,
    Kind::Route,
    Kind::TakePart,
    Kind::LookUp,
    Kind::Refill,
    Kind::EnterTree,
];

/// What it does from then on in a tree that has no directory, until it is acknowledged.
pub(crate) const BEHIND: &[Kind] = &[
    Kind::PutInLeaf,
    Kind::LeaveTree,
    Kind::Refill,
    Kind::FinishPart,
];

/// What a pull does.
pub(crate) const PULL: &[Kind] = &[Kind::Note, Kind::Sync, Kind::Note];

/// What a query does that need not look into a tree.
pub(crate) const ASK: &[Kind] = &[
    Kind::BeginQuery,
    Kind::TakePart,
    Kind::GateRead,
    Kind::FinishPart,
    Kind::Answer,
];

/// What a query does until it has noted a root.
pub(crate) const LOOK: &[Kind] = &[Kind::BeginQuery, Kind::TakePart, Kind::GateRead];

/// A story.
pub(crate) struct Story {
    /// What stands before the commands.
    pub base: &'static str,
    /// Lines, and how many times they stand before the phase. Behind them there is a settle.
    pub before: &'static [Line],
    pub times: usize,
    pub phase: &'static [Line],
    pub moves: Moves,
    /// What is answered in the phase, and what is told of shards.
    pub told: &'static str,
}

/// What goes on beside pulls, inserts and queries.
const STORIES: [Story; 6] = [
    // Pulls between a row's place and its acknowledgement; its box is pushed by a later one.
    Story {
        base: BASE,
        before: &[],
        times: 0,
        phase: &[
            Line::Insert(0, 1, "berlin"),
            Line::Sync(0),
            Line::Sync(0),
            Line::Query(0, &["berlin"]),
            Line::Query(1, &[]),
            Line::Sync(0),
            Line::Sync(1),
            Line::Query(1, &[]),
        ],
        moves: &[
            (0, BEFORE),
            (0, BEHIND),
            (2, PULL),
            (2, PULL),
            (0, &[Kind::Ack]),
            (0, ASK),
            (1, &[Kind::BeginQuery, Kind::Answer]),
            (2, PULL),
            (2, PULL),
            (1, ASK),
        ],
        told: "1 1 1 1; 0 0 - -; 1 1 1 1; ",
    },
    // Pulls around a query's part at a hand.
    Story {
        base: BASE,
        before: &[Line::Insert(0, 1, "berlin")],
        times: 1,
        phase: &[Line::Query(1, &["berlin"]), Line::Sync(1), Line::Sync(1)],
        moves: &[
            (1, &[Kind::BeginQuery]),
            (2, PULL),
            (4, &[Kind::TakePart, Kind::GateRead]),
            (2, PULL),
            (1, &[]),
            (4, &[Kind::FinishPart]),
            (1, &[Kind::Answer]),
        ],
        told: "1 1 1 1; ",
    },
    // A row comes while a query has noted the root, and is carried there: the query waits, and counts it then.
    Story {
        base: BASE,
        before: &[Line::Insert(0, 1, "berlin"), Line::Insert(0, 1, "munich")],
        times: 8,
        phase: &[Line::Insert(0, 2, "munich"), Line::Query(1, &["munich"])],
        moves: &[
            (1, LOOK),
            (0, BEFORE),
            (1, &[]),
            (0, BEHIND),
            (0, &[Kind::Ack]),
            (1, &[Kind::BlockVisit, Kind::FinishPart, Kind::Answer]),
        ],
        told: "9 10 1 2; ",
    },
    // A row of Berlin cuts the root that a query for Munich has noted. The query visits the old root, where the stamp is
    // another one, and the block to its right. A later one finds an entry inside its filter in the new root.
    Story {
        base: BASE,
        before: &[Line::Insert(0, 1, "berlin"), Line::Insert(0, 1, "munich")],
        times: 16,
        phase: &[
            Line::Insert(0, 1, "berlin"),
            Line::Query(1, &["munich"]),
            Line::Query(1, &["munich"]),
            Line::Query(1, &[]),
        ],
        moves: &[
            (1, LOOK),
            (0, BEFORE),
            (0, &[Kind::Down]),
            (0, BEHIND),
            (0, &[Kind::Ack]),
            (
                1,
                &[
                    Kind::BlockVisit,
                    Kind::BlockVisit,
                    Kind::FinishPart,
                    Kind::Answer,
                ],
            ),
            (1, LOOK),
            (1, &[Kind::BlockVisit, Kind::FinishPart, Kind::Answer]),
            (1, ASK),
        ],
        told: "16 16 1 1; 16 16 1 1; 33 33 1 1; ",
    },
    // A row of Munich does, and the query counts it. It waits while the row is carried at the block to the right.
    Story {
        base: BASE,
        before: &[Line::Insert(0, 1, "berlin"), Line::Insert(0, 1, "munich")],
        times: 16,
        phase: &[Line::Insert(0, 2, "munich"), Line::Query(1, &["munich"])],
        moves: &[
            (1, LOOK),
            (0, BEFORE),
            (0, &[Kind::Down]),
            (1, &[Kind::BlockVisit]),
            (1, &[]),
            (0, BEHIND),
            (1, &[Kind::BlockVisit, Kind::FinishPart, Kind::Answer]),
            (0, &[Kind::Ack]),
        ],
        told: "17 18 1 2; ",
    },
    // The root that is noted is halved, and the query reads both halves.
    Story {
        base: BASE,
        before: &[Line::Insert(0, 1, "berlin")],
        times: 32,
        phase: &[
            Line::Insert(0, 2, "berlin"),
            Line::Query(1, &["berlin"]),
            Line::Insert(0, 2, "munich"),
            Line::Query(1, &["berlin"]),
        ],
        moves: &[
            (0, BEFORE),
            (0, BEHIND),
            (0, &[Kind::Ack]),
            (0, BEFORE),
            (0, BEHIND),
            (0, &[Kind::Ack]),
            (1, LOOK),
            (
                1,
                &[
                    Kind::BlockVisit,
                    Kind::BlockVisit,
                    Kind::FinishPart,
                    Kind::Answer,
                ],
            ),
            (1, LOOK),
            (
                1,
                &[
                    Kind::BlockVisit,
                    Kind::BlockVisit,
                    Kind::FinishPart,
                    Kind::Answer,
                ],
            ),
        ],
        told: "33 34 1 2; 33 34 1 2; ",
    },
];

/// The lines before the phase of a story.
fn lines_before(alloc: Global, story: &Story) -> Result<Vec<Line>, AllocError> {
    let mut lines = Vec::new(alloc);
    for _ in 0..story.times {
        for line in story.before {
            lines.push(*line)?;
        }
    }
    lines.push(Line::Settle)?;
    Ok(lines)
}

/// Whether these commands are one phase.
fn is_one_phase(phase: &[Command]) -> bool
    ensures { result ≡ true → ClosesLast phase.now }
{
    if phase.is_empty() {
        return false;
    }
    phase_len(phase) == phase.len()
}

/// Commands that are done, and then a phase whose steps are made by hand. Tells how many of them were made.
fn by_hand(
    alloc: Global,
    script: &Script,
    done: &[Command],
    phase: &[Command],
    steps: &[Move],
) -> Result<(State, usize), AllocError>
    requires settings { AreSettings script.now.with }
    requires may_run { MayAllRun script.now.hierarchy script.now.with (done.now ++ phase.now) }
{
    if !is_one_phase(phase) {
        return Err(AllocError);
    }
    let mut state = run_all(alloc, script, done, &mut Schedule::seeded(0))?;
    let made = run_by_hand(
        alloc,
        &script.hierarchy,
        &script.with,
        done,
        phase,
        &mut state,
        steps,
    )?;
    Ok((state, made))
}

/// What is answered where the first commands are done and the others are a phase whose steps are made by hand; how many
/// of these were made; and whether nobody has anything to do then.
fn answered(
    alloc: Global,
    script: &Script,
    first: usize,
    steps: &[Move],
) -> Result<(String, usize, bool), AllocError>
    requires settings { AreSettings script.now.with }
    requires may_run { MayAllRun script.now.hierarchy script.now.with script.now.commands }
{
    let commands = script.commands.as_slice();
    let (done, phase) = commands.split_at(first.min(commands.len()));
    let (state, made) = by_hand(alloc, script, done, phase, steps)?;
    let told = answers(alloc, events(&state))?;
    Ok((told, made, all_rest(&state)))
}

/// The script of a story, and how many commands stand before its phase.
fn script_of(alloc: Global, story: &Story) -> Result<(Script, usize), AllocError>
    ensures settings { IfOk result (λ r. AreSettings r.0.with) }
    ensures may_run { IfOk result (λ r. MayAllRun r.0.hierarchy r.0.with r.0.commands) }
{
    let mut lines = lines_before(alloc, story)?;
    let first = lines.len();
    lines.extend_from_slice(story.phase)?;
    Ok((script(alloc, story.base, &lines)?, first))
}

/// Tells a story.
pub(crate) fn tell<R: Abort>(rt: &R, alloc: Global, story: &Story) -> Result<(), Fail> {
    let steps = steps(alloc, story.moves)?;
    let (script, first) = script_of(alloc, story)?;
    let (told, made, over) = answered(alloc, &script, first, &steps)?;
    assert_eq!(rt; told.as_str(), story.told, "behind {made} steps");
    assert_eq!(rt; made, steps.len());
    assert!(rt; over);
    Ok(())
}

#[test]
fn stories_step_by_step(rt: HostRuntime) -> Result<(), Fail> {
    for story in &STORIES {
        tell(&rt, rt.alloc(), story)?;
    }
    Ok(())
}
