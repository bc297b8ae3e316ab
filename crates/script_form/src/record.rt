//! What a record adds to the script of those before it.
ghost use Rattle.std.specs.Prelude.{◌≡◌, ◌≤◌, [], ◌++◌, true, false, Some, length, drop, option_map, IfOk, IfErr, OnErr, OnOk};
ghost use Rattle.std.specs.List.{list_all};
ghost use Rattle.std.specs.Option.{option_to_list};
ghost use Rattle.csv.specs.Records.{fields_of};
ghost use Rattle.script_form.specs.Limits.{most_levels};
ghost use Rattle.script_form.specs.Fields.{field, in_range, is_below, is_name};
ghost use Rattle.script_form.specs.Reading.{HasForm, TellsCause, IsTaken};
ghost use Rattle.script_form.specs.Causes.{cause_at, hierarchy_cause, parent_of, wrong_number};
ghost use Rattle.script_form.specs.Scripts.{after, call_by, command_by, hierarchy_with, settings_in};
ghost use Rattle.script_form.specs.declared.table.Kind.TheVariants as kind;

use crate::field::{field, is_star, measure, value_u8, value_u32};
use crate::form::kind_at;
use crate::names::{filter, names};
use crate::script::{Cause, Command, Commands, NewRow, Question, Script};
use crate::table::Kind;
use csv::ByteRecord;
use dim_hierarchy::{ConceptFault, ConceptId, DimFault, Hierarchy, Name};
use row_ledger::{Call, Use};
use std::alloc::{AllocError, Global};

/// Why a record was not taken.
pub(crate) enum RecordFault {
    Bad(Cause),
    NoMemory,
}

impl From<AllocError> for RecordFault {
    ghost use Rattle.std.specs.Prelude.{◌≡◌};
    ghost use Rattle.script_form.specs.declared.record.RecordFault.TheVariants.{NoMemory};

    ghost from_gives = { λ _ e. e ≡ NoMemory };

    fn from(_: AllocError) -> Self {
        RecordFault::NoMemory
    }
}

/// Takes a record behind so many others into their script, which an error leaves as it was.
pub(crate) fn take_record(
    alloc: Global,
    at: u64,
    script: &mut Script,
    row: &ByteRecord,
) -> Result<(), RecordFault>
    ensures ok { OnOk result (IsTaken at script.old script.new (fields_of row.now)) }
    ensures cause { IfErr result (TellsCause (cause_at at script.old (fields_of row.now))) }
    ensures err { OnErr result (script.new ≡ script.old) }
{
    match kind_at(at, script, row) {
        Ok(kind) => add_record(alloc, script, kind, row),
        Err(cause) => Err(RecordFault::Bad(cause)),
    }
}

/// Adds what a record of this kind says.
#[tactic(auto, using(crate::proofs::NumberFacts::numbers_more))]
fn add_record(
    alloc: Global,
    script: &mut Script,
    kind: &Kind,
    row: &ByteRecord,
) -> Result<(), RecordFault>
    requires { HasForm script.old kind.now (fields_of row.now) }
    ensures no_cause { OnOk result (hierarchy_cause script.old.hierarchy kind.now (fields_of row.now) ≡ None) }
    ensures ok { OnOk result (script.new ≡ after script.old (fields_of row.now)) }
    ensures cause { IfErr result (TellsCause (hierarchy_cause script.old.hierarchy kind.now (fields_of row.now))) }
    ensures err { OnErr result (script.new ≡ script.old) }
{
    match kind {
        Kind::Volap => Ok(()),
        Kind::Use => {
            script.with = settings(row);
            Ok(())
        }
        Kind::Dim => add_dim(alloc, &mut script.hierarchy, row),
        Kind::Concept => add_concept(alloc, &mut script.hierarchy, row),
        Kind::Insert => {
            script.commands.push(Command::Insert(new_row(alloc, row)?))?;
            Ok(())
        }
        Kind::Query => {
            script.commands.push(Command::Query(question(alloc, row)?))?;
            Ok(())
        }
        Kind::Group => add_group(alloc, script, row),
        Kind::Sync
        | Kind::Split
        | Kind::Move
        | Kind::Balance
        | Kind::Barrier
        | Kind::Settle
        | Kind::Shards
        | Kind::Tree
        | Kind::Audit => {
            add_call(&mut script.commands, kind, row)?;
            Ok(())
        }
    }
}

/// The called command that a record of this kind is, if it is one without names.
fn call_by(kind: &Kind, row: &ByteRecord) -> Option<Call>
    requires { wrong_number 256 kind.now (fields_of row.now) ≡ false }
    ensures { result ≡ call_by kind.now (fields_of row.now) }
{
    match kind {
        Kind::Sync => Some(Call::Sync(value_u8(field(row, 1)))),
        Kind::Split => Some(Call::Split(value_u32(field(row, 1)))),
        Kind::Move => Some(Call::Move(value_u32(field(row, 1)), value_u8(field(row, 2)))),
        Kind::Balance => Some(Call::Balance(value_u8(field(row, 1)))),
        Kind::Tree => Some(Call::Tree(value_u32(field(row, 1)))),
        Kind::Barrier => Some(Call::Barrier),
        Kind::Settle => Some(Call::Settle),
        Kind::Shards => Some(Call::Shards),
        Kind::Audit => Some(Call::Audit),
        _ => None,
    }
}

/// Adds the called command that a record of this kind is, if it is one without names.
fn add_call(commands: &mut Commands, kind: &Kind, row: &ByteRecord) -> Result<(), AllocError>
    requires { wrong_number 256 kind.now (fields_of row.now) ≡ false }
    ensures ok { OnOk result (commands.new ≡ commands.old ++ option_to_list (option_map Command.Control (call_by kind.now (fields_of row.now)))) }
    ensures err { OnErr result (commands.new ≡ commands.old) }
{
    if let Some(call) = call_by(kind, row) {
        commands.push(Command::Control(call))?;
    }
    Ok(())
}

/// Adds the command of a `group` record.
fn add_group(alloc: Global, script: &mut Script, row: &ByteRecord) -> Result<(), RecordFault>
    requires fields { 3 ≤ length (fields_of row.now) }
    requires level { in_range (field (fields_of row.now) 2) 1 most_levels ≡ true }
    ensures no_cause { OnOk result (hierarchy_cause script.old.hierarchy kind.Group (fields_of row.now) ≡ None) }
    ensures ok { OnOk result (script.new ≡ record script.old { commands = script.old.commands ++ option_to_list (command_by (Some kind.Group) script.old.hierarchy (fields_of row.now)) }) }
    ensures cause { IfErr result (TellsCause (hierarchy_cause script.old.hierarchy kind.Group (fields_of row.now))) }
    ensures err { OnErr result (script.new ≡ script.old) }
{
    let Some(dim) = script.hierarchy.find_dim(field(row, 1)) else {
        return Err(RecordFault::Bad(Cause::NoDim));
    };
    let level = value_u8(field(row, 2));
    if level > script.hierarchy.levels(dim) {
        return Err(RecordFault::Bad(Cause::TooDeep));
    }
    let filter = filter(alloc, row, 3)?;
    script.commands.push(Command::Group { dim, level, filter })?;
    Ok(())
}

/// The settings of a `use` record.
fn settings(row: &ByteRecord) -> Use
    requires { wrong_number 0 kind.Use (fields_of row.now) ≡ false }
    ensures { result ≡ settings_in (fields_of row.now) }
{
    Use {
        servers: value_u8(field(row, 1)),
        workers: value_u8(field(row, 2)),
        threads: value_u8(field(row, 3)),
        cells: value_u32(field(row, 4)),
    }
}

/// Adds the dimension of a `dim` record.
fn add_dim(alloc: Global, hierarchy: &mut Hierarchy, row: &ByteRecord) -> Result<(), RecordFault>
    requires { in_range (field (fields_of row.now) 2) 1 most_levels ≡ true }
    ensures no_cause { OnOk result (hierarchy_cause hierarchy.old kind.Dim (fields_of row.now) ≡ None) }
    ensures ok { OnOk result (hierarchy.new ≡ hierarchy_with (Some kind.Dim) hierarchy.old (fields_of row.now)) }
    ensures cause { IfErr result (TellsCause (hierarchy_cause hierarchy.old kind.Dim (fields_of row.now))) }
    ensures err { OnErr result (hierarchy.new ≡ hierarchy.old) }
{
    let name = Name::from_bytes(alloc, field(row, 1))?;
    match hierarchy.add_dim(&name, value_u8(field(row, 2))) {
        Ok(_) => Ok(()),
        Err(DimFault::Full) => Err(RecordFault::Bad(Cause::DimFull)),
        Err(DimFault::Twice) => Err(RecordFault::Bad(Cause::DimTwice)),
        Err(DimFault::BadLevels) => Err(RecordFault::Bad(Cause::Number)),
        Err(DimFault::NoMemory) => Err(RecordFault::NoMemory),
    }
}

/// Adds the concept of a `concept` record.
fn add_concept(
    alloc: Global,
    hierarchy: &mut Hierarchy,
    row: &ByteRecord,
) -> Result<(), RecordFault>
    ensures no_cause { OnOk result (hierarchy_cause hierarchy.old kind.Concept (fields_of row.now) ≡ None) }
    ensures ok { OnOk result (hierarchy.new ≡ hierarchy_with (Some kind.Concept) hierarchy.old (fields_of row.now)) }
    ensures cause { IfErr result (TellsCause (hierarchy_cause hierarchy.old kind.Concept (fields_of row.now))) }
    ensures err { OnErr result (hierarchy.new ≡ hierarchy.old) }
{
    let Some(dim) = hierarchy.find_dim(field(row, 1)) else {
        return Err(RecordFault::Bad(Cause::NoDim));
    };
    let Some(parent) = parent(hierarchy, dim, field(row, 3)) else {
        return Err(RecordFault::Bad(Cause::NoParent));
    };
    let name = Name::from_bytes(alloc, field(row, 2))?;
    match hierarchy.add_concept(dim, &name, Some(parent)) {
        Ok(_) => Ok(()),
        Err(ConceptFault::NoDim) => Err(RecordFault::Bad(Cause::NoDim)),
        Err(ConceptFault::NoParent) => Err(RecordFault::Bad(Cause::NoParent)),
        Err(ConceptFault::Twice) => Err(RecordFault::Bad(Cause::ConceptTwice)),
        Err(ConceptFault::TooDeep) => Err(RecordFault::Bad(Cause::TooDeep)),
        Err(ConceptFault::NoMemory) => Err(RecordFault::NoMemory),
    }
}

/// The concept that a field names as a parent: `ALL` for `*`.
fn parent(hierarchy: &Hierarchy, dim: u8, name: &[u8]) -> Option<ConceptId>
    ensures { result ≡ parent_of hierarchy.now dim name.now }
{
    if is_star(name) {
        Some(ConceptId::ALL)
    } else {
        hierarchy.find_bytes(dim, name)
    }
}

/// The row of an `insert` record.
fn new_row(alloc: Global, row: &ByteRecord) -> Result<NewRow, AllocError>
    requires server { is_below (field (fields_of row.now) 1) 256 ≡ true }
    requires fields { 3 ≤ length (fields_of row.now) }
    requires names { list_all is_name (drop 3 (fields_of row.now)) ≡ true }
    ensures { IfOk result
        (λ new. command_by (Some kind.Insert) [] (fields_of row.now) ≡ Some (Command.Insert new)) }
{
    Ok(NewRow {
        server: value_u8(field(row, 1)),
        measures: measure(field(row, 2)).unwrap_or(0),
        names: names(alloc, row, 3)?,
    })
}

/// The question of a `query` record.
fn question(alloc: Global, row: &ByteRecord) -> Result<Question, AllocError>
    requires server { is_below (field (fields_of row.now) 1) 256 ≡ true }
    requires fields { 2 ≤ length (fields_of row.now) }
    ensures { IfOk result
        (λ question. command_by (Some kind.Query) [] (fields_of row.now) ≡ Some (Command.Query question)) }
{
    Ok(Question {
        server: value_u8(field(row, 1)),
        filter: filter(alloc, row, 2)?,
    })
}
