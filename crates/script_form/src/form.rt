//! Whether a record may stand where it does, by its fields alone.
ghost use Rattle.std.specs.Prelude.{◌≡◌, drop, IfOk, IfErr};
ghost use Rattle.csv.specs.Records.{fields_of};
ghost use Rattle.script_form.specs.Reading.{MayStand};
ghost use Rattle.script_form.specs.Causes.{are_each, cause_at, is_named, is_number, is_version, wrong_name, wrong_number, wrong_order};

use crate::field::{field, in_range, is_below, is_name, is_star, measure};
use crate::names::{are_names, are_picks};
use crate::script::{Cause, Script};
use crate::table::{Each, Field, Kind, form_of, kind_of, width};
use csv::ByteRecord;

/// The kind of a record that may stand behind so many records, of which this is the script; else
/// its first cause. What the hierarchy says against it is not asked here.
pub(crate) fn kind_at(at: u64, script: &Script, row: &ByteRecord) -> Result<&'static Kind, Cause>
    ensures ok { IfOk result (λ kind. MayStand at script.now kind.now (fields_of row.now)) }
    ensures err { IfErr result (λ cause. cause_at at script.now (fields_of row.now) ≡ Some cause) }
{
    if at == 0 && !is_version(row) {
        return Err(Cause::Version);
    }
    let Some(kind) = kind_of(field(row, 0)) else {
        return Err(Cause::Kind);
    };
    if is_wrong_order(at, script, kind) {
        return Err(Cause::Order);
    }
    if row.len() != width(kind, script.hierarchy.dims()) {
        return Err(Cause::Fields);
    }
    if is_wrong_number(script.with.servers, kind, row) {
        return Err(Cause::Number);
    }
    if is_wrong_name(kind, row) {
        return Err(Cause::Name);
    }
    Ok(kind)
}

/// Whether a record tells the one version there is.
fn is_version(row: &ByteRecord) -> bool
    ensures { result ≡ is_version (fields_of row.now) }
{
    row.len() == 2 && field(row, 0) == b"volap".as_slice() && field(row, 1) == b"1".as_slice()
}

/// Whether a record of this kind may not stand here.
fn is_wrong_order(at: u64, script: &Script, kind: &Kind) -> bool
    ensures { result ≡ wrong_order at script.now kind.now }
{
    match kind {
        Kind::Volap => at != 0,
        Kind::Use => at != 1,
        Kind::Dim | Kind::Concept => !script.commands.is_empty(),
        _ => script.hierarchy.dims() == 0,
    }
}

/// Whether a field that must be a number is none in its range.
fn is_wrong_number(servers: u8, kind: &Kind, row: &ByteRecord) -> bool
    ensures { result ≡ wrong_number servers kind.now (fields_of row.now) }
{
    for (i, must) in form_of(kind).fields.iter().enumerate() {
        if !is_number(servers, *must, field(row, i + 1)) {
            return true;
        }
    }
    false
}

/// Whether a field is in its range if it must be a number.
fn is_number(servers: u8, must: Field, text: &[u8]) -> bool
    ensures { result ≡ is_number servers must text.now }
{
    match must {
        Field::Server => is_below(text, u128::from(servers)),
        Field::Below(limit) => is_below(text, limit),
        Field::Range(low, high) => in_range(text, low, high),
        Field::Measure => measure(text).is_some(),
        Field::Any | Field::Name | Field::Parent => true,
    }
}

/// Whether a field that must be a name, or a piece of a filter, is none.
fn is_wrong_name(kind: &Kind, row: &ByteRecord) -> bool
    ensures { result ≡ wrong_name kind.now (fields_of row.now) }
{
    let form = form_of(kind);
    for (i, must) in form.fields.iter().enumerate() {
        if !is_named(*must, field(row, i + 1)) {
            return true;
        }
    }
    !are_each(form.each, row, 1 + form.fields.len())
}

/// Whether a field is a name if it must be one.
fn is_named(must: Field, text: &[u8]) -> bool
    ensures { result ≡ is_named must text.now }
{
    match must {
        Field::Name => is_name(text),
        Field::Parent => is_star(text) || is_name(text),
        Field::Any | Field::Server | Field::Below(_) | Field::Range(_, _) | Field::Measure => true,
    }
}

/// Whether the fields from a place on are as those for each dimension must be.
fn are_each(each: Each, row: &ByteRecord, from: usize) -> bool
    ensures { result ≡ are_each each (drop from (fields_of row.now)) }
{
    match each {
        Each::Nothing => true,
        Each::Name => are_names(row, from),
        Each::Pick => are_picks(row, from),
    }
}
