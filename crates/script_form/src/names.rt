//! Names and filters as the fields of a record spell them.
ghost use Rattle.std.specs.Prelude.{◌≡◌, ◌≤◌, true, length, drop, map, position, IfOk};
ghost use Rattle.std.specs.List.{list_all};
ghost use Rattle.csv.specs.Records.{fields_of};
ghost use Rattle.script_form.specs.Fields.{is_bar, is_name, is_pick, pieces};
ghost use Rattle.script_form.specs.Scripts.{pick_of};

use crate::field::{field, is_name, is_star};
use csv::ByteRecord;
use dim_hierarchy::{Name, NameFilter, NamePick, Names, RowNames};
use std::alloc::{AllocError, Global};

/// The place of the first vertical bar.
fn first_bar(text: &[u8]) -> Option<usize>
    ensures { result ≡ position is_bar text.now }
{
    text.iter().position(|b| *b == b'|')
}

/// Whether this can be a pick of a filter: `*`, or names joined by vertical bars.
#[tactic(auto, using(crate::proofs::PieceFacts::split_some, crate::proofs::PieceFacts::split_none, crate::proofs::PieceFacts::position_below))]
fn is_pick(text: &[u8]) -> bool
    ensures { result ≡ is_pick text.now }
{
    if is_star(text) {
        return true;
    }
    let mut rest = text;
    while let Some(bar) = first_bar(rest) {
        if !is_name(&rest[..bar]) {
            return false;
        }
        rest = &rest[bar + 1..];
    }
    is_name(rest)
}

/// Whether the fields from a place on are names.
#[tactic(auto, using(crate::proofs::FieldFacts::drop_field))]
pub(crate) fn are_names(row: &ByteRecord, from: usize) -> bool
    ensures { result ≡ list_all is_name (drop from (fields_of row.now)) }
{
    for i in from..row.len() {
        if !is_name(field(row, i)) {
            return false;
        }
    }
    true
}

/// Whether the fields from a place on are picks of a filter.
#[tactic(auto, using(crate::proofs::FieldFacts::drop_field))]
pub(crate) fn are_picks(row: &ByteRecord, from: usize) -> bool
    ensures { result ≡ list_all is_pick (drop from (fields_of row.now)) }
{
    for i in from..row.len() {
        if !is_pick(field(row, i)) {
            return false;
        }
    }
    true
}

/// The fields from a place on, as a row's names.
pub(crate) fn names(alloc: Global, row: &ByteRecord, from: usize) -> Result<RowNames, AllocError>
    requires within { from ≤ length (fields_of row.now) }
    requires names { list_all is_name (drop from (fields_of row.now)) ≡ true }
    ensures { IfOk result (λ names. names ≡ drop from (fields_of row.now)) }
{
    let mut names = RowNames::with_capacity(alloc, room(row, from))?;
    for i in from..row.len() {
        names.push(field(row, i))?;
    }
    Ok(names)
}

/// How many bytes the fields from a place on take as a row's names.
fn room(row: &ByteRecord, from: usize) -> usize {
    let mut bytes: usize = 0;
    for i in from..row.len() {
        bytes = bytes.saturating_add(1 + field(row, i).len());
    }
    bytes
}

/// The fields from a place on, as a filter.
pub(crate) fn filter(alloc: Global, row: &ByteRecord, from: usize) -> Result<NameFilter, AllocError>
    requires { from ≤ length (fields_of row.now) }
    ensures { IfOk result (λ filter. filter ≡ map pick_of (drop from (fields_of row.now))) }
{
    let mut filter = NameFilter::new(alloc);
    for i in from..row.len() {
        filter.push(pick(alloc, field(row, i))?)?;
    }
    Ok(filter)
}

/// What a field picks.
fn pick(alloc: Global, text: &[u8]) -> Result<NamePick, AllocError>
    ensures { IfOk result (λ pick. pick ≡ pick_of text.now) }
{
    if is_star(text) {
        Ok(NamePick::All)
    } else {
        Ok(NamePick::Any(pieces(alloc, text)?))
    }
}

/// The names that vertical bars part.
#[tactic(auto, using(crate::proofs::PieceFacts::split_some, crate::proofs::PieceFacts::split_none, crate::proofs::PieceFacts::position_below))]
fn pieces(alloc: Global, text: &[u8]) -> Result<Names, AllocError>
    ensures { IfOk result (λ names. names ≡ pieces text.now) }
{
    let mut names = Names::new(alloc);
    let mut rest = text;
    while let Some(bar) = first_bar(rest) {
        names.push(Name::from_bytes(alloc, &rest[..bar])?)?;
        rest = &rest[bar + 1..];
    }
    names.push(Name::from_bytes(alloc, rest)?)?;
    Ok(names)
}
