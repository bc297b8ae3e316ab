//! The records of the rows, and of what is done after each thousand of them.
ghost use Rattle.std.specs.Prelude.{◌≡◌, ◌++◌, ◌<◌, ◌≤◌, OnOk, string_bytes};
ghost use Rattle.volap_gen.specs.Printed.{row_fields};
ghost use Rattle.volap_gen.specs.Generated.{text_of, record_line, insert_record, measure_at, day_at, item_at, pulls, row_records, generated_rows};

use crate::names::{Dim, Leaf};
use dim_hierarchy::Measures;
use std::alloc::AllocError;
use std::fmt::Write;

/// How many rows are inserted between two balances.
const STAGE: u64 = 1000;

/// How many servers there are.
const SERVERS: u64 = 4;

/// How many shops there are.
const SHOPS: u64 = 100;

/// How many days there are.
const DAYS: u64 = 1008;

/// How many measures there are, from -100 on.
const MEASURES: u64 = 201;

/// Adds the records of the rows and of what is done after them.
pub fn push_rows(text: &mut String, rows: u64, seed: u64) -> Result<(), AllocError>
    requires { rows ≤ 200000 }
    ensures { OnOk result (string_bytes text.new ≡ string_bytes text.old ++ text_of (generated_rows rows seed)) }
{
    for i in 0..rows {
        push_row(text, rows, seed, i)?;
    }
    Ok(())
}

/// Adds a row's record and what is done after it.
fn push_row(text: &mut String, rows: u64, seed: u64, i: u64) -> Result<(), AllocError>
    requires { i < 200000 }
    ensures { OnOk result (string_bytes text.new ≡ string_bytes text.old ++ text_of (row_records rows seed i)) }
{
    push_insert(text, &row_at(seed, i))?;
    if (i + 1) % STAGE == 0 || i + 1 == rows {
        push_pulls(text)?;
    }
    Ok(())
}

/// What the record of a row says.
#[derive(Clone, Copy)]
pub struct NewRow {
    pub server: u64,
    pub measures: Measures,
    pub day: Leaf,
    pub shop: Leaf,
    pub item: Leaf,
}

/// The row with a number.
#[tactic(auto, unfolding(crate::specs::Generated::insert_record))]
fn row_at(seed: u64, i: u64) -> NewRow
    requires { i < 200000 }
    ensures { row_fields result ≡ insert_record seed i }
{
    NewRow {
        server: i % SERVERS,
        measures: measure_at(seed, i),
        day: Leaf::at(Dim::Date, day_at(seed, i)),
        shop: Leaf::at(Dim::Store, i % SHOPS),
        item: Leaf::at(Dim::Product, item_at(i)),
    }
}

/// Adds a row's record.
fn push_insert(text: &mut String, row: &NewRow) -> Result<(), AllocError>
    ensures { OnOk result (string_bytes text.new ≡ string_bytes text.old ++ record_line (row_fields row.now)) }
{
    let server = row.server;
    let measures = row.measures;
    let day = &row.day;
    let shop = &row.shop;
    let item = &row.item;
    writeln!(text, "insert,{server},{measures},{day},{shop},{item}")
}

/// Each server pulls, and the load is balanced, before the next rows begin.
#[tactic(auto, unfolding(crate::specs::Generated::pulls))]
fn push_pulls(text: &mut String) -> Result<(), AllocError>
    ensures { OnOk result (string_bytes text.new ≡ string_bytes text.old ++ text_of pulls) }
{
    text.push_str("sync,0\nsync,1\nsync,2\nsync,3\nbalance,4\nbarrier\n")
}

/// The measure of a row.
fn measure_at(seed: u64, i: u64) -> Measures
    requires { i < 200000 }
    ensures { result ≡ measure_at seed i }
{
    ((i / SHOPS + seed % MEASURES) % MEASURES) as i64 - 100
}

/// The number of a row's day.
fn day_at(seed: u64, i: u64) -> u64
    requires { i < 200000 }
    ensures { result ≡ day_at seed i }
{
    (5 * (i / SHOPS) + i % SHOPS % 5 + seed % DAYS) % DAYS
}

/// The number of a row's item.
fn item_at(i: u64) -> u64
    ensures { result ≡ item_at i }
{
    2 * (17 * (i % SHOPS) % SHOPS) + i / SHOPS % 2
}
