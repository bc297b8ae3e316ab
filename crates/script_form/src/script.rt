//! Scripts, and why a text is none.
use dim_hierarchy::{Hierarchy, Items, Measures, NameFilter, RowNames};
use row_ledger::{Call, Use};

/// Why a record is bad, in the order in which causes count.
#[derive(Clone, Copy, Debug, PartialEq, Eq)]
pub enum Cause {
    /// The first record is not the two fields `volap`, `1`, or there is none.
    Version,
    /// The first field names no kind of record.
    Kind,
    /// A record of this kind may not stand here.
    Order,
    /// It has another number of fields than its kind.
    Fields,
    /// A number field is no number in its range.
    Number,
    /// A name field, or a piece of a filter, is no name.
    Name,
    /// There are 8 dimensions already.
    DimFull,
    /// A dimension has the name already.
    DimTwice,
    /// The dimension of a concept or of a group does not stand.
    NoDim,
    /// The parent is neither `*` nor a concept of the dimension.
    NoParent,
    /// A concept of the dimension has the name already.
    ConceptTwice,
    /// The parent is on the leaf level, or the dimension has no level of a group's number.
    TooDeep,
}

/// Why a text was not read as a script.
#[derive(Clone, Copy, Debug, PartialEq, Eq)]
pub enum ScriptFault {
    /// The record with this number, counted from 1, is the first bad one, and why.
    Bad { at: u64, cause: Cause },
    /// No memory was found.
    NoMemory,
}

/// A row to be inserted through a server: its measure, and a name for each dimension.
#[derive(Drop)]
pub struct NewRow {
    pub server: u8,
    pub measures: Measures,
    pub names: RowNames,
}

/// A query to a server: what it asks of each dimension, by names.
#[derive(Drop)]
pub struct Question {
    pub server: u8,
    pub filter: NameFilter,
}

/// A command of a script.
#[derive(Drop)]
pub enum Command {
    Insert(NewRow),
    Query(Question),
    /// A called command without names.
    Control(Call),
    /// The aggregates of the rows under each concept of a level of a dimension, of those that the filter
    /// matches.
    Group {
        dim: u8,
        level: u8,
        filter: NameFilter,
    },
}

/// Commands in the order of the script.
pub type Commands = Items<Command>;

/// A script: its settings, its dimensions and concepts, and its commands.
#[derive(Drop)]
pub struct Script {
    pub with: Use,
    pub hierarchy: Hierarchy,
    pub commands: Commands,
}
