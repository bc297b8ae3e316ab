//! The table of the records: for each kind its word, the fields behind it, and what follows for
//! each dimension. All that is said of one kind alone is said here, but for what its record adds.
ghost use Rattle.std.specs.Prelude.{◌≡◌, ◌≤◌};
ghost use Rattle.std.specs.Option.{option_copied};
ghost use Rattle.script_form.specs.Table.{form_of, kind_called, kind_of, width};
ghost use Rattle.script_form.specs.declared.table.Each.TheVariants as each;

use crate::limits::{
    FEWEST_CELLS, MOST_ACTIONS, MOST_CELLS, MOST_LEVELS, MOST_SERVERS, MOST_THREADS, MOST_WORKERS,
    SHARD_IDS, WORKER_IDS,
};
use crate::script::Command;
use row_ledger::Call;

/// What a record is.
#[derive(Clone, Copy)]
pub(crate) enum Kind {
    Volap,
    Use,
    Dim,
    Concept,
    Insert,
    Query,
    Group,
    Sync,
    Split,
    Move,
    Balance,
    Barrier,
    Settle,
    Shards,
    Tree,
    Audit,
}

/// What a field must be.
#[derive(Clone, Copy)]
pub(crate) enum Field {
    /// Anything.
    Any,
    /// The number of a server, from 0 on.
    Server,
    /// A number below this.
    Below(u128),
    /// A number from the first to the second.
    Range(u128, u128),
    /// A measure.
    Measure,
    /// A name.
    Name,
    /// A name, or `*` for all concepts.
    Parent,
}

/// What follows for each dimension behind the other fields.
#[derive(Clone, Copy)]
pub(crate) enum Each {
    /// No field more.
    Nothing,
    /// A name.
    Name,
    /// `*`, or names joined by vertical bars.
    Pick,
}

/// A row of the table.
#[derive(Clone, Copy)]
pub(crate) struct Form {
    pub(crate) word: &'static str,
    pub(crate) fields: &'static [Field],
    pub(crate) each: Each,
}

/// The id of a shard.
const SHARD: Field = Field::Below(SHARD_IDS);

/// All kinds.
const KINDS: &[Kind] = &[
    Kind::Volap,
    Kind::Use,
    Kind::Dim,
    Kind::Concept,
    Kind::Insert,
    Kind::Query,
    Kind::Group,
    Kind::Sync,
    Kind::Split,
    Kind::Move,
    Kind::Balance,
    Kind::Barrier,
    Kind::Settle,
    Kind::Shards,
    Kind::Tree,
    Kind::Audit,
];

/// A row.
fn row(word: &'static str, fields: &'static [Field], each: Each) -> Form
    ensures word { result.word.now ≡ word.now }
    ensures fields { result.fields.now ≡ fields.now }
    ensures each { result.each ≡ each }
{
    Form { word, fields, each }
}

/// A row with nothing for the dimensions.
fn plain(word: &'static str, fields: &'static [Field]) -> Form
    ensures word { result.word.now ≡ word.now }
    ensures fields { result.fields.now ≡ fields.now }
    ensures each { result.each ≡ each.Nothing }
{
    row(word, fields, Each::Nothing)
}

/// The row of a kind.
pub(crate) fn form_of(kind: &Kind) -> Form
    ensures word { result.word.now ≡ (form_of kind.now).word }
    ensures fields { result.fields.now ≡ (form_of kind.now).fields }
    ensures each { result.each ≡ (form_of kind.now).each }
{
    match kind {
        Kind::Volap => plain("volap", &[Field::Any]),
        Kind::Use => plain(
            "use",
            &[
                Field::Range(1, MOST_SERVERS),
                Field::Range(1, MOST_WORKERS),
                Field::Range(1, MOST_THREADS),
                Field::Range(FEWEST_CELLS, MOST_CELLS),
            ],
        ),
        Kind::Dim => plain("dim", &[Field::Name, Field::Range(1, MOST_LEVELS)]),
        Kind::Concept => plain("concept", &[Field::Name, Field::Name, Field::Parent]),
        Kind::Insert => row("insert", &[Field::Server, Field::Measure], Each::Name),
        Kind::Query => row("query", &[Field::Server], Each::Pick),
        Kind::Group => row(
            "group",
            &[Field::Name, Field::Range(1, MOST_LEVELS)],
            Each::Pick,
        ),
        Kind::Sync => plain("sync", &[Field::Server]),
        Kind::Split => plain("split", &[SHARD]),
        Kind::Move => plain("move", &[SHARD, Field::Below(WORKER_IDS)]),
        Kind::Balance => plain("balance", &[Field::Range(1, MOST_ACTIONS)]),
        Kind::Barrier => plain("barrier", &[]),
        Kind::Settle => plain("settle", &[]),
        Kind::Shards => plain("shards", &[]),
        Kind::Tree => plain("tree", &[SHARD]),
        Kind::Audit => plain("audit", &[]),
    }
}

/// The kind of a called command.
fn kind_called(call: &Call) -> Kind
    ensures { result ≡ kind_called call.now }
{
    match call {
        Call::Sync(_) => Kind::Sync,
        Call::Split(_) => Kind::Split,
        Call::Move(_, _) => Kind::Move,
        Call::Balance(_) => Kind::Balance,
        Call::Barrier => Kind::Barrier,
        Call::Settle => Kind::Settle,
        Call::Shards => Kind::Shards,
        Call::Tree(_) => Kind::Tree,
        Call::Audit => Kind::Audit,
        Call::Group { .. } => Kind::Group,
    }
}

/// The kind that a first field names.
pub(crate) fn kind_of(word: &[u8]) -> Option<&'static Kind>
    ensures { option_copied result ≡ kind_of word.now }
{
    KINDS
        .iter()
        .find(|kind| word == form_of(kind).word.as_bytes())
}

/// How many fields a record of a kind has where there are so many dimensions.
pub(crate) fn width(kind: &Kind, dims: u8) -> usize
    requires { dims ≤ 8 }
    ensures { result ≡ width kind.now dims }
{
    let form = form_of(kind);
    let each = match form.each {
        Each::Nothing => 0,
        Each::Name | Each::Pick => usize::from(dims),
    };
    1 + form.fields.len() + each
}

impl Command {
    ghost use Rattle.std.specs.Prelude.{◌≡◌};
    ghost use Rattle.script_form.specs.Table.{word_of};

    /// The word of a command.
    pub fn word(&self) -> &'static str
        ensures { result.now ≡ word_of self.now }
    {
        let form = match self {
            Command::Insert(_) => form_of(&Kind::Insert),
            Command::Query(_) => form_of(&Kind::Query),
            Command::Control(call) => form_of(&kind_called(call)),
            Command::Group { .. } => form_of(&Kind::Group),
        };
        form.word
    }
}
