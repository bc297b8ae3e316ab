//! The records of the concepts of a dimension.
ghost use Rattle.std.specs.Prelude.{◌≡◌, ◌++◌, ◌∷◌, OnOk, string_bytes};
ghost use Rattle.volap_gen.specs.Generated.{record_line, text_of, leaf_record, middle_record, top_record, leaf_records, middle_records, concept_records};

use crate::names::{Dim, Leaf, Middle, Top};
use std::alloc::AllocError;
use std::fmt::Write;

/// Adds the records of a dimension's concepts, each concept before those under it.
pub fn push_concepts(text: &mut String, dim: Dim) -> Result<(), AllocError>
    ensures { OnOk result (string_bytes text.new ≡ string_bytes text.old ++ text_of (concept_records dim)) }
{
    for number in 0..dim.top_count() {
        push_top(text, Top { dim, number })?;
    }
    Ok(())
}

/// Adds a concept of the first level and those under it.
fn push_top(text: &mut String, concept: Top) -> Result<(), AllocError>
    ensures { OnOk result (string_bytes text.new ≡ string_bytes text.old ++ text_of (top_record concept.dim concept.number ∷ middle_records concept.dim concept.number)) }
{
    let dim = concept.dim;
    writeln!(text, "concept,{dim},{concept},*")?;
    push_middles(text, concept)
}

/// Adds those of the second level that are under a concept, and those under them.
fn push_middles(text: &mut String, above: Top) -> Result<(), AllocError>
    ensures { OnOk result (string_bytes text.new ≡ string_bytes text.old ++ text_of (middle_records above.dim above.number)) }
{
    for number in 0..above.dim.middle_count() {
        push_middle(text, Middle { above, number })?;
    }
    Ok(())
}

/// Adds a concept of the second level and those under it.
fn push_middle(text: &mut String, concept: Middle) -> Result<(), AllocError>
    ensures { OnOk result (string_bytes text.new ≡ string_bytes text.old ++ text_of (middle_record concept.above.dim concept.above.number concept.number ∷ leaf_records concept.above.dim concept.above.number concept.number)) }
{
    let above = concept.above;
    let dim = above.dim;
    writeln!(text, "concept,{dim},{concept},{above}")?;
    push_leaves(text, concept)
}

/// Adds the leaf concepts under a concept.
fn push_leaves(text: &mut String, above: Middle) -> Result<(), AllocError>
    ensures { OnOk result (string_bytes text.new ≡ string_bytes text.old ++ text_of (leaf_records above.above.dim above.above.number above.number)) }
{
    for number in 0..above.above.dim.leaf_count() {
        push_leaf(text, Leaf { above, number })?;
    }
    Ok(())
}

/// Adds a leaf concept.
fn push_leaf(text: &mut String, concept: Leaf) -> Result<(), AllocError>
    ensures { OnOk result (string_bytes text.new ≡ string_bytes text.old ++ record_line (leaf_record concept.above.above.dim concept.above.above.number concept.above.number concept.number)) }
{
    let above = concept.above;
    let dim = above.above.dim;
    writeln!(text, "concept,{dim},{concept},{above}")
}
