//! The generated script as text.
ghost use Rattle.std.specs.Prelude.{◌≡◌, ◌≤◌, ◌++◌, IfOk, OnOk, string_bytes};
ghost use Rattle.volap_gen.specs.Generated.{text_of, generated, opening, closing};

use crate::concepts::push_concepts;
use crate::names::Dim;
use crate::rows::push_rows;
use std::alloc::{AllocError, Global};

/// The generated script of so many rows, as text: the settings and the hierarchy, the rows with what
/// is done after each thousand of them, and four queries.
pub fn generate(alloc: Global, rows: u64, seed: u64) -> Result<Vec<u8>, AllocError>
    requires { rows ≤ 200000 }
    ensures { IfOk result (λ text. text.items ≡ text_of (generated rows seed)) }
{
    let mut text = String::new(alloc);
    push_opening(&mut text)?;
    push_concepts(&mut text, Dim::Date)?;
    push_concepts(&mut text, Dim::Store)?;
    push_concepts(&mut text, Dim::Product)?;
    push_rows(&mut text, rows, seed)?;
    push_closing(&mut text)?;
    Ok(text.into_bytes())
}

/// Adds the settings and the dimensions.
#[tactic(auto, unfolding(crate::specs::Generated::opening))]
fn push_opening(text: &mut String) -> Result<(), AllocError>
    ensures { OnOk result (string_bytes text.new ≡ string_bytes text.old ++ text_of opening) }
{
    text.push_str("volap,1\nuse,4,4,2,16384\ndim,date,3\ndim,store,3\ndim,product,3\n")
}

/// Adds the queries of everything, of a year, of two countries and of a group of products.
#[tactic(auto, unfolding(crate::specs::Generated::closing))]
fn push_closing(text: &mut String) -> Result<(), AllocError>
    ensures { OnOk result (string_bytes text.new ≡ string_bytes text.old ++ text_of closing) }
{
    text.push_str(
        "settle\nquery,0,*,*,*\nquery,1,y0,*,*\nquery,2,*,c1|c3,*\nquery,3,*,*,g2\naudit\n",
    )
}
