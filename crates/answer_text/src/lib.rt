//! What is printed: the lines of commands, the text of a history, whole or phase by phase, and the answer to
//! a bad script.
//!
//! All is given byte for byte by definitions (`specs/Printed.antt`): `push_line` adds the line of a command,
//! `push_page` the lines of a page, `told` gives the whole text of a history, and `phase` that of one phase.
//! A `Teller` tells a history phase by phase while it grows, and reads each event once (`text`, `told`); it
//! asks that events refer back, as those of a right history do (`right_histories_refer_back`). `summary` is
//! that of a run of the generated script (`specs/Summary.antt`). `BadLine` writes why a script is bad.
//!
//! A phase in which a command has no end has no text. Each call may find no memory, its only error.
#![tactic(auto)]

mod answer;
mod bad;
mod index;
pub mod laws;
mod line;
mod notes;
mod pages;
mod sums;
mod text;

pub use answer::Answer;
pub use bad::BadLine;
pub use line::{Line, push_line};
pub use pages::push_page;
pub use sums::summary;
pub use text::{Teller, phase, told};
