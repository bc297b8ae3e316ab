//! Scripts: what a text must be to be run, and the reader of such texts.
//!
//! `read_script` gives the script that the records of a text are, or the number of its first bad record and
//! the first cause of it, in the order of `Cause` (`answer`; the definition is `script` in
//! `specs/Scripts.antt`). The settings of a script are in their ranges (`settings`), each insert and query
//! names one of its servers and has a name or a pick for each dimension, a group has a pick for each and a level
//! of a dimension that stands (`fits`), and a script with a command has a dimension (`dims`).
//!
//! `script_laws` says when records are a script: there is one, and none has a cause. `field` reads numbers,
//! measures and names as `specs/Fields.antt` defines them. The whole script is held in memory. Where none is
//! found, and at 2^28 concepts, the answer is `NoMemory`, which says nothing of the text.
#![tactic(auto)]

pub mod field;
mod form;
mod laws;
mod limits;
mod names;
mod reader;
mod record;
mod script;
mod table;

pub use laws::script_laws;
pub use reader::read_script;
pub use script::{Cause, Command, Commands, NewRow, Question, Script, ScriptFault};
