//! A script whose dimensions went to what runs it.
ghost use Rattle.std.specs.Prelude.{◌≡◌};

use dim_hierarchy::Hierarchy;
use row_ledger::Use;
use script_form::{Command, Commands, Script};
use std::marker::Model;
use std::snapshot::Snapshot;

/// The settings and commands of a script. Contracts see the whole script.
#[derive(Drop)]
pub struct Plan {
    with: Use,
    commands: Commands,
    whole: Snapshot<Script>,
}

impl Model for Plan {
    ghost use Rattle.std.specs.Prelude.{◌≡◌};
    ghost use Rattle.std.specs.Coded.{codes};
    ghost use Rattle.dim_hierarchy.specs.Stored.{dimension_code};
    ghost use Rattle.script_form.specs.declared.script.Script.{Script};

    ghost Value = { Script };

    ghost coded = { Prim.hlevel (codes, dimension_code) };

    ghost view = { λ p. p.whole.value };

    ghost invariant = { λ p. (p.whole.value.with ≡ p.with) × (p.whole.value.commands ≡ p.commands) };
}

impl Plan {
    /// The plan of a script, and its dimensions.
    pub fn of(script: Script) -> (Plan, Hierarchy)
        ensures plan { result.0 ≡ script }
        ensures dims { result.1 ≡ script.hierarchy }
    {
        let whole = Snapshot::of(&script);
        let Script {
            with,
            hierarchy,
            commands,
        } = script;
        let plan = Plan {
            with,
            commands,
            whole,
        };
        (plan, hierarchy)
    }

    /// Its settings.
    pub fn with(&self) -> &Use
        ensures { result.now ≡ self.now.with }
    {
        &self.with
    }

    /// Its commands, in their order.
    pub fn commands(&self) -> &[Command]
        ensures { result.now ≡ self.now.commands }
    {
        self.commands.as_slice()
    }
}
