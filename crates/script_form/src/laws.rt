//! Laws of the definition of scripts, with no code.
ghost use Rattle.std.specs.Prelude.{◌≡◌, ◌↔◌, ◌<◌, List, ℕ, length};
ghost use Rattle.script_form.specs.Fields.{Record};
ghost use Rattle.script_form.specs.Faults.{AreFine, IsFirstFault};
ghost use Rattle.script_form.specs.Scripts.{script, script_of};
ghost use Rattle.script_form.specs.declared.script.Cause.{Cause};
ghost use Rattle.script_form.specs.declared.script.Script.{Script};
ghost use Rattle.script_form.specs.declared.script.ScriptFault.TheVariants.{Bad};

/// Records are a script exactly where none of them has a cause, and are bad exactly at the first
/// one that has, with its first cause.
pub fn script_laws()
    ensures good { (rs : List Record) (s : Script) → (script rs ≡ Ok s) ↔ ((0 < length rs) × AreFine rs × (s ≡ script_of rs)) }
    ensures bad { (rs : List Record) (at : ℕ) (cause : Cause) → 0 < length rs
        → (script rs ≡ Err (Bad at cause)) ↔ IsFirstFault rs at cause }
{}
