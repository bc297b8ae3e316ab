//! A law of the generated script, with no code.
ghost use Rattle.volap_gen.specs.Law.{GoodScriptLaw};

/// For every number of rows and every seed the text is read as the records that it was made of, and
/// these are a script, so that no record of it is bad.
pub fn generated_is_a_script()
    ensures { GoodScriptLaw }
{}
