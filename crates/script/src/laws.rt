//! Laws of the language, as functions whose contracts state them.
ghost use Rattle.std.specs.Prelude.{◌≡◌, ℕ, List};
ghost use Rattle.script.specs.Grammar.{ScriptCall};
ghost use Rattle.script.specs.Reading.{Verdict, whole};
ghost use Rattle.script.specs.Verdicts.{HasVerdict, IsWithinLimits};
ghost use Rattle.script.specs.declared.script.Query.{Query};

/// A text is one script at most, and no script that is also faulty, and has one fault at most.
pub fn one_verdict()
    ensures { (text : List ℕ) (u v : Verdict) → HasVerdict text u → HasVerdict text v → u ≡ v }
{}

/// A script has 1 to 32 blocks, each of at most 1,000,000 calls.
pub fn scripts_are_within_limits()
    ensures { (text : List ℕ) (blocks : List (List ScriptCall)) (asked : List Query) →
        HasVerdict text (whole blocks asked) → IsWithinLimits blocks }
{}
