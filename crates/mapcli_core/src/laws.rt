//! Laws of outputs, as contracts. The functions do nothing when they run.
ghost use Rattle.std.specs.Prelude.{◌≡◌, ◌≢◌, ℕ, ℤ, None, List, [], ◌∷◌};
ghost use Rattle.bin_history.specs.Records.{RecordView};
ghost use Rattle.bin_history.specs.declared.call.Call.TheVariants.{Get, Put};
ghost use Rattle.bin_history.specs.declared.call.Reply.TheVariants.{Value};
ghost use Rattle.script.specs.Grammar.{ScriptCall};
ghost use Rattle.script.specs.declared.function.Function.{Function};
ghost use Rattle.script.specs.declared.script.Query.{Query};
ghost use Rattle.mapcli_core.specs.Determined.{HasNoSearch};
ghost use Rattle.mapcli_core.specs.Outcomes.{Outcome, IsHistoryOf, IsAllowed};
ghost use Rattle.mapcli_core.specs.Runs.{IsDetermined, IsOutputOf};
ghost use Rattle.mapcli_core.specs.Texts.{IsOutput};

/// With one client and no `search` line the output text is a function of the script's text.
pub fn one_output()
    ensures text { (text one other : List ℕ) → IsDetermined text → IsOutputOf text one →
        IsOutputOf text other → one ≡ other }
    ensures script { (calls : List ScriptCall) (queries : List Query) (o p : Outcome)
        (one other : List ℕ)
        → HasNoSearch queries → IsAllowed (calls ∷ []) o → IsAllowed (calls ∷ []) p
        → IsOutput queries o one → IsOutput queries p other → one ≡ other }
{}

/// In an allowed outcome each key by itself has a history: the calls on it of each client, in that
/// client's order and with the replies, as those of one cell.
pub fn each_key()
    ensures { (blocks : List (List ScriptCall)) (o : Outcome) (k : List ℕ)
        → IsAllowed blocks o
        → (rs : List (RecordView (List ℕ) ℤ Function)) × IsHistoryOf blocks o k rs }
{}

/// Two clients that each put a key and then miss the other's put have no allowed outcome: in one
/// order of all calls, one of the two puts comes first.
pub fn no_crossed_misses()
    ensures { (x y : List ℕ) (a b : ℤ) (o : Outcome) → x ≢ y
        → o.replies ≡ (Value None ∷ Value None ∷ []) ∷ (Value None ∷ Value None ∷ []) ∷ []
        → IsAllowed ((Put x a ∷ Get y ∷ []) ∷ (Put y b ∷ Get x ∷ []) ∷ []) o → ⊥ }
{}
