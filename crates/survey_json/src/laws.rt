//! Laws of the definitions of lines. Each law is the contract of a function that does nothing.

ghost use Rattle.std.specs.Prelude.{◌≡◌, ◌==◌, ℕ, List, false, map};
ghost use Rattle.std.specs.List.{list_any};
ghost use Rattle.grid_core.specs.Nonogram.{Nonogram};
ghost use Rattle.solve_core.specs.declared.findings.Findings.{Findings};
ghost use Rattle.survey_json.specs.Entries.{graded_keys, graded_members};
ghost use Rattle.survey_json.specs.Escaping.{escaped};

/// An escaped line has no `<`.
pub fn escaped_lines_have_no_less_than_sign()
    ensures { (line : List ℕ) → list_any (λ byte. byte == 60) (escaped line) ≡ false }
{}

/// The object of a graded entry and that of a refused one have the same keys.
pub fn entries_have_the_same_keys()
    ensures { (p : Nonogram) (findings : Findings) →
        map (λ member. member.0) (graded_members p findings) ≡ graded_keys }
{}
