//! The keys of an entry's object.

ghost use Rattle.std.specs.Prelude.{◌≡◌};
ghost use Rattle.json.specs.Print.{escape};
ghost use Rattle.survey_json.specs.Keys.{key_word};

/// A key under which a refused entry has null.
#[derive(Clone, Copy)]
pub(crate) enum GradedKey {
    By,
    Catalogue,
    Columns,
    Copyright,
    Differing,
    Goal,
    GoalRows,
    Grade,
    Guesses,
    Height,
    License,
    LineCells,
    Misfits,
    Rows,
    Solutions,
    Sums,
    Title,
    TrialCells,
    Verdict,
    Width,
}

/// A key of an entry's object.
#[derive(Clone, Copy)]
pub(crate) enum Key {
    Fault,
    FaultLine,
    Message,
    Name,
    Number,
    Graded(GradedKey),
}

/// All keys, in the order of their words.
pub(crate) const KEYS: [Key; 25] = [
    Key::Graded(GradedKey::By),
    Key::Graded(GradedKey::Catalogue),
    Key::Graded(GradedKey::Columns),
    Key::Graded(GradedKey::Copyright),
    Key::Graded(GradedKey::Differing),
    Key::Fault,
    Key::FaultLine,
    Key::Graded(GradedKey::Goal),
    Key::Graded(GradedKey::GoalRows),
    Key::Graded(GradedKey::Grade),
    Key::Graded(GradedKey::Guesses),
    Key::Graded(GradedKey::Height),
    Key::Graded(GradedKey::License),
    Key::Graded(GradedKey::LineCells),
    Key::Message,
    Key::Graded(GradedKey::Misfits),
    Key::Name,
    Key::Number,
    Key::Graded(GradedKey::Rows),
    Key::Graded(GradedKey::Solutions),
    Key::Graded(GradedKey::Sums),
    Key::Graded(GradedKey::Title),
    Key::Graded(GradedKey::TrialCells),
    Key::Graded(GradedKey::Verdict),
    Key::Graded(GradedKey::Width),
];

/// Returns the word for a key. JSON has it without escapes.
#[tactic(auto, unfolding(json::specs::Print::escape_byte))]
pub(crate) fn key_word(key: Key) -> &'static str
    ensures word { result.now ≡ key_word key }
    ensures plain { escape result.now ≡ result.now }
{
    match key {
        Key::Graded(GradedKey::By) => "by",
        Key::Graded(GradedKey::Catalogue) => "catalogue",
        Key::Graded(GradedKey::Columns) => "columns",
        Key::Graded(GradedKey::Copyright) => "copyright",
        Key::Graded(GradedKey::Differing) => "differing",
        Key::Fault => "fault",
        Key::FaultLine => "fault_line",
        Key::Graded(GradedKey::Goal) => "goal",
        Key::Graded(GradedKey::GoalRows) => "goal_rows",
        Key::Graded(GradedKey::Grade) => "grade",
        Key::Graded(GradedKey::Guesses) => "guesses",
        Key::Graded(GradedKey::Height) => "height",
        Key::Graded(GradedKey::License) => "license",
        Key::Graded(GradedKey::LineCells) => "line_cells",
        Key::Message => "message",
        Key::Graded(GradedKey::Misfits) => "misfits",
        Key::Name => "name",
        Key::Number => "number",
        Key::Graded(GradedKey::Rows) => "rows",
        Key::Graded(GradedKey::Solutions) => "solutions",
        Key::Graded(GradedKey::Sums) => "sums",
        Key::Graded(GradedKey::Title) => "title",
        Key::Graded(GradedKey::TrialCells) => "trial_cells",
        Key::Graded(GradedKey::Verdict) => "verdict",
        Key::Graded(GradedKey::Width) => "width",
    }
}
