//! The ends of the help of the commands that print a line for each puzzle.

/// The end of the help of a command that grades: `$prints`, the meaning of a printed line, and
/// `$further`.
macro_rules! grading_help {
    ($prints:literal, $further:literal) => {
        concat!(
            $prints,
            "
VERDICT: none, one or several solutions, or unsettled if the guess limit was reached.
GRADE: what solving takes: line (logic), trials (assume a colour until it contradicts), search.
LINE, TRIALS: cells known after each. GOAL: absent, or whether it meets or misses the clues.
If unsettled, try --guesses 1000000 (mostly still a fraction of a second), or the other --pick.

",
            $further
        )
    };
}

/// The end of the help of `survey`.
pub(crate) const SURVEY_HELP: &str = grading_help!(
    "Prints a line for each puzzle, and a line of totals.
Each line is N WxH VERDICT GRADE LINE TRIALS GUESSES GOAL NAME, or N refused WORD NAME.",
    "Formats: text is these lines. csv is a table, for spreadsheets. json is all that is known, an object a line.
html is one page with a picture of each puzzle, to look at in a browser and to print:
nonograde survey --format html puzzles/heart.non > heart.html

A collection is one text, each puzzle below a line \"@ NAME\". As FILE it is refused: give it on standard input:
nonograde survey < puzzles/collection.txt

Example: nonograde survey --lanes 8 --show puzzles/heart.non puzzles/cat.mk

Exit status: 0 if the survey was printed, 1 at a fault, 2 if the command line is refused."
);

/// The end of the help of `solve`.
pub(crate) const SOLVE_HELP: &str = grading_help!(
    "Prints a line for the puzzle, then its solutions: none, one or two of them.
The line is 1 WxH VERDICT GRADE LINE TRIALS GUESSES GOAL NAME.",
    "Example: nonograde solve puzzles/heart.non

Exit status: 0 if the line was printed, 1 at a fault, 2 if the command line is refused."
);
