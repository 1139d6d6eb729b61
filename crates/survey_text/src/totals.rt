//! The totals of a survey, and its last line, which states them.

ghost use Rattle.std.specs.Prelude.{◌≡◌, ◌+◌, ◌++◌, ◌^◌, ◌<◌, [], List, length, OnOk, codes};
ghost use Rattle.std.specs.Str.{bytes_eq};
ghost use Rattle.survey_text.specs.Entries.{GradedEntry, grade_word, verdict_word};
ghost use Rattle.survey_text.specs.steps.Entries.{shown_listed};
ghost use Rattle.survey_text.specs.Chunks.{IsTotals};
ghost use Rattle.survey_text.specs.Totals.{count_text, has_grade, has_status};
ghost use Rattle.survey_text.specs.steps.Tallies.{CanCountGrades, CanCount, CanCountVerdicts, grades_text, one_more_where, statuses_text, sum_of, totals_text};

use crate::listed::ListedEntry;
use grid_core::NoMemory;
use puzzle_text::{push_bytes, push_number};
use solve_core::{Grade, Verdict};

/// How many puzzles have each verdict.
#[derive(Clone, Copy)]
pub struct VerdictTotals {
    /// How many have no solution.
    pub none: usize,
    /// How many have one solution.
    pub one: usize,
    /// How many have several solutions.
    pub several: usize,
    /// How many are unsettled.
    pub unsettled: usize,
}

impl VerdictTotals {
    /// Counts `verdict` once.
    fn count(&mut self, verdict: &Verdict)
        requires { CanCountVerdicts self.old }
        ensures none { self.new.none
            ≡ one_more_where (bytes_eq (verdict_word verdict.now) (codes "none"))
            self.old.none }
        ensures one { self.new.one
            ≡ one_more_where (bytes_eq (verdict_word verdict.now) (codes "one"))
            self.old.one }
        ensures several { self.new.several
            ≡ one_more_where (bytes_eq (verdict_word verdict.now) (codes "several"))
            self.old.several }
        ensures unsettled { self.new.unsettled
            ≡ one_more_where (bytes_eq (verdict_word verdict.now) (codes "unsettled"))
            self.old.unsettled }
    {
        match verdict {
            Verdict::Nothing => self.none += 1,
            Verdict::One(_) => self.one += 1,
            Verdict::Several(_, _) => self.several += 1,
            Verdict::Unsettled(_) => self.unsettled += 1,
        }
    }

    /// Adds the totals of other puzzles. A sum that exceeds the greatest `usize` becomes that one,
    /// so that callers need no bound.
    fn add(&mut self, others: &VerdictTotals)
        ensures none { self.new.none ≡ sum_of self.old.none others.now.none }
        ensures one { self.new.one ≡ sum_of self.old.one others.now.one }
        ensures several { self.new.several ≡ sum_of self.old.several others.now.several }
        ensures unsettled { self.new.unsettled ≡ sum_of self.old.unsettled others.now.unsettled }
    {
        self.none = self.none.saturating_add(others.none);
        self.one = self.one.saturating_add(others.one);
        self.several = self.several.saturating_add(others.several);
        self.unsettled = self.unsettled.saturating_add(others.unsettled);
    }
}

/// How many puzzles have each grade.
#[derive(Clone, Copy)]
pub struct GradeTotals {
    /// How many have the grade `line`.
    pub by_lines: usize,
    /// How many have the grade `trials`.
    pub by_trials: usize,
    /// How many have the grade `search`.
    pub by_search: usize,
}

impl GradeTotals {
    /// Counts `grade` once.
    fn count(&mut self, grade: Grade)
        requires { CanCountGrades self.old }
        ensures by_lines { self.new.by_lines
            ≡ one_more_where (bytes_eq (grade_word grade) (codes "line"))
            self.old.by_lines }
        ensures by_trials { self.new.by_trials
            ≡ one_more_where (bytes_eq (grade_word grade) (codes "trials"))
            self.old.by_trials }
        ensures by_search { self.new.by_search
            ≡ one_more_where (bytes_eq (grade_word grade) (codes "search"))
            self.old.by_search }
    {
        match grade {
            Grade::Lines => self.by_lines += 1,
            Grade::Trials => self.by_trials += 1,
            Grade::Search => self.by_search += 1,
        }
    }

    /// Adds the totals of other puzzles. A sum that exceeds the greatest `usize` becomes that one,
    /// so that callers need no bound.
    fn add(&mut self, others: &GradeTotals)
        ensures by_lines { self.new.by_lines ≡ sum_of self.old.by_lines others.now.by_lines }
        ensures by_trials { self.new.by_trials ≡ sum_of self.old.by_trials others.now.by_trials }
        ensures by_search { self.new.by_search ≡ sum_of self.old.by_search others.now.by_search }
    {
        self.by_lines = self.by_lines.saturating_add(others.by_lines);
        self.by_trials = self.by_trials.saturating_add(others.by_trials);
        self.by_search = self.by_search.saturating_add(others.by_search);
    }
}

/// How many entries there are, how many are refused, and how many have each verdict and each grade.
#[derive(Clone, Copy)]
pub struct Totals {
    /// How many entries there are.
    pub entries: usize,
    /// How many entries are refused.
    pub refused: usize,
    /// How many puzzles have each verdict.
    pub verdicts: VerdictTotals,
    /// How many puzzles have each grade.
    pub grades: GradeTotals,
}

impl Totals {
    /// Returns the totals of no entries: all are 0.
    pub(crate) fn none() -> Totals
        ensures { IsTotals result [] }
    {
        Totals {
            entries: 0,
            refused: 0,
            verdicts: VerdictTotals {
                none: 0,
                one: 0,
                several: 0,
                unsettled: 0,
            },
            grades: GradeTotals {
                by_lines: 0,
                by_trials: 0,
                by_search: 0,
            },
        }
    }

    /// Counts `entry`, and either that it is refused or its verdict and its grade.
    pub(crate) fn count(&mut self, entry: &ListedEntry<'_>)
        requires { CanCount self.old }
        ensures entries { self.new.entries ≡ self.old.entries + 1 }
        ensures refused { self.new.refused
            ≡ one_more_where (has_status (codes "refused") (shown_listed entry.now))
            self.old.refused }
        ensures none { self.new.verdicts.none
            ≡ one_more_where (has_status (codes "none") (shown_listed entry.now))
            self.old.verdicts.none }
        ensures one { self.new.verdicts.one
            ≡ one_more_where (has_status (codes "one") (shown_listed entry.now))
            self.old.verdicts.one }
        ensures several { self.new.verdicts.several
            ≡ one_more_where (has_status (codes "several") (shown_listed entry.now))
            self.old.verdicts.several }
        ensures unsettled { self.new.verdicts.unsettled
            ≡ one_more_where (has_status (codes "unsettled") (shown_listed entry.now))
            self.old.verdicts.unsettled }
        ensures by_lines { self.new.grades.by_lines
            ≡ one_more_where (has_grade (codes "line") (shown_listed entry.now))
            self.old.grades.by_lines }
        ensures by_trials { self.new.grades.by_trials
            ≡ one_more_where (has_grade (codes "trials") (shown_listed entry.now))
            self.old.grades.by_trials }
        ensures by_search { self.new.grades.by_search
            ≡ one_more_where (has_grade (codes "search") (shown_listed entry.now))
            self.old.grades.by_search }
    {
        self.entries += 1;
        match &entry.result {
            Ok(found) => {
                self.verdicts.count(&found.findings.verdict);
                self.grades.count(found.findings.grade);
            }
            Err(_) => self.refused += 1,
        }
    }

    /// Adds the totals of the entries that follow.
    pub(crate) fn add(&mut self, behind: &Totals)
        ensures { (entries others : List GradedEntry)
            → IsTotals self.old entries → IsTotals behind.now others
            → length (entries ++ others) < 2 ^ 31 → IsTotals self.new (entries ++ others) }
    {
        self.entries = self.entries.saturating_add(behind.entries);
        self.refused = self.refused.saturating_add(behind.refused);
        self.verdicts.add(&behind.verdicts);
        self.grades.add(&behind.grades);
    }

    /// Appends the counts of the refused entries and of each verdict, each after its word.
    fn push_statuses(&self, text: &mut Vec<u8>) -> Result<(), NoMemory>
        ensures { OnOk result (text.new.items ≡ text.old.items ++ statuses_text self.now) }
    {
        push_count(text, "refused", self.refused)?;
        push_count(text, "none", self.verdicts.none)?;
        push_count(text, "one", self.verdicts.one)?;
        push_count(text, "several", self.verdicts.several)?;
        push_count(text, "unsettled", self.verdicts.unsettled)
    }

    /// Appends the count of each grade, after its word.
    fn push_grades(&self, text: &mut Vec<u8>) -> Result<(), NoMemory>
        ensures { OnOk result (text.new.items ≡ text.old.items ++ grades_text self.now) }
    {
        push_count(text, "line", self.grades.by_lines)?;
        push_count(text, "trials", self.grades.by_trials)?;
        push_count(text, "search", self.grades.by_search)
    }

    /// Appends the last line of a survey: how many entries there are, how many are refused, and how
    /// many have each verdict and each grade.
    pub(crate) fn push(&self, text: &mut Vec<u8>) -> Result<(), NoMemory>
        ensures { OnOk result (text.new.items ≡ text.old.items ++ totals_text self.now) }
    {
        push_bytes(text, b"entries ")?;
        push_number(text, self.entries as u64)?;
        self.push_statuses(text)?;
        self.push_grades(text)?;
        push_bytes(text, b"\n")
    }
}

/// Appends `word` and `count`, each after a space.
fn push_count(text: &mut Vec<u8>, word: &str, count: usize) -> Result<(), NoMemory>
    ensures { OnOk result (text.new.items ≡ text.old.items ++ count_text word.now count) }
{
    push_bytes(text, b" ")?;
    push_bytes(text, word.as_bytes())?;
    push_bytes(text, b" ")?;
    push_number(text, count as u64)
}
