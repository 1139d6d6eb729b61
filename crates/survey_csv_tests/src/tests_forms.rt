//! Tests of the form of csv. The lines, with their messages, are written by hand.

use crate::tests::{listed, outcome_of};
use std::process::Abort;
use std::test::Fail;
use survey_csv::CsvForm;
use survey_text::{GradeTotals, SurveyForm, Totals, VerdictTotals};

/// The totals of no entries.
const NO_TOTALS: Totals = Totals {
    entries: 0,
    refused: 0,
    verdicts: VerdictTotals {
        none: 0,
        one: 0,
        several: 0,
        unsettled: 0,
    },
    grades: GradeTotals {
        by_lines: 0,
        by_trials: 0,
        by_search: 0,
    },
};

/// Asserts the record of entry 5 with a name and a text.
fn assert_entry(
    rt: &(impl Abort + AllocGlobal),
    name: &[u8],
    body: &[u8],
    wanted: &[u8],
) -> Result<(), Fail> {
    let alloc = rt.alloc();
    let outcome = outcome_of(alloc, name, body, 1000);
    let entry = listed(name, body, &outcome)?;
    let mut text = Vec::new(alloc);
    CsvForm { alloc }.push_entry(&mut text, 5, &entry)?;
    assert_eq!(rt; text.as_slice(), wanted);
    Ok(())
}

#[test]
fn graded_entries_have_messages(rt: HostRuntime) -> Result<(), Fail> {
    assert_entry(
        &rt,
        b"a.mk",
        b"1 1\n1\n#\n1\n",
        b"5,a.mk,1,1,one,line,1,1,0,absent,,,,,\n",
    )?;
    assert_entry(
        &rt,
        b"a.non",
        b"width 2\nheight 3\nrows\n1\n1\n2\ncolumns\n1,1\n2\ngoal \"110110\"\n",
        b"5,a.non,2,3,one,line,6,6,0,misses,,,\
        \"the goal differs from the only solution in rows 1, 3\",,\n",
    )?;
    assert_entry(
        &rt,
        b"a.non",
        b"title T\nby B\nwidth 2\nheight 2\nrows\n1\n1\ncolumns\n1\n1\n",
        b"5,a.non,2,2,several,search,0,0,2,absent,,,\
        \"at least two solutions, which differ in 4 of 4 cells\",T,B\n",
    )
}

#[test]
fn refused_entries_have_messages(rt: HostRuntime) -> Result<(), Fail> {
    assert_entry(
        &rt,
        b"a.mk",
        b"1 1\n7 x\n#\n1\n",
        b"5,a.mk,,,,,,,,,BadNumber,2,\
        \"\"\"7 x\"\" is not a clue (at most 128 numbers from 1 to 256, or 0 alone)\",,\n",
    )?;
    assert_entry(
        &rt,
        b"a.txt",
        b"",
        b"5,a.txt,,,,,,,,,UnknownFormat,,\
        \"the name has no known ending (.non, .mk or .nin)\",,\n",
    )
}

/// The header line stands before the entries, and nothing after them.
#[test]
fn heads_and_tails_are_written(rt: HostRuntime) -> Result<(), Fail> {
    let alloc = rt.alloc();
    let form = CsvForm { alloc };
    let mut text = Vec::new(alloc);
    form.push_head(&mut text)?;
    form.push_tail(&mut text, &NO_TOTALS)?;
    let wanted = b"number,name,width,height,verdict,grade,line_cells,trial_cells,guesses,goal,\
        fault,fault_line,message,title,by\n";
    assert_eq!(rt; text.as_slice(), wanted.as_slice());
    Ok(())
}
