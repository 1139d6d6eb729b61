//! Tests of the diagnoses of refused texts with failing allocations: each allocation fails in turn.

use alloc_failures::{CallResult, expected_if, sweep};
use grid_core::NoMemory;
use puzzle_text::*;
use std::alloc::Global;
use std::test::Fail;

/// Refused texts, each with its format and its diagnosis. The first has more short lines than the
/// list of lines is made for, so that this list grows.
static DIAGNOSES: [(Format, &[u8], TextDiagnosis<'static>); 7] = [
    (
        Format::Non,
        b"width 2\nheight 2\nrows\n1\n1\n1\n1\n1\n1\n1\n1\n1\n1\n1\n1\n1\n1\n1\n1\ncolumns\n1\n",
        TextDiagnosis {
            fault: TextFault::BadCount,
            line: None,
            counts: Some(TextCounts::Sections {
                rows: Count {
                    found: 16,
                    wanted: 2,
                },
                columns: Count {
                    found: 1,
                    wanted: 2,
                },
            }),
            form: None,
        },
    ),
    (
        Format::Non,
        b"width 2\nheight 1\nrows\n1\ncolumns\n1\n0\ngoal \"101\"\n",
        TextDiagnosis {
            fault: TextFault::BadGoal(8),
            line: Some(b"goal \"101\""),
            counts: Some(TextCounts::Goal(Count {
                found: 3,
                wanted: 2,
            })),
            form: None,
        },
    ),
    (
        Format::Non,
        b"width 3\nhight 1\nheigth 2\n",
        TextDiagnosis {
            fault: TextFault::NoSize,
            line: None,
            counts: None,
            form: Some(TextForm::Misspelt {
                line: 2,
                keyword: NeededKeyword::Height,
            }),
        },
    ),
    (
        Format::Non,
        b"width 1\nheight 1\nrows\n1\ncolumns\n1\nWidth 2\n",
        TextDiagnosis {
            fault: TextFault::Twice(7),
            line: Some(b"Width 2"),
            counts: None,
            form: Some(TextForm::SecondPuzzle { line: 7 }),
        },
    ),
    (
        Format::Mk,
        b"2 3\n1\n1\n#\n1\n1\n#\n1\n",
        TextDiagnosis {
            fault: TextFault::BadCount,
            line: None,
            counts: Some(TextCounts::Sections {
                rows: Count {
                    found: 2,
                    wanted: 2,
                },
                columns: Count {
                    found: 2,
                    wanted: 3,
                },
            }),
            form: None,
        },
    ),
    (
        Format::Nin,
        b"2 3\n1\n1\n1\n1\n",
        TextDiagnosis {
            fault: TextFault::BadCount,
            line: None,
            counts: Some(TextCounts::Together(Count {
                found: 4,
                wanted: 5,
            })),
            form: None,
        },
    ),
    (
        Format::Nin,
        b"1 1\n 1 x\n1\n",
        TextDiagnosis {
            fault: TextFault::BadNumber(2),
            line: Some(b"1 x"),
            counts: None,
            form: None,
        },
    ),
];

/// Diagnoses a text with each allocation failing in turn. With ample memory its diagnosis is
/// `wanted`.
fn is_diagnosed_or_refused(
    alloc: Global,
    format: Format,
    text: &[u8],
    wanted: &TextDiagnosis<'_>,
) -> Result<(), Fail> {
    sweep(
        alloc,
        || match diagnose_text(alloc, format, text, wanted.fault) {
            Ok(found) => expected_if(found == *wanted),
            Err(NoMemory) => CallResult::NoMemory,
        },
    )?;
    Ok(())
}

#[test]
fn texts_are_diagnosed_or_refused(rt: HostRuntime) -> Result<(), Fail> {
    for (format, text, wanted) in &DIAGNOSES {
        assert!(rt; format.read(rt.alloc(), text).err() == Some(wanted.fault));
        is_diagnosed_or_refused(rt.alloc(), *format, text, wanted)?;
    }
    Ok(())
}
