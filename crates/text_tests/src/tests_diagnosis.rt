//! Tests of what a diagnosis says of refused texts, beside those in `tests_refused_diagnosis`.

use puzzle_text::*;
use std::alloc::Global;
use std::test::Fail;

/// Returns the diagnosis of a text, which the format's reader has to refuse.
fn diagnosis_of<'a>(
    alloc: Global,
    format: Format,
    text: &'a [u8],
) -> Result<TextDiagnosis<'a>, Fail> {
    let fault = format.read(alloc, text).err().ok_or("a text is accepted")?;
    Ok(diagnose_text(alloc, format, text, fault)?)
}

/// Refused texts, each with its fault, the text of the line that this names, and its form.
static REFUSED: [(Format, &[u8], TextFault, Option<&[u8]>, Option<TextForm>); 7] = [
    (
        Format::Mk,
        b"\xEF\xBB\xBF1 1\n1\n#\n1\n",
        TextFault::BadSize,
        None,
        Some(TextForm::ByteOrderMark),
    ),
    (
        Format::Nin,
        b"\xFF\xFE1\0 \x001\0\n\0",
        TextFault::BadSize,
        None,
        Some(TextForm::Utf16),
    ),
    (
        Format::Nin,
        b"\xFE\xFF\x001\0 \x001\0\n",
        TextFault::BadSize,
        None,
        Some(TextForm::Utf16),
    ),
    (
        Format::Mk,
        b"1 1\r1\r#\r1\r",
        TextFault::BadSize,
        None,
        Some(TextForm::LoneReturns),
    ),
    (
        Format::Mk,
        b"1 1\r\n2 x\t\r\n#\r\n1\r\n",
        TextFault::BadNumber(2),
        Some(b"2 x"),
        None,
    ),
    (
        Format::Non,
        b"\n  7\nwidth 1\nheight 1\nrows\n1\ncolumns\n1\n",
        TextFault::BadLine(2),
        Some(b"7"),
        None,
    ),
    (Format::Nin, b"1 1\n1\n", TextFault::BadCount, None, None),
];

#[test]
fn a_diagnosis_has_the_named_line_and_the_form(rt: HostRuntime) -> Result<(), Fail> {
    for (format, text, fault, line, form) in REFUSED {
        let found = diagnosis_of(rt.alloc(), format, text)?;
        assert_eq!(rt; found.fault, fault);
        assert_eq!(rt; found.line, line);
        assert_eq!(rt; found.form, form);
    }
    Ok(())
}

/// Refused texts, each with its fault, and what it has and should have.
static COUNTED: [(Format, &[u8], TextFault, Option<TextCounts>); 6] = [
    // The blank line is no clue line, since two lines come below it.
    (
        Format::Non,
        b"width 2\nheight 2\nrows\n1\n\n1\n1\ncolumns\n1\n1\n",
        TextFault::BadCount,
        Some(TextCounts::Sections {
            rows: Count {
                found: 3,
                wanted: 2,
            },
            columns: Count {
                found: 2,
                wanted: 2,
            },
        }),
    ),
    // The blank line is the second row's clue.
    (
        Format::Non,
        b"width 2\nheight 2\nrows\n1\n\ncolumns\n1\n",
        TextFault::BadCount,
        Some(TextCounts::Sections {
            rows: Count {
                found: 2,
                wanted: 2,
            },
            columns: Count {
                found: 1,
                wanted: 2,
            },
        }),
    ),
    (
        Format::Non,
        b"width 1\nheight 1\nrows\n1\ncolumns\n1\ngoal x\n",
        TextFault::BadGoal(7),
        Some(TextCounts::Goal(Count {
            found: 1,
            wanted: 1,
        })),
    ),
    (Format::Non, b"", TextFault::NoSize, None),
    (Format::Mk, b"0 1\n", TextFault::BadSize, None),
    (Format::Nin, b"1 1\nx\n1\n", TextFault::BadNumber(2), None),
];

#[test]
fn a_diagnosis_counts_what_is_found_and_wanted(rt: HostRuntime) -> Result<(), Fail> {
    for (format, text, fault, counts) in COUNTED {
        let found = diagnosis_of(rt.alloc(), format, text)?;
        assert_eq!(rt; found.fault, fault);
        assert_eq!(rt; found.counts, counts);
    }
    Ok(())
}

/// Refused `.non` texts, each with its fault and the form by which the keyword lines explain it.
static KEYWORDS: [(&[u8], TextFault, Option<TextForm>); 7] = [
    (
        b"Widht 3\nheight 1\n",
        TextFault::NoSize,
        Some(TextForm::Misspelt {
            line: 1,
            keyword: NeededKeyword::Width,
        }),
    ),
    (
        b"width 1\nheight 1\nrowss\n1\ncolumns\n1\n",
        TextFault::NoSection,
        Some(TextForm::Misspelt {
            line: 3,
            keyword: NeededKeyword::Rows,
        }),
    ),
    (
        b"width 1\nheight 1\nrows\n1\nkolumns\n1\n",
        TextFault::NoSection,
        Some(TextForm::Misspelt {
            line: 5,
            keyword: NeededKeyword::Columns,
        }),
    ),
    // Two letters are changed.
    (b"vedth 3\nheight 1\n", TextFault::NoSize, None),
    // A misspelt size is no reason for a missing section.
    (b"width 1\nheight 1\nwidht 1\n", TextFault::NoSection, None),
    (
        b"width 1\nheight 1\nrows\n1\ncolumns\n1\n\ntitle x\nwidth 1\nheight 1\n",
        TextFault::Twice(9),
        Some(TextForm::SecondPuzzle { line: 9 }),
    ),
    (
        b"width 1\nwidth 1\nheight 1\nrows\n1\ncolumns\n1\n",
        TextFault::Twice(2),
        None,
    ),
];

#[test]
fn keyword_lines_explain_a_fault(rt: HostRuntime) -> Result<(), Fail> {
    for (text, fault, form) in KEYWORDS {
        let found = diagnosis_of(rt.alloc(), Format::Non, text)?;
        assert_eq!(rt; found.fault, fault);
        assert_eq!(rt; found.form, form);
    }
    Ok(())
}

/// Refused `.mk` and `.nin` texts with a wrong number of clue lines, each with the line at which a
/// second puzzle begins, if one does.
static SECOND: [(Format, &[u8], Option<u32>); 11] = [
    (Format::Mk, b"2 1\n1\n1\n#\n2\n2 1\n1\n1\n#\n2\n", Some(6)),
    (Format::Mk, b"1 1\n1\n#\n1\n\n\n\t1 1\n1\n#\n1\n", Some(7)),
    // A column clue too many is no second puzzle, since no line below it begins with `#`.
    (Format::Mk, b"2 1\n1\n1\n#\n2\n1 1\n", None),
    // The next line after the clue lines is no size line.
    (Format::Mk, b"1 1\n1\n#\n1\n1\n1 1\n#\n1\n", None),
    (Format::Mk, b"1 1\n1\n#\n1\n0 1\n1\n#\n1\n", None),
    (Format::Nin, b"1 1\n1\n1\n1 1\n1\n1\n", Some(4)),
    (Format::Nin, b"1 1\n1\n1\n\n2 1\n\n1\n1\nabc\n", Some(5)),
    // A clue line too few, or too many, comes below the size line.
    (Format::Nin, b"1 1\n1\n1\n1 2\n1\n1\n", None),
    (Format::Nin, b"1 1\n1\n1\n2 1\n1\n1\n2\nabc\n", None),
    // With a wrong size, a clue comes where a size line would.
    (Format::Nin, b"2 1\n1\n1\n1\n1 1\n1\n1\n1\n", None),
    (Format::Nin, b"1 1\n1\n1\n1\n1\n1\n", None),
];

#[test]
fn lines_below_a_puzzle_begin_a_second_one(rt: HostRuntime) -> Result<(), Fail> {
    for (format, text, line) in SECOND {
        let found = diagnosis_of(rt.alloc(), format, text)?;
        assert_eq!(rt; found.fault, TextFault::BadCount);
        assert_eq!(rt;
            found.form,
            line.map(|line| TextForm::SecondPuzzle { line })
        );
    }
    Ok(())
}
