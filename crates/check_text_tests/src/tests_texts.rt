//! Tests of the findings on refused texts. The printed lines are written by hand.

use check_text::push_refused;
use grid_core::NoMemory;
use puzzle_text::{Entry, EntryFault, MAX_PUZZLE_LEN, TextFault, read_entry};
use std::alloc::Global;
use std::process::Abort;
use std::test::Fail;

/// A text and its finding: the file's name, the text, and the line that is printed.
type Case = (&'static [u8], &'static [u8], &'static [u8]);

/// Returns the finding on the text `body` of the file `name`, if it is refused for `fault`.
fn refused_text(
    alloc: Global,
    name: &[u8],
    body: &[u8],
    fault: EntryFault,
) -> Result<Vec<u8>, NoMemory> {
    let mut text = Vec::new(alloc);
    push_refused(&mut text, alloc, name, body, fault)?;
    Ok(text)
}

/// Asserts that the reader refuses each text, and that its finding is the line beside it.
fn assert_findings(rt: &(impl Abort + AllocGlobal), cases: &[Case]) -> Result<(), Fail> {
    for (name, body, wanted) in cases {
        let Err(fault) = read_entry(rt.alloc(), &Entry { name, body }) else {
            panic!(rt; "a text is accepted");
        };
        let found = refused_text(rt.alloc(), name, body, fault)?;
        assert_eq!(rt; found.as_slice(), *wanted);
    }
    Ok(())
}

static FORMS: [Case; 6] = [
    (
        b"a.mk",
        b"\xEF\xBB\xBF1 1\n1\n#\n1\n",
        b"a.mk:1: error: the text begins with a byte order mark (save it as UTF-8 without one)\n",
    ),
    (
        b"a.nin",
        b"\xFF\xFE1\0 \x001\0\n\0",
        b"a.nin:1: error: the text is in UTF-16 (save it as UTF-8)\n",
    ),
    (
        b"a.mk",
        b"1 1\r1\r#\r1\r",
        b"a.mk:1: error: the lines end in CR alone (end them with LF or CR LF)\n",
    ),
    (
        b"a.non",
        b"title a\n\nwidht 2\nheight 1\n",
        b"a.non:3: error: the keyword is nearly \"width\", which is missing\n",
    ),
    (
        b"a.non",
        b"width 1\nheight 1\nrows\n1\nkolumns\n1\n",
        b"a.non:5: error: the keyword is nearly \"columns\", which is missing\n",
    ),
    (
        b"a.non",
        b"width 1\nheight 1\nrows\n1\ncolumns\n1\n\ntitle x\nwidth 1\nheight 1\n",
        b"a.non:9: error: a second puzzle begins here or just above (give each puzzle its own file)\n",
    ),
];

#[test]
fn forms_come_before_faults(rt: HostRuntime) -> Result<(), Fail> {
    assert_findings(&rt, &FORMS)
}

static SIZES: [Case; 6] = [
    (
        b"a.non",
        b"height 1\n",
        b"a.non: error: there is no line \"width N\" or no line \"height N\"\n",
    ),
    (
        b"a.mk",
        b"",
        b"a.mk: error: no line with two sizes is at the top\n",
    ),
    (
        b"a.nin",
        b"1 2 3\n",
        b"a.nin: error: no line with two sizes is at the top\n",
    ),
    (
        b"a.nin",
        b"1 257\n",
        b"a.nin: error: a size is not a number from 1 to 256\n",
    ),
    (
        b"a.non",
        b"width 1\nheight 1\ncolumns\n1\n",
        b"a.non: error: there is no line \"rows\" or no line \"columns\"\n",
    ),
    (
        b"a.mk",
        b"1 1\n1\n1\n",
        b"a.mk: error: no line with # is between the clues of the rows and of the columns\n",
    ),
];

#[test]
fn sizes_and_sections_are_missing(rt: HostRuntime) -> Result<(), Fail> {
    assert_findings(&rt, &SIZES)
}

static LINES: [Case; 3] = [
    (
        b"a.non",
        b"\n  7\nwidth 1\nheight 1\nrows\n1\ncolumns\n1\n",
        b"a.non:2: error: \"7\" belongs to no section (or is a text of more than 65,536 bytes)\n",
    ),
    (
        b"a.non",
        b"width 1\nWidth 2\nheight 1\nrows\n1\ncolumns\n1\n",
        b"a.non:2: error: \"Width 2\" repeats a keyword\n",
    ),
    (
        b"a.mk",
        b"1 1\n\n\n7\t\xFFx \n#\n1\n",
        b"a.mk:4: error: \"7??x\" is not a clue (at most 128 numbers from 1 to 256, or 0 alone)\n",
    ),
];

#[test]
fn lines_are_quoted(rt: HostRuntime) -> Result<(), Fail> {
    assert_findings(&rt, &LINES)
}

static COUNTS: [Case; 4] = [
    (
        b"a.mk",
        b"3 2\n1\n1\n#\n1\n0\n",
        b"a.mk: error: there are 2 clue lines for 3 rows, and 2 for 2 columns\n",
    ),
    (
        b"a.nin",
        b"2 3\n1\n1\n1\n1\n1\n1\n",
        b"a.nin: error: there are 6 clue lines for 5 rows and columns\n",
    ),
    (
        b"a.non",
        b"width 2\nheight 1\nrows\n1\ncolumns\n1\n0\ngoal \"101\"\n",
        b"a.non:8: error: the goal has 3 characters for 2 cells\n",
    ),
    (
        b"a.non",
        b"width 1\nheight 1\nrows\n1\ncolumns\n1\ngoal x\n",
        b"a.non:7: error: the goal has a character other than 0 and 1\n",
    ),
];

#[test]
fn counts_are_printed(rt: HostRuntime) -> Result<(), Fail> {
    assert_findings(&rt, &COUNTS)
}

/// Names with an unknown ending, with control bytes, and with other bytes.
static NAMES: [Case; 3] = [
    (
        b"a.txt",
        b"1 1\n1\n#\n1\n",
        b"a.txt: error: the name has no known ending (.non, .mk or .nin)\n",
    ),
    (
        b"\ta\n.MK",
        b"0 1\n",
        b"?a?.MK: error: a size is not a number from 1 to 256\n",
    ),
    (
        b"\x7F\xC3\xA9.nin",
        b"0 1\n",
        b"?\xC3\xA9.nin: error: a size is not a number from 1 to 256\n",
    ),
];

#[test]
fn names_are_printed_without_control_bytes(rt: HostRuntime) -> Result<(), Fail> {
    assert_findings(&rt, &NAMES)
}

/// A line of 60 bytes is quoted whole, and one of 61 bytes is cut.
static LENGTHS: [Case; 2] = [
    (
        b"a.nin",
        b"1 1\n123456789 123456789 123456789 123456789 123456789 1234567890\n1\n",
        b"a.nin:2: error: \"123456789 123456789 123456789 123456789 123456789 1234567890\" \
        is not a clue (at most 128 numbers from 1 to 256, or 0 alone)\n",
    ),
    (
        b"a.nin",
        b"1 1\n123456789 123456789 123456789 123456789 123456789 123456789 1\n1\n",
        b"a.nin:2: error: \"123456789 123456789 123456789 123456789 123456789 123456789 ..\" \
        is not a clue (at most 128 numbers from 1 to 256, or 0 alone)\n",
    ),
];

#[test]
fn long_lines_are_cut(rt: HostRuntime) -> Result<(), Fail> {
    assert_findings(&rt, &LENGTHS)
}

#[test]
fn long_texts_are_not_quoted(rt: HostRuntime) -> Result<(), Fail> {
    let mut body = Vec::new(rt.alloc());
    body.resize(MAX_PUZZLE_LEN + 1, b'\n')?;
    let fault = EntryFault::Text(TextFault::TooLong);
    let found = refused_text(rt.alloc(), b"a.mk", &body, fault)?;
    let wanted = b"a.mk: error: the text has more than 1,048,576 bytes\n";
    assert_eq!(rt; found.as_slice(), wanted.as_slice());
    Ok(())
}

/// Faults that no reader returns for the text: a line that it doesn't have, and a wrong number of
/// clue lines without sizes.
#[test]
fn faults_of_other_texts_are_printed_without_details(rt: HostRuntime) -> Result<(), Fail> {
    let alloc = rt.alloc();
    let line = refused_text(alloc, b"a.non", b"", EntryFault::Text(TextFault::Twice(7)))?;
    assert_eq!(rt;
        line.as_slice(),
        b"a.non:7: error: repeats a keyword\n".as_slice()
    );
    let count = refused_text(alloc, b"a.mk", b"", EntryFault::Text(TextFault::BadCount))?;
    let wanted = b"a.mk: error: the number of clue lines does not fit the size\n";
    assert_eq!(rt; count.as_slice(), wanted.as_slice());
    Ok(())
}

#[test]
fn missing_memory_is_no_finding(rt: HostRuntime) -> Result<(), Fail> {
    let fault = EntryFault::Text(TextFault::NoMemory);
    let answer = refused_text(rt.alloc(), b"a.mk", b"1 1\r", fault);
    assert!(rt; answer.is_err());
    Ok(())
}
