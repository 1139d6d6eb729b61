//! Tests of the bytes of names, titles and messages. The lines are written by hand: a field with a
//! comma, a quote, CR or LF is in quotes, with each quote in it twice, and all bytes are kept.

use crate::tests::{listed, outcome_of, record};
use grid_core::NoMemory;
use puzzle_text::EntryFault;
use std::alloc::Global;
use std::process::Abort;
use std::test::Fail;
use survey_text::ListedEntry;

/// A name and its field.
type Named = (&'static [u8], &'static [u8]);

static NAMES: [Named; 10] = [
    (b"plain.txt", b"plain.txt"),
    (b"a,b", b"\"a,b\""),
    (b"a\"b", b"\"a\"\"b\""),
    (b"\"", b"\"\"\"\""),
    (b"a\rb", b"\"a\rb\""),
    (b"a\nb", b"\"a\nb\""),
    (b"\r\n", b"\"\r\n\""),
    (b" a;b\t'", b" a;b\t'"),
    (b"\xFF\0\xC3\x28", b"\xFF\0\xC3\x28"),
    (b"\xC3\xA9,\xE2\x82", b"\"\xC3\xA9,\xE2\x82\""),
];

/// Returns the record of entry 1, which has no format.
fn refused_record(alloc: Global, name: &[u8], message: &[u8]) -> Result<Vec<u8>, NoMemory> {
    let entry = ListedEntry::refused(name, b"", EntryFault::UnknownFormat);
    let text = record(alloc, 1, &entry, message)?;
    Ok(text)
}

#[test]
fn names_are_quoted_if_needed(rt: HostRuntime) -> Result<(), Fail> {
    let alloc = rt.alloc();
    for (name, field) in &NAMES {
        let mut wanted = Vec::new(alloc);
        wanted.extend_from_slice(b"1,")?;
        wanted.extend_from_slice(field)?;
        wanted.extend_from_slice(b",,,,,,,,,UnknownFormat,,,,\n")?;
        let found = refused_record(alloc, name, b"")?;
        assert_eq!(rt; found.as_slice(), wanted.as_slice());
    }
    Ok(())
}

/// Messages are quoted by the same rule.
#[test]
fn messages_are_quoted_if_needed(rt: HostRuntime) -> Result<(), Fail> {
    let alloc = rt.alloc();
    for (message, field) in &NAMES {
        let mut wanted = Vec::new(alloc);
        wanted.extend_from_slice(b"1,a,,,,,,,,,UnknownFormat,,")?;
        wanted.extend_from_slice(field)?;
        wanted.extend_from_slice(b",,\n")?;
        let found = refused_record(alloc, b"a", message)?;
        assert_eq!(rt; found.as_slice(), wanted.as_slice());
    }
    Ok(())
}

/// Asserts the record of entry 1, `a.non`, whose text has one cell and these lines of texts.
fn assert_texts(rt: &(impl Abort + AllocGlobal), lines: &[u8], wanted: &[u8]) -> Result<(), Fail> {
    let alloc = rt.alloc();
    let mut body = Vec::new(alloc);
    body.extend_from_slice(lines)?;
    body.extend_from_slice(b"width 1\nheight 1\nrows\n1\ncolumns\n1\n")?;
    let outcome = outcome_of(alloc, b"a.non", &body, 0);
    let found = record(alloc, 1, &listed(b"a.non", &body, &outcome)?, b"")?;
    assert_eq!(rt; found.as_slice(), wanted);
    Ok(())
}

#[test]
fn texts_are_quoted_if_needed(rt: HostRuntime) -> Result<(), Fail> {
    assert_texts(
        &rt,
        b"title \"a \"b\", c\"\nby a\rb\n",
        b"1,a.non,1,1,one,line,1,1,0,absent,,,,\"a \"\"b\"\", c\",\"a\rb\"\n",
    )?;
    assert_texts(
        &rt,
        b"title \xFF\xFE\nby \x80,\xC3\n",
        b"1,a.non,1,1,one,line,1,1,0,absent,,,,\xFF\xFE,\"\x80,\xC3\"\n",
    )?;
    assert_texts(
        &rt,
        b"catalogue 5\ncopyright C\nlicense L\n",
        b"1,a.non,1,1,one,line,1,1,0,absent,,,,,\n",
    )
}
