//! Tests of the line of a stop.

use program::{Stop, stop_text};
use puzzle_text::{CollectionFault, EntryFault, TextFault};
use std::test::Fail;
use survey_core::RunFault;

/// Stops, each with the line that is printed.
pub static LINES: [(Stop, &[u8]); 6] = [
    (
        Stop::Entry(EntryFault::Text(TextFault::NoSize)),
        b"nonograde: NoSize\n",
    ),
    (
        Stop::Entry(EntryFault::Text(TextFault::BadNumber(1234567))),
        b"nonograde: BadNumber:1234567\n",
    ),
    (
        Stop::Run(RunFault::Collection(CollectionFault::Stray(1))),
        b"nonograde: Stray:1\n",
    ),
    (Stop::Run(RunFault::Write(10)), b"nonograde: Write\n"),
    (Stop::Ambiguous, b"nonograde: Ambiguous\n"),
    (Stop::NoMemory, b"nonograde: NoMemory\n"),
];

#[test]
fn stops_have_their_lines(rt: HostRuntime) -> Result<(), Fail> {
    for (stop, line) in &LINES {
        let text = stop_text(rt.alloc(), stop)?;
        assert!(rt; text.as_slice() == *line, "{stop:?}");
    }
    Ok(())
}
