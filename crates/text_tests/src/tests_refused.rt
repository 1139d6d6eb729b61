//! Tests of the calls of `puzzle_text` with failing allocations: each allocation of a call fails in
//! turn, and calls that allocate nothing are made with every allocation failing.

use crate::tests::{are_same, repeated};
use alloc_failures::{CallResult, SweepFailure, arm, disarm, expected_if, is_active, sweep};
use grid_core::{NoMemory, Puzzle};
use puzzle_text::*;
use std::alloc::Global;
use std::process::Abort;
use std::test::Fail;

/// A puzzle with three texts, a goal, a blank line as a clue, and a clue of more than 8 numbers,
/// which needs an allocation of its own.
const NON: &[u8] =
    b"title \"a\"\nby b\nlicense\nwidth 2\nheight 3\nrows\n1\n\n1 1 1 1 1 1 1 1 1 1\n\n\
    columns\n2\n1\ngoal 101010\n";

/// A puzzle with blank lines that are no clues, and a clue that needs an allocation of its own.
const MK: &[u8] = b"2 1\n\n1\n\n1 1 1 1 1 1 1 1 1 1 1 1 1 1 1 1 1 1\n\n#\n\n2\n";

/// A puzzle with blank lines that are no clues, and a clue that needs an allocation of its own.
const NIN: &[u8] = b"2 1\n1\n\n1 2 3 4 5 6 7 8 9\n\n1\n";

/// The three texts above, and for each format texts with the faults that are found after memory has
/// been allocated.
static READ: [(Format, &[u8]); 20] = [
    (Format::Non, NON),
    (Format::Non, b""),
    (Format::Non, b"width 0\nheight 1\n"),
    (Format::Non, b"width 1\nheight 1\n"),
    (Format::Non, b"7\nwidth 1\nheight 1\nrows\ncolumns\n"),
    (Format::Non, b"width 1\nwidth 1\nheight 1\nrows\ncolumns\n"),
    (Format::Non, b"width 1\nheight 1\nrows\ncolumns\n"),
    (
        Format::Non,
        b"width 1\nheight 1\nrows\n1\ncolumns\n1 1 1 1 1 1 1 1 1 1 0\n",
    ),
    (
        Format::Non,
        b"by c\nwidth 1\nheight 1\nrows\n1\ncolumns\n1\ngoal x\n",
    ),
    (Format::Mk, MK),
    (Format::Mk, b""),
    (Format::Mk, b"0 1\n"),
    (Format::Mk, b"1 1\n1\n"),
    (Format::Mk, b"1 1\n1\n#\n1\n1\n"),
    (Format::Mk, b"1 1\n1\n#\n1 1 1 1 1 1 1 1 1 1 0\n"),
    (Format::Nin, NIN),
    (Format::Nin, b""),
    (Format::Nin, b"0 1\n"),
    (Format::Nin, b"1 1\n1\n"),
    (Format::Nin, b"1 1\n1\n1 1 1 1 1 1 1 1 1 1 0\n"),
];

/// A call that allocates memory, with its arguments and its expected result.
#[derive(Clone, Copy)]
enum Call<'a> {
    /// `Format::read`, with its result with ample memory.
    Read(Format, &'a [u8], &'a Result<Puzzle, TextFault>),
    /// `read_entry`, with the result of the entry's reader with ample memory.
    ReadEntry(Entry<'a>, &'a Result<Puzzle, TextFault>),
    /// `Format::write`, with the text that it has to return, or `None` if it has to return
    /// `Ambiguous`.
    Write(&'a Puzzle, Format, Option<&'a [u8]>),
    /// `entries`, for a collection that has two.
    Cut,
    /// `fault_text`, with the text that it has to return.
    Word(EntryFault, &'a [u8]),
}

/// Classifies the result of a reader, given its result with ample memory.
fn result_of_read(
    answer: &Result<Puzzle, TextFault>,
    usual: &Result<Puzzle, TextFault>,
) -> CallResult {
    match (answer, usual) {
        (Err(TextFault::NoMemory), _) => CallResult::NoMemory,
        (Ok(puzzle), Ok(other)) => expected_if(are_same(puzzle, other)),
        (Err(fault), Err(other)) => expected_if(fault == other),
        _ => CallResult::Other,
    }
}

/// Classifies the result of `read_entry`, given the reader's result with ample memory.
fn result_of_entry(
    answer: Result<Puzzle, EntryFault>,
    usual: &Result<Puzzle, TextFault>,
) -> CallResult {
    match answer {
        Ok(puzzle) => result_of_read(&Ok(puzzle), usual),
        Err(EntryFault::Text(fault)) => result_of_read(&Err(fault), usual),
        Err(EntryFault::UnknownFormat) => CallResult::Other,
    }
}

/// Classifies the result of a writer. `wanted` is the text, or `None` if the puzzle is ambiguous.
fn result_of_written(answer: Result<Vec<u8>, WriteFault>, wanted: Option<&[u8]>) -> CallResult {
    match answer {
        Ok(text) => expected_if(wanted == Some(text.as_slice())),
        Err(WriteFault::NoMemory) => CallResult::NoMemory,
        Err(WriteFault::Ambiguous) => expected_if(wanted.is_none()),
    }
}

/// Classifies the result of `entries` for the collection of `Call::Cut`.
fn result_of_entries(answer: Result<Vec<Entry<'_>>, CollectionFault>) -> CallResult {
    match answer {
        Ok(found) => match found.as_slice() {
            [first, second] => expected_if(
                first.name == b"a".as_slice()
                    && first.body == b"1\n".as_slice()
                    && second.name == b"b".as_slice()
                    && second.body.is_empty(),
            ),
            _ => CallResult::Other,
        },
        Err(CollectionFault::NoMemory) => CallResult::NoMemory,
        Err(_) => CallResult::Other,
    }
}

/// Classifies the result of `fault_text`.
fn result_of_text(answer: Result<Vec<u8>, NoMemory>, wanted: &[u8]) -> CallResult {
    match answer {
        Ok(text) => expected_if(text.as_slice() == wanted),
        Err(NoMemory) => CallResult::NoMemory,
    }
}

/// Makes the call and classifies its result.
fn result_of(alloc: Global, call: Call<'_>) -> CallResult {
    match call {
        Call::Read(format, text, usual) => result_of_read(&format.read(alloc, text), usual),
        Call::ReadEntry(entry, usual) => result_of_entry(read_entry(alloc, &entry), usual),
        Call::Write(puzzle, format, wanted) => result_of_written(
            format.write(alloc, puzzle),
            wanted,
        ),
        Call::Cut => result_of_entries(entries(alloc, b"\n@ a\n1\n@ b\n")),
        Call::Word(fault, wanted) => result_of_text(fault_text(alloc, &fault), wanted),
    }
}

/// Makes the call with each of its allocations failing in turn. Returns how many failed.
fn sweep_call(alloc: Global, call: Call<'_>) -> Result<usize, SweepFailure> {
    sweep(alloc, || result_of(alloc, call))
}

/// Reads the text with each allocation failing in turn. Returns how many failed.
fn sweep_read(alloc: Global, format: Format, text: &[u8]) -> Result<usize, SweepFailure> {
    let usual = format.read(alloc, text);
    sweep_call(alloc, Call::Read(format, text, &usual))
}

#[test]
fn texts_are_read_or_refused(rt: HostRuntime) -> Result<(), Fail> {
    for (format, text) in &READ {
        sweep_read(rt.alloc(), *format, text)?;
    }
    Ok(())
}

/// A .non text in its usual form, with a comment and a clue of more than 8 numbers.
const USUAL_NON: &[u8] =
    b"# usual\ntitle \"a\"\nby \"b\"\nwidth 2\nheight 2\n\nrows\n1\n1,1,1,1,1,1,1,1,1,1\n\n\
    columns\n2\n1\n\ngoal \"1010\"\n";

/// An .mk text in its usual form, with a clue of more than 8 numbers.
const USUAL_MK: &[u8] = b"2 1\n1\n1 1 1 1 1 1 1 1 1 1 1 1 1 1 1 1 1 1\n#\n2\n";

/// A .nin text in its usual form, with a clue of more than 8 numbers.
const USUAL_NIN: &[u8] = b"2 1\n1\n1 2 3 4 5 6 7 8 9\n1\n";

/// Counts the allocations for texts in their usual form: one each for the row clues, the column
/// clues and the numbers of the long clue (.nin reads all clues into one list, which is then
/// split), and in .non also for the keyword lines, two texts, the box of the texts, and the goal.
/// Without the failure tool all counts are 0.
#[test]
fn usual_texts_grow_by_lists(rt: HostRuntime) -> Result<(), Fail> {
    let alloc = rt.alloc();
    let non = sweep_read(alloc, Format::Non, USUAL_NON)?;
    let mk = sweep_read(alloc, Format::Mk, USUAL_MK)?;
    let nin = sweep_read(alloc, Format::Nin, USUAL_NIN)?;
    assert!(rt; (non, mk, nin) == (0, 0, 0) || (non, mk, nin) == (8, 3, 3));
    Ok(())
}

#[test]
fn entries_are_read_or_refused(rt: HostRuntime) -> Result<(), Fail> {
    let alloc = rt.alloc();
    let entry = Entry {
        name: b"a.mk",
        body: MK,
    };
    let usual = read_mk(alloc, MK);
    sweep_call(alloc, Call::ReadEntry(entry, &usual))?;
    Ok(())
}

/// The puzzle of `NON` as it is written in .non.
const WRITTEN_NON: &[u8] =
    b"title \"a\"\nby \"b\"\nlicense \"\"\nwidth 2\nheight 3\n\nrows\n1\n0\n1,1,1,1,1,1,1,1,1,1\n\n\
    columns\n2\n1\n\ngoal \"101010\"\n";

/// The puzzle of `NON` as it is written in .mk.
const WRITTEN_MK: &[u8] = b"3 2\n1\n0\n1 1 1 1 1 1 1 1 1 1\n#\n2\n1\n";

/// The puzzle of `NON` as it is written in .nin.
const WRITTEN_NIN: &[u8] = b"2 3\n1\n0\n1 1 1 1 1 1 1 1 1 1\n2\n1\n";

#[test]
fn puzzles_are_written_or_refused(rt: HostRuntime) -> Result<(), Fail> {
    let puzzle = read_non(rt.alloc(), NON)?;
    for (format, wanted) in [
        (Format::Non, WRITTEN_NON),
        (Format::Mk, WRITTEN_MK),
        (Format::Nin, WRITTEN_NIN),
    ] {
        sweep_call(rt.alloc(), Call::Write(&puzzle, format, Some(wanted)))?;
    }
    Ok(())
}

#[test]
fn ambiguous_puzzles_are_ambiguous_or_refused(rt: HostRuntime) -> Result<(), Fail> {
    let alloc = rt.alloc();
    let mk = b"1 2\n1\n#\n1\n2\n";
    let flat = read_mk(alloc, mk)?;
    sweep_call(alloc, Call::Write(&flat, Format::Nin, None))?;
    sweep_call(alloc, Call::Write(&flat, Format::Mk, Some(mk)))?;
    Ok(())
}

#[test]
fn collections_are_cut_or_refused(rt: HostRuntime) -> Result<(), Fail> {
    sweep_call(rt.alloc(), Call::Cut)?;
    Ok(())
}

#[test]
fn words_are_told_or_refused(rt: HostRuntime) -> Result<(), Fail> {
    let fault = EntryFault::Text(TextFault::BadNumber(1234));
    sweep_call(rt.alloc(), Call::Word(fault, b"BadNumber:1234"))?;
    Ok(())
}

/// Reports whether each reader returns `TooLong` for `text`.
fn are_too_long(alloc: Global, text: &[u8]) -> bool {
    matches!(read_non(alloc, text), Err(TextFault::TooLong))
        && matches!(read_mk(alloc, text), Err(TextFault::TooLong))
        && matches!(read_nin(alloc, text), Err(TextFault::TooLong))
}

/// Reports whether `read_entry` returns `TooLong` for an entry with this text.
fn is_entry_too_long(alloc: Global, body: &[u8]) -> bool {
    let name = b"a.non";
    match read_entry(alloc, &Entry { name, body }) {
        Err(fault) => fault == EntryFault::Text(TextFault::TooLong),
        Ok(_) => false,
    }
}

#[test]
fn long_texts_are_too_long(rt: HostRuntime) -> Result<(), Fail> {
    let alloc = rt.alloc();
    let text = repeated(alloc, b"\n", MAX_PUZZLE_LEN + 1)?;
    let collection = repeated(alloc, b"\n", MAX_COLLECTION_LEN + 1)?;
    arm(alloc, 0);
    let long = are_too_long(alloc, &text);
    let entry = is_entry_too_long(alloc, &text);
    let cut = entries(alloc, &collection).err();
    assert!(rt; !disarm(alloc), "no growth");
    assert!(rt; long && entry);
    assert!(rt; cut == Some(CollectionFault::TooLong));
    assert!(rt; is_active(alloc));
    Ok(())
}

/// Reports whether formats are found by name and by word, and whether formats and faults have the
/// expected words.
fn are_well() -> bool {
    Format::from_name(b"a.Mk") == Some(Format::Mk)
        && Format::from_word("nin") == Some(Format::Nin)
        && Format::Non.word() == "non"
        && Format::words() == ["non", "mk", "nin"]
        && TextFault::Twice(3).word() == FaultWord::at_line("Twice", 3)
        && EntryFault::UnknownFormat.word() == FaultWord::alone("UnknownFormat")
        && CollectionFault::Stray(2).word() == FaultWord::at_line("Stray", 2)
}

#[test]
fn words_take_no_memory(rt: HostRuntime) {
    arm(rt.alloc(), 0);
    let well = are_well();
    assert!(rt; !disarm(rt.alloc()), "no growth");
    assert!(rt; well);
    assert!(rt; is_active(rt.alloc()));
}

#[test]
fn collections_are_refused_without_memory(rt: HostRuntime) -> Result<(), Fail> {
    let alloc = rt.alloc();
    let more = repeated(alloc, b"@ a.mk\n", MAX_ENTRIES + 1)?;
    arm(alloc, 0);
    let stray = entries(alloc, b"@ a\n1\n@\n").err();
    let many = entries(alloc, &more).err();
    assert!(rt; stray == Some(CollectionFault::Stray(3)));
    assert!(rt; many == Some(CollectionFault::TooMany));
    assert!(rt; is_active(alloc));
    Ok(())
}

/// Returns a text without spare capacity, so that appending to it allocates.
fn full_text(alloc: Global) -> Result<Vec<u8>, Fail> {
    Ok(Vec::from_slice(alloc, b"text ").ok().ok_or("memory")?)
}

/// Asserts that a call that appends left the text `wanted` if it succeeded, and that it failed only
/// because an allocation did, and then left the text unchanged.
fn assert_grown(
    rt: &impl Abort,
    answer: Result<(), NoMemory>,
    refused: bool,
    text: &[u8],
    wanted: &[u8],
) {
    match answer {
        Ok(()) => assert!(rt; text == wanted),
        Err(NoMemory) => assert!(rt; refused && text == b"text ".as_slice()),
    }
}

#[test]
fn bytes_are_added_or_refused(rt: HostRuntime) -> Result<(), Fail> {
    for growth in 1..3 {
        let mut text = full_text(rt.alloc())?;
        arm(rt.alloc(), growth);
        let answer = push_bytes(&mut text, b"some");
        assert_grown(&rt, answer, disarm(rt.alloc()), &text, b"text some");
    }
    Ok(())
}

#[test]
fn numbers_are_added_or_refused(rt: HostRuntime) -> Result<(), Fail> {
    for growth in 1..3 {
        let mut text = full_text(rt.alloc())?;
        arm(rt.alloc(), growth);
        let answer = push_number(&mut text, u64::MAX);
        let wanted = b"text 18446744073709551615";
        assert_grown(&rt, answer, disarm(rt.alloc()), &text, wanted);
    }
    Ok(())
}

#[test]
fn words_are_added_in_part_or_refused(rt: HostRuntime) -> Result<(), Fail> {
    let wanted = b"text BadNumber:4000000000";
    // The word is appended in pieces, so a failure may leave the first ones.
    for growth in 1..5 {
        let mut text = full_text(rt.alloc())?;
        arm(rt.alloc(), growth);
        let answer = FaultWord::at_line("BadNumber", 4_000_000_000).push(&mut text);
        let refused = disarm(rt.alloc());
        match answer {
            Ok(()) => assert!(rt; text.as_slice() == wanted.as_slice()),
            Err(NoMemory) => assert!(rt; refused && wanted.starts_with(&text)),
        }
    }
    Ok(())
}
