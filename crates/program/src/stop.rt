//! The faults at which the program stops, and their fault words.

ghost use Rattle.std.specs.Prelude.{◌≡◌, IfOk};
ghost use Rattle.puzzle_text.specs.Words.{word_text};
ghost use Rattle.program.specs.Stop.{run_word, stop_line, stop_of_convert, stop_word};
ghost use Rattle.program.specs.declared.stop.Stop.TheVariants.{Entry as entry_stop, NoMemory as memory_stop};

use grid_core::NoMemory;
use puzzle_text::{EntryFault, FaultWord};
use reports::ConvertFault;
use std::alloc::Global;
use survey_core::RunFault;

/// Why the program stops.
#[derive(Clone, Copy, Debug, PartialEq, Eq)]
pub enum Stop {
    /// A puzzle's text is refused, for this fault.
    Entry(EntryFault),
    /// A survey wasn't written, or not completely.
    Run(RunFault),
    /// A puzzle's text in `.nin` would be read with the sizes the other way round.
    Ambiguous,
    /// A file can't be read.
    Read,
    /// Standard output can't be written.
    Write,
    /// An allocation failed.
    NoMemory,
}

impl From<NoMemory> for Stop {
    ghost from_gives = { λ _ stop. stop ≡ memory_stop };

    fn from(_refused: NoMemory) -> Stop {
        Stop::NoMemory
    }
}

impl From<EntryFault> for Stop {
    ghost from_gives = { λ fault stop. stop ≡ entry_stop fault };

    fn from(fault: EntryFault) -> Stop {
        Stop::Entry(fault)
    }
}

impl From<ConvertFault> for Stop {
    ghost from_gives = { λ fault stop. stop ≡ stop_of_convert fault };

    fn from(fault: ConvertFault) -> Stop {
        match fault {
            ConvertFault::Entry(fault) => Stop::Entry(fault),
            ConvertFault::Ambiguous => Stop::Ambiguous,
            ConvertFault::NoMemory => Stop::NoMemory,
        }
    }
}

/// Returns the fault word of a failed survey. A fault of the collection keeps its own word; the
/// number of bytes written before a failure isn't part of the word.
fn word_of_run(fault: RunFault) -> FaultWord
    ensures { word_text result ≡ run_word fault }
{
    match fault {
        RunFault::Read => FaultWord::alone("Read"),
        RunFault::Collection(inner) => inner.word(),
        RunFault::Thread => FaultWord::alone("Thread"),
        RunFault::NoMemory => FaultWord::alone("NoMemory"),
        RunFault::Write(_) => FaultWord::alone("Write"),
    }
}

/// Returns the fault word of `stop`.
pub fn stop_word(stop: Stop) -> FaultWord
    ensures { word_text result ≡ stop_word stop }
{
    match stop {
        Stop::Entry(fault) => fault.word(),
        Stop::Run(fault) => word_of_run(fault),
        Stop::Ambiguous => FaultWord::alone("Ambiguous"),
        Stop::Read => FaultWord::alone("Read"),
        Stop::Write => FaultWord::alone("Write"),
        Stop::NoMemory => FaultWord::alone("NoMemory"),
    }
}

/// Returns the line that the program prints when it stops: `nonograde: `, the fault word, and LF.
/// Fails with `NoMemory` if an allocation fails. The program itself prints the line by
/// `report_stop`, which allocates nothing.
pub fn stop_text(alloc: Global, stop: &Stop) -> Result<Vec<u8>, NoMemory>
    ensures { IfOk result (λ text. text.items ≡ stop_line stop.now) }
{
    let mut text = Vec::from_slice(alloc, b"nonograde: ")?;
    stop_word(*stop).push(&mut text)?;
    text.push(b'\n')?;
    Ok(text)
}
