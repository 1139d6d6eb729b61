//! The finding on a file that can't be read.

ghost use Rattle.std.specs.Prelude.{◌≡◌, ◌++◌, OnOk};
ghost use Rattle.check_text.specs.Unread.{unread_finding, unread_sentence};

use crate::heads::{Level, push_head};
use grid_core::NoMemory;
use puzzle_text::push_bytes;

/// Why a file can't be read.
#[derive(Clone, Copy, Debug, PartialEq, Eq)]
pub enum Unread {
    /// There is no such file.
    Missing,
    /// Reading it isn't permitted.
    Denied,
    /// It is a folder.
    Folder,
    /// Any other cause.
    Failed,
}

impl Unread {
    /// Returns the sentence that is printed.
    fn sentence(self) -> &'static [u8]
        ensures { result.now ≡ unread_sentence self }
    {
        match self {
            Unread::Missing => b"there is no such file",
            Unread::Denied => b"permission denied",
            Unread::Folder => b"it is a folder",
            Unread::Failed => b"it can't be read",
        }
    }
}

/// Appends the finding on a file that can't be read, an error. Fails with `NoMemory` if an
/// allocation fails.
pub fn push_unread(text: &mut Vec<u8>, name: &[u8], unread: Unread) -> Result<(), NoMemory>
    ensures { OnOk result (text.new.items ≡ text.old.items ++ unread_finding name.now unread) }
{
    push_head(text, name, None, Level::Error)?;
    push_bytes(text, unread.sentence())?;
    push_bytes(text, b"\n")
}
