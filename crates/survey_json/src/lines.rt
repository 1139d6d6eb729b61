//! Values of JSON as lines, and as members of lines.

ghost use Rattle.std.specs.Prelude.{◌≡◌, ◌<◌, ◌≤◌, ◌∷◌, ◌++◌, OnOk, false};
ghost use Rattle.json.specs.Print.{escape};
ghost use Rattle.serde_json.specs.Data.{depth};
ghost use Rattle.serde_json.specs.Read.{max_depth};
ghost use Rattle.serde_json.specs.View.{view};
ghost use Rattle.serde_json.specs.Written.{IsInOrder, compact_text, has_float};
ghost use Rattle.survey_json.specs.Lines.{ReadsBack, line_of, member_text};

use grid_core::NoMemory;
use puzzle_text::push_bytes;
use serde_json::Value;
use std::alloc::Global;

/// Appends the line of a value that has no float and nests no deeper than 127.
pub(crate) fn push_line(text: &mut Vec<u8>, alloc: Global, value: &Value) -> Result<(), NoMemory>
    requires no_float { has_float (view value.now) ≡ false }
    requires depth { depth (view value.now) ≤ max_depth }
    ensures line { OnOk result (text.new.items ≡ text.old.items ++ line_of (view value.now)) }
    ensures reads_back { OnOk result (ReadsBack (view value.now)) }
{
    let mut line = value.to_vec(alloc)?;
    line.push(b'\n')?;
    push_bytes(text, &line)
}

/// Appends the byte `before` and the text of a member: `key`, which JSON has without escapes, and
/// `value`, which has no float and nests no deeper than 126.
pub(crate) fn push_member(
    line: &mut Vec<u8>,
    alloc: Global,
    before: u8,
    key: &str,
    value: &Value,
) -> Result<(), NoMemory>
    requires plain { escape key.now ≡ key.now }
    requires no_float { has_float (view value.now) ≡ false }
    requires depth { depth (view value.now) < max_depth }
    ensures text { OnOk result (line.new.items
        ≡ line.old.items ++ before ∷ member_text key.now (view value.now)) }
    ensures order { OnOk result (IsInOrder (compact_text (view value.now)) (view value.now)) }
    ensures reads_back { OnOk result (ReadsBack (view value.now)) }
{
    push_bytes(line, &[before, b'"'])?;
    push_bytes(line, key.as_bytes())?;
    push_bytes(line, b"\":")?;
    push_bytes(line, &value.to_vec(alloc)?)
}
