//! Checking files over lanes.

ghost use Rattle.std.specs.Prelude.{◌≡◌, ◌≤◌, length, map, IfOk};
ghost use Rattle.puzzle_text.specs.declared.limits.TheConstants.{MAX_ENTRIES};
ghost use Rattle.survey_core.specs.GuessSettings.{guess_settings};
ghost use Rattle.check_core.specs.Checks.{checked_text, worst_level};
ghost use Rattle.check_core.specs.Files.{shown_file};

use crate::files::{CheckFile, readable};
use crate::found::find_all;
use check_text::{CheckOptions, Level, Subject, push_totals, worst_of};
use lane_core::Gate;
use std::alloc::Global;
use std::sync::Wait;
use std::thread::Threads;
use survey_core::{CollectFault, Settings, grade_entries};

/// What a check prints, and the level of its worst finding, if it has one.
#[derive(Drop)]
pub(crate) struct Checked {
    pub text: Vec<u8>,
    pub worst: Option<Level>,
}

/// Checks `files`, at most 10,000, over lanes. The last line counts them as `subject`. Fails with
/// `NoMemory` if an allocation does, and with `Thread` if the thread of a worker can't be started.
pub(crate) fn check_all<H: Threads + Wait + Sync, G: Gate + Sync>(
    rt: &H,
    alloc: Global,
    files: &[CheckFile<'_>],
    subject: Subject,
    options: CheckOptions,
    settings: &Settings,
    gate: &G,
) -> Result<Checked, CollectFault>
    requires { length files.now ≤ MAX_ENTRIES }
    ensures text { IfOk result (λ checked. checked.text.items
        ≡ checked_text options (guess_settings settings.now) subject (map shown_file files.now)) }
    ensures worst { IfOk result (λ checked. checked.worst
        ≡ worst_level options (guess_settings settings.now) (map shown_file files.now)) }
{
    let entries = readable(alloc, files)?;
    let results = grade_entries(rt, alloc, &entries, settings, gate)?;
    gate.close(files.len());
    let found = find_all(alloc, options, files, &results)?;
    let mut text = found.text;
    push_totals(&mut text, subject, &found.levels)?;
    let worst = worst_of(&found.levels);
    Ok(Checked { text, worst })
}
