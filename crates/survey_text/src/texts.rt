//! The text of a survey in chunks, which are printed apart and never copied into one text.

ghost use Rattle.std.specs.Prelude.{◌≡◌, ◌+◌, ◌++◌, ◌^◌, ◌<◌, length, IfOk, OnOk};
ghost use Rattle.streams.specs.Writing.{joined};

use crate::forms::SurveyForm;
use crate::listings::AnswerListing;
use crate::printing::Chunk;
use crate::totals::Totals;
use grid_core::NoMemory;
use std::alloc::Global;
use std::io::Write;
use streams::{Counted, write_texts};

/// Chunks of a survey: the texts of consecutive entries, in order, and the totals of all of them.
#[derive(Drop)]
pub struct ChunkTexts {
    /// The texts of all chunks but the last.
    front: Vec<Vec<u8>>,
    /// The text of the last chunk.
    last: Vec<u8>,
    /// How many bytes all texts have: kept because a `u64` has to count those of a survey.
    bytes: u64,
    /// The totals of all entries.
    totals: Totals,
    pub ghost counted: { bytes ≡ length (joined front.items ++ last.items) },
}

impl ChunkTexts {
    ghost use Rattle.std.specs.Prelude.{◌≡◌, ◌+◌, ◌++◌, ◌^◌, ◌<◌, ℕ, List, Some, length, map, IfOk};
    ghost use Rattle.survey_text.specs.Forms.{Form, FormEntry, text_in};
    ghost use Rattle.survey_text.specs.Listings.{answered};
    ghost use Rattle.survey_text.specs.Chunks.{AreChunks, whole_text};

    /// Prints the entries of `listing` in `form` as one chunk, numbered from `first`. Fails with
    /// `NoMemory` if an answer did, or if an allocation fails.
    pub fn of<F: SurveyForm>(
        alloc: Global,
        first: u32,
        listing: AnswerListing<'_, '_>,
        form: &F,
    ) -> Result<ChunkTexts, NoMemory>
        requires numbers { first
            + length (answered listing.entries.now listing.faults.now listing.answers.now)
            < 2 ^ 32 }
        requires few { length (answered listing.entries.now listing.faults.now listing.answers.now)
            < 2 ^ 31 }
        ensures { IfOk result (λ chunks. (entries : List FormEntry)
            × (answered
            listing.entry.entries.now listing.entry.faults.now listing.entry.answers.now
            ≡ map Some entries)
            × AreChunks (F.form form.now) first chunks entries) }
    {
        let Chunk { text, totals } = Chunk::of(alloc, first, listing, form)?;
        let bytes = text.len() as u64;
        Ok(ChunkTexts {
            front: Vec::new(alloc),
            last: text,
            bytes,
            totals,
        })
    }

    /// Returns these chunks followed by `others`, whose entries are numbered from the next number
    /// on. Fails with `NoMemory` if an allocation does, or if all texts have more bytes than a
    /// `u64` counts.
    pub fn followed_by(self, others: ChunkTexts) -> Result<ChunkTexts, NoMemory>
        ensures { (form : Form) (first : ℕ) (entries behind : List FormEntry)
            → AreChunks form first self entries
            → AreChunks form (first + length entries) others behind
            → length (entries ++ behind) < 2 ^ 31
            → IfOk result (λ chunks. AreChunks form first chunks (entries ++ behind)) }
    {
        let Some(bytes) = self.bytes.checked_add(others.bytes) else {
            return Err(NoMemory);
        };
        let mut front = self.front;
        front.push(self.last)?;
        let mut behind = others.front;
        front.append(&mut behind)?;
        let mut totals = self.totals;
        totals.add(&others.totals);
        Ok(ChunkTexts {
            front,
            last: others.last,
            bytes,
            totals,
        })
    }

    /// Returns the text in `form` of the survey that consists of these chunks: what stands before
    /// the entries, the texts of the chunks, and what stands after the entries. Fails with
    /// `NoMemory` if an allocation does, or if a `u64` can't count the bytes.
    pub fn finish<F: SurveyForm>(self, alloc: Global, form: &F) -> Result<SurveyText, NoMemory>
        ensures { (entries : List FormEntry) → AreChunks (F.form form.now) 1 self entries
            → IfOk result (λ survey. whole_text survey ≡ text_in (F.form form.now) entries) }
    {
        let head = head_of(alloc, form)?;
        let mut last = self.last;
        let printed = last.len();
        form.push_tail(&mut last, &self.totals)?;
        let bytes = add_count(self.bytes, last.len().saturating_sub(printed))?;
        add_count(bytes, head.len())?;
        let mut front = self.front;
        put_head(&mut front, head)?;
        Ok(SurveyText { front, last })
    }
}

/// Returns what stands before the entries in `form`.
fn head_of<F: SurveyForm>(alloc: Global, form: &F) -> Result<Vec<u8>, NoMemory>
    ensures { IfOk result (λ head. head.items ≡ (F.form form.now).head) }
{
    let mut head = Vec::new(alloc);
    form.push_head(&mut head)?;
    Ok(head)
}

/// Adds `more` to a count of bytes. Fails with `NoMemory` if a `u64` can't hold the sum.
fn add_count(bytes: u64, more: usize) -> Result<u64, NoMemory>
    ensures { IfOk result (λ sum. sum ≡ bytes + more) }
{
    match bytes.checked_add(more as u64) {
        Some(sum) => Ok(sum),
        None => Err(NoMemory),
    }
}

/// Puts `head` before the texts of `front`, unless it is empty.
fn put_head(front: &mut Vec<Vec<u8>>, head: Vec<u8>) -> Result<(), NoMemory>
    ensures { OnOk result (joined front.new.items ≡ head.items ++ joined front.old.items) }
{
    if !head.is_empty() {
        front.insert(0, head)?;
    }
    Ok(())
}

/// The text of a survey, in chunks. It has fewer than 2^64 bytes.
#[derive(Drop)]
pub struct SurveyText {
    /// The texts of all chunks but the last.
    front: Vec<Vec<u8>>,
    /// The text of the last chunk, with the line of totals.
    last: Vec<u8>,
    pub ghost counted: { length (joined front.items ++ last.items) < 2 ^ 64 },
}

impl SurveyText {
    ghost use Rattle.std.specs.Prelude.{◌-◌, ◌^◌, ◌<◌, ◌≤◌, ◌↔◌, length, take, IfErr, IsErr, OnOk};
    ghost use Rattle.std.specs.Io.KnownBytes.{Appends};
    ghost use Rattle.streams.specs.Counted.{fault_count};
    ghost use Rattle.survey_text.specs.Chunks.{whole_text};

    /// Writes the text to `writer` and flushes it. If the writer fails, the error is the number of
    /// bytes of the text that were sent.
    pub fn write<W: Write>(&self, writer: &mut Counted<W>) -> Result<(), u64>
        requires { fault_count writer.old < 2 ^ 32 - 1 }
        ensures ok { OnOk result
            (Appends (W.contents writer.old.inner) (W.contents writer.new.inner)
            (whole_text self.now)) }
        ensures front { IfErr result (λ sent. sent ≤ length (whole_text self.now)) }
        ensures sent { IfErr result (λ sent.
            Appends (W.contents writer.old.inner) (W.contents writer.new.inner)
            (take sent (whole_text self.now))) }
        ensures failed { IsErr result ↔ (fault_count writer.old < fault_count writer.new) }
    {
        write_texts(writer, &self.front, &self.last)
    }
}
