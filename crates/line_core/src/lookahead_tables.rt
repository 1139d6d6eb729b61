//! Lookahead tables: what a line deduces after one more of its cells is known.

ghost use Rattle.std.specs.Prelude.{◌≡◌, ◌≢◌, ◌↔◌, ◌<◌, ◌≤◌, ℕ, List, None, Some, length, vec_capacity, vec_len, true, IfOk, IfSome, IsTrue};
ghost use Rattle.bit_sets.specs.Masks.{IsMaskOf};
ghost use Rattle.grid_core.specs.Clues.{is_clue};
ghost use Rattle.line_core.specs.Deduction.{deduced};
ghost use Rattle.line_core.specs.Lookahead.{AreInert, HasOneCellMore, IsTableOf, AreLookaheadsOf, inert_if};
ghost use Rattle.line_core.specs.Support.{deduced_from};
ghost use Rattle.line_core.specs.declared.lookahead.TheConstants.{MAX_LOOKAHEAD_LEN};

use crate::deduction::{LineBits, Tables};
use crate::lookahead::{Lookahead, MAX_LOOKAHEAD_LEN, Support};
use crate::lookahead_buffers::LookaheadBuffers;
use bit_sets::BitSet;
use grid_core::{BitLine, Cell, NoMemory};
use std::alloc::Global;
use std::marker::Model;

/// The lookahead table of one line, or of none: for each unknown cell, the support of the line
/// after that cell is filled and after it is made blank. All its memory is allocated once.
pub struct LookaheadTable<W: LineBits> {
    line: Option<BitLine<W>>,
    lookaheads: Vec<Lookahead<W>>,
    /// The unknown cells that can be filled without anything else being deduced on the line.
    inert_filled: W,
    /// The unknown cells that can be made blank without anything else being deduced on the line.
    inert_blank: W,
}

/// Written by hand so that callers' proofs see one call: a derived drop is expanded at each exit of
/// each caller.
impl<W: LineBits> Drop for LookaheadTable<W> {
    fn drop(self) {
        let LookaheadTable {
            line: _,
            lookaheads: _,
            inert_filled: _,
            inert_blank: _,
        } = self;
    }
}

impl<W: LineBits> Model for LookaheadTable<W> {
    ghost use Rattle.std.specs.Prelude.{vec_capacity};
    ghost use Rattle.line_core.specs.Lookahead.{Table};
    ghost use Rattle.line_core.specs.Lookahead.{IsTableIn};

    ghost Value = { Table };

    ghost view = { λ t. record {
      line = t.line;
      lookaheads = t.lookaheads.items;
      inert_filled = W.bits t.inert_filled;
      inert_blank = W.bits t.inert_blank;
    } };

    ghost invariant = { λ t.
        IsTableIn W.WIDTH t.line t.lookaheads.items (vec_capacity t.lookaheads) };
}

/// Returns the only index of a set, or `None` if the set has none, or more than one.
fn only_index<W: BitSet>(indices: W) -> Option<u16>
    ensures index { IfSome result (λ index.
        (index < W.WIDTH) × IsMaskOf (λ i. i ≡ index) (W.bits indices)) }
    ensures found { (x : ℕ) → IsMaskOf (λ i. i ≡ x) (W.bits indices) → result ≢ None }
{
    if indices.is_empty() {
        return None;
    }
    let index = indices.first_index();
    if indices.with_bit(index, false).is_empty() {
        Some(index)
    } else {
        None
    }
}

/// Extends `lookaheads` to an entry for each cell of a line of `len` cells. Allocates nothing: the
/// capacity has to suffice.
fn make_entries<W: LineBits>(lookaheads: &mut Vec<Lookahead<W>>, len: u16)
    requires { len ≤ vec_capacity lookaheads.old }
    ensures entries { len ≤ vec_len lookaheads.new }
    ensures capacity { vec_capacity lookaheads.new ≡ vec_capacity lookaheads.old }
{
    while lookaheads.len() < usize::from(len) {
        lookaheads.push_reserved(Lookahead::none());
    }
}

/// Returns the unknown cells of `line` that can be filled, or, unless `filled`, made blank, without
/// anything else being deduced. `lookaheads` have the support of the line after each of these
/// steps.
#[tactic(auto, using(crate::proofs::GapRows::mask_less))]
fn inert_cells<W: LineBits>(line: &BitLine<W>, lookaheads: &[Lookahead<W>], filled: bool) -> W
    requires { length line.now ≤ length lookaheads.now }
    ensures { (clue : List ℕ) → AreLookaheadsOf clue line.now lookaheads.now
        → AreInert clue line.now filled (W.bits result) }
{
    let unknown = line.unknown_cells();
    let mut inert = W::empty();
    let mut left = unknown;
    while !left.is_empty() {
        let index = left.first_index();
        left = left.with_bit(index, false);
        let support = lookaheads[usize::from(index)].support_if(filled);
        let is_inert = support.leaves_undecided(unknown.with_bit(index, false));
        inert = inert.with_bit(index, is_inert);
    }
    inert
}

impl<W: LineBits> LookaheadTable<W> {
    /// Returns a table without a line, and allocates all its memory. Returns `NoMemory` if an
    /// allocation fails.
    #[tactic(auto, using(crate::proofs::LookaheadLemmas::empty_table))]
    pub fn new(alloc: Global) -> Result<LookaheadTable<W>, NoMemory>
        ensures line { IfOk result (λ table. table.line ≡ None) }
        ensures table { IfOk result (λ table. (clue : List ℕ) → IsTableOf clue table) }
    {
        Ok(LookaheadTable {
            line: None,
            lookaheads: Vec::with_capacity(alloc, usize::from(W::WIDTH))?,
            inert_filled: W::empty(),
            inert_blank: W::empty(),
        })
    }

    /// Clears the table, which then has no line.
    pub fn clear(&mut self)
        ensures { self.new.line ≡ None }
    {
        self.line = None;
    }

    /// Reports whether this is the table of `line`.
    pub fn is_of(&self, line: &BitLine<W>) -> bool
        ensures { IsTrue result ↔ (self.now.line ≡ Some line.now) }
    {
        match &self.line {
            Some(old) => old.is_same(line),
            None => false,
        }
    }

    /// Builds the table of `line` and `clue`, unless it is the table of that line already. Clears
    /// the table if the line has more than `MAX_LOOKAHEAD_LEN` cells, or the clue more runs than
    /// the buffers are for. The clue has at most 128 numbers, each from 1 to the width of the sets,
    /// and the old table has to be of the same clue.
    #[tactic(auto, using(crate::proofs::LookaheadLemmas::empty_table))]
    pub fn write(
        &mut self,
        tables: &mut Tables,
        buffers: &mut LookaheadBuffers<W>,
        line: &BitLine<W>,
        clue: &[u16],
    )
        requires clue { is_clue W.WIDTH clue.now ≡ true }
        requires table { IsTableOf clue.now self.old }
        ensures table { IsTableOf clue.now self.new }
        ensures line { length line.now ≤ MAX_LOOKAHEAD_LEN → length clue.now ≤ buffers.old.max_runs
            → self.new.line ≡ Some line.now }
        ensures tables { tables.new ≡ tables.old }
        ensures buffers { buffers.new.max_runs ≡ buffers.old.max_runs }
    {
        if self.is_of(line) {
            return;
        }
        self.line = None;
        if line.len() > MAX_LOOKAHEAD_LEN || clue.len() > buffers.max_runs() {
            return;
        }
        make_entries(&mut self.lookaheads, line.len());
        W::write_lookaheads(tables, buffers, line, clue, &mut self.lookaheads);
        self.inert_filled = inert_cells(line, &self.lookaheads, true);
        self.inert_blank = inert_cells(line, &self.lookaheads, false);
        self.line = Some(line.copy());
    }

    /// Returns the unknown cells of the table's line that can be filled, or, unless `filled`, made
    /// blank, without anything else being deduced on the line. Unspecified if the table has no
    /// line.
    pub fn inert_cells(&self, filled: bool) -> W
        ensures { W.bits result ≡ inert_if filled self.now }
    {
        if filled {
            self.inert_filled
        } else {
            self.inert_blank
        }
    }

    /// Returns the support of `line` if it differs from the table's line in one cell only, which is
    /// unknown in the table's line and known in `line`. Returns `None` for any other line, or if
    /// the table has no line.
    pub fn support_after(&self, line: &BitLine<W>) -> Option<&Support<W>>
        ensures support { IfSome result (λ support. (clue : List ℕ) → IsTableOf clue self.now
            → deduced_from (length line.now) support.now.fillable support.now.blankable
            ≡ deduced line.now clue) }
        ensures asked { (result ≢ None) ↔ HasOneCellMore self.now line.now }
    {
        let base = self.line.as_ref()?;
        // The cells of lines can be compared only if the lines have the same length.
        if base.len() != line.len() {
            return None;
        }
        let index = only_index(base.diff(line))?;
        if base.get(index).is_known() {
            return None;
        }
        let filled = match line.get(index) {
            Cell::Unknown => return None,
            Cell::Filled => true,
            Cell::Blank => false,
        };
        Some(self.lookaheads[usize::from(index)].support_if(filled))
    }
}
