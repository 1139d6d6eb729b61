//! The lookahead tables of a puzzle's lines.
ghost use Rattle.std.specs.Prelude.{◌≡◌, ◌≤◌, ℕ, List, [], length, slice_index_or, true, IfOk, IfSome};
ghost use Rattle.grid_core.specs.Clues.{is_clue};
ghost use Rattle.line_core.specs.Deduction.{deduced};
ghost use Rattle.line_core.specs.Lookahead.{AreInert, IsTableOf, no_table};
ghost use Rattle.line_core.specs.Support.{deduced_from};
ghost use Rattle.solve_core.specs.steps.LookaheadTables.{AreEmpty, AreTablesOf};

use bit_sets::BitSet;
use grid_core::NoMemory;
use line_core::{BitLine, LineBits, LookaheadBuffers, LookaheadTable, Support, Tables};
use std::alloc::Global;
use std::marker::Model;

/// The greatest set width for which there are lookahead tables: wider ones would take too much
/// memory.
const WIDEST: u16 = 128;

/// Appends empty tables to `tables` until there are at least `count`. Fails with `NoMemory` if an
/// allocation fails.
#[tactic(auto, using(crate::proofs::TableSteps::one_more_empty))]
fn add_tables<W: LineBits>(
    alloc: Global,
    tables: &mut Vec<LookaheadTable<W>>,
    count: usize,
) -> Result<(), NoMemory>
    requires { AreEmpty tables.old.items }
    ensures { AreEmpty tables.new.items }
{
    for _ in tables.len()..count {
        tables.push(LookaheadTable::new(alloc)?)?;
    }
    Ok(())
}

/// Clears each of `tables`.
fn clear_all<W: LineBits>(tables: &mut [LookaheadTable<W>])
    ensures { AreEmpty tables.new }
{
    for i in 0..tables.len() {
        tables[i].clear();
    }
}

/// A lookahead table for each line, in buffers that are allocated once. The lines are counted as
/// their clues are.
pub struct LookaheadTables<W: LineBits> {
    buffers: LookaheadBuffers<W>,
    tables: Vec<LookaheadTable<W>>,
    /// Whether any table may have been built for a line.
    in_use: bool,
}

/// Written by hand so that callers' proofs see one call: a derived drop is expanded at each exit of
/// each caller.
impl<W: LineBits> Drop for LookaheadTables<W> {
    fn drop(self) {
        let LookaheadTables {
            buffers: _,
            tables: _,
            in_use: _,
        } = self;
    }
}

impl<W: LineBits> Model for LookaheadTables<W> {
    ghost use Rattle.std.specs.Prelude.{List};
    ghost use Rattle.line_core.specs.Lookahead.{Table};
    ghost use Rattle.solve_core.specs.steps.LookaheadTables.{AreEmptyIfUnused};

    ghost Value = { List Table };

    ghost view = { λ t. t.tables.items };

    ghost invariant = { λ t. AreEmptyIfUnused t.in_use t.tables.items };
}

impl<W: LineBits> LookaheadTables<W> {
    /// Returns an instance without tables. Fails with `NoMemory` if an allocation fails.
    #[tactic(auto, using(crate::proofs::TableSteps::none_empty))]
    pub fn new(alloc: Global) -> Result<LookaheadTables<W>, NoMemory>
        ensures { IfOk result AreEmpty }
    {
        Ok(LookaheadTables {
            buffers: LookaheadBuffers::new(alloc, 0)?,
            tables: Vec::new(alloc),
            in_use: false,
        })
    }

    /// Clears all tables.
    pub fn clear(&mut self)
        ensures { AreEmpty self.new }
    {
        if self.in_use {
            clear_all(&mut self.tables);
            self.in_use = false;
        }
    }

    /// Clears all tables, and allocates those of a puzzle of `width` columns and `height` rows.
    /// Fails with `NoMemory` if an allocation fails.
    pub fn reset(&mut self, alloc: Global, width: u16, height: u16) -> Result<(), NoMemory>
        requires { (width ≤ 256) × (height ≤ 256) }
        ensures { AreEmpty self.new }
    {
        self.clear();
        if W::WIDTH > WIDEST {
            return Ok(());
        }
        // A line of `n` cells has at most `n / 2` runs, rounded up.
        let max_runs = usize::from(width.max(height)).div_ceil(2);
        if self.buffers.max_runs() < max_runs {
            self.buffers = LookaheadBuffers::new(alloc, max_runs)?;
        }
        add_tables(alloc, &mut self.tables, usize::from(width + height))
    }

    /// Builds the table of line `k`, which has this clue, for the cells of `line`, unless it is
    /// there already or has no buffer.
    pub fn ensure(&mut self, tables: &mut Tables, k: u16, clue: &[u16], line: &BitLine<W>)
        requires clue { is_clue W.WIDTH clue.now ≡ true }
        requires table { IsTableOf clue.now (slice_index_or self.old k no_table) }
        ensures { (clues : List (List ℕ)) → slice_index_or clues k [] ≡ clue.now
            → AreTablesOf clues self.old → AreTablesOf clues self.new }
    {
        self.in_use = true;
        if let Some(table) = self.tables.get_mut(usize::from(k)) {
            table.write(tables, &mut self.buffers, line, clue);
        }
    }

    /// Returns the unknown cells of `line`, which is line `k`, that can be filled, or, unless
    /// `filled`, made blank, without anything else being deduced on it, by its table; no cells if
    /// that isn't built for `line`.
    pub fn inert_cells(&self, k: u16, line: &BitLine<W>, filled: bool) -> W
        ensures { (clues : List (List ℕ)) → AreTablesOf clues self.now
            → AreInert (slice_index_or clues k []) line.now filled (W.bits result) }
    {
        let Some(table) = self.tables.get(usize::from(k)) else {
            return W::empty();
        };
        if table.is_of(line) {
            table.inert_cells(filled)
        } else {
            W::empty()
        }
    }

    /// Returns the support of line `k` with the cells of `line`, if its table was built for these
    /// cells with just one of the known ones unknown.
    pub fn support_after(&self, k: u16, line: &BitLine<W>) -> Option<&Support<W>>
        ensures { IfSome result (λ support. (clues : List (List ℕ)) → AreTablesOf clues self.now
            → deduced_from (length line.now) support.now.fillable support.now.blankable
            ≡ deduced line.now (slice_index_or clues k [])) }
    {
        if !self.in_use {
            return None;
        }
        self.tables.get(usize::from(k))?.support_after(line)
    }
}
