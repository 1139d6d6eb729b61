//! What line logic shows of a puzzle that it refutes.

ghost use Rattle.std.specs.Prelude.{◌≡◌, ℕ, ◌*◌, ◌<◌, ◌≤◌, None, Some, IfOk, find, length, slice_index_or};
ghost use Rattle.grid_core.specs.declared.axes.Axis.TheVariants.{Columns, Rows};
ghost use Rattle.grid_core.specs.declared.cells.Cell.TheVariants.{Unknown};
ghost use Rattle.grid_core.specs.Nonogram.{cells_at, crossing, line_indices, lines_of};
ghost use Rattle.grid_core.specs.steps.Axes.{cell_index_on, line_count};
ghost use Rattle.solve_core.specs.Closure.{join_cells, round};
ghost use Rattle.solve_core.specs.Report.{line_closure, unknown_grid};
ghost use Rattle.solve_core.specs.Sizes.{HasSizeOf};
ghost use Rattle.diagnosis.specs.Contradictions.{contradiction_in, dead_line, deduced_on, first_contradiction, refutation_of};
ghost use Rattle.diagnosis.specs.Differences.{position_at, positions};
ghost use Rattle.diagnosis.specs.Rounds.{AreDeduced, AreRoundsOf, HaveLength, is_conflict, joined_in};

use crate::differences::Position;
use crate::misfits::line_count;
use grid_core::{Axis, Cell, Grid, NoMemory, Puzzle};
use line_core::{Line, Tables, deduce};
use solve_core::Grade;
use std::alloc::Global;

/// What the first dead round of line logic shows.
#[derive(Clone, Copy, Debug, PartialEq, Eq)]
pub enum Contradiction {
    /// The clue of this line has no placing.
    NoPlacing {
        /// The axis of the line.
        axis: Axis,
        /// The number of the line, counted from 0 at the top or at the left.
        index: u16,
    },
    /// The row and the column of this cell deduce two colours of it.
    TwoColours(Position),
}

/// By what a puzzle without solutions was refuted.
#[derive(Clone, Copy, Debug, PartialEq, Eq)]
pub enum Refutation {
    /// By line logic, whose first dead round shows this contradiction.
    Lines(Contradiction),
    /// By trials.
    Trials,
    /// By the search.
    Search,
}

/// Returns cell `k` of line `index` of an axis of `grid`.
fn cell_on(grid: &Grid, axis: Axis, index: u16, k: u16) -> Cell
    requires line { index < line_count axis grid.now.width grid.now.height }
    requires cell { k < line_count (crossing axis) grid.now.width grid.now.height }
    ensures { result
        ≡ slice_index_or grid.now.cells (cell_index_on axis grid.now.width index k) Unknown }
{
    match axis {
        Axis::Rows => grid.get(k, index),
        Axis::Columns => grid.get(index, k),
    }
}

/// Returns how many cells a line of an axis of `grid` has.
fn line_len(grid: &Grid, axis: Axis) -> u16
    ensures len { result ≡ line_count (crossing axis) grid.now.width grid.now.height }
    ensures some { 1 ≤ result }
    ensures within { result ≤ 256 }
{
    let (width, height) = (grid.width(), grid.height());
    match axis {
        Axis::Rows => width,
        Axis::Columns => height,
    }
}

/// Returns line `index` of an axis of `grid`.
fn line_of(grid: &Grid, axis: Axis, index: u16) -> Line
    requires { index < line_count axis grid.now.width grid.now.height }
    ensures { result ≡ cells_at Unknown grid.now.cells
        (line_indices axis grid.now.width grid.now.height index) }
{
    let len = line_len(grid, axis);
    let mut line = Line::unknown(len);
    for k in 0..len {
        line.set(k, cell_on(grid, axis, index, k));
    }
    line
}

/// Returns line `index` of an axis of `grid` with all that can be deduced of it alone, or `None` if
/// its clue has no placing. `grid` has the puzzle's size.
fn deduced_on(
    tables: &mut Tables,
    puzzle: &Puzzle,
    grid: &Grid,
    axis: Axis,
    index: u16,
) -> Option<Line>
    requires size { HasSizeOf puzzle.now grid.now }
    requires index { index < line_count axis puzzle.now.width puzzle.now.height }
    requires width { puzzle.now.width ≤ tables.old }
    requires height { puzzle.now.height ≤ tables.old }
    ensures line { result ≡ deduced_on axis puzzle.now grid.now.cells index }
    ensures tables { tables.new ≡ tables.old }
{
    let clue = match axis {
        Axis::Rows => puzzle.row_clue(index),
        Axis::Columns => puzzle.col_clue(index),
    };
    deduce(tables, &line_of(grid, axis, index), clue)
}

/// Replaces `lines` by the lines of an axis, each deduced from `grid` alone, and returns `None`; or
/// returns the number of the first line that has no placing. `grid` has the puzzle's size. Fails
/// with `NoMemory` if an allocation fails.
fn deduce_axis(
    lines: &mut Vec<Line>,
    tables: &mut Tables,
    puzzle: &Puzzle,
    grid: &Grid,
    axis: Axis,
) -> Result<Option<u16>, NoMemory>
    requires size { HasSizeOf puzzle.now grid.now }
    requires width { puzzle.now.width ≤ tables.old }
    requires height { puzzle.now.height ≤ tables.old }
    ensures dead { IfOk result (λ dead. dead ≡ dead_line axis puzzle.now grid.now.cells) }
    ensures lines { IfOk result (λ dead. dead ≡ None →
        AreDeduced axis puzzle.now grid.now.cells lines.new.items) }
    ensures tables { tables.new ≡ tables.old }
{
    lines.clear();
    for index in 0..line_count(puzzle, axis) {
        match deduced_on(tables, puzzle, grid, axis, index) {
            Some(line) => lines.push(line)?,
            None => return Ok(Some(index)),
        }
    }
    Ok(None)
}

/// Returns the colour that one of two values of a cell has, unknown if neither has one, or `None` if
/// they have different colours.
fn join_cells(cell: Cell, other: Cell) -> Option<Cell>
    ensures { result ≡ join_cells cell other }
{
    match (cell, other) {
        (Cell::Unknown, known) | (known, Cell::Unknown) => Some(known),
        (Cell::Filled, Cell::Filled) => Some(Cell::Filled),
        (Cell::Blank, Cell::Blank) => Some(Cell::Blank),
        (Cell::Filled, Cell::Blank) | (Cell::Blank, Cell::Filled) => None,
    }
}

/// Returns the join of the values of the cell at `at` in `rows` and in `columns`, or `None` if these
/// are different colours.
fn joined_at(rows: &[Line], columns: &[Line], at: Position) -> Option<Cell>
    requires row { at.row < length rows.now }
    requires column { at.column < length columns.now }
    requires rows { HaveLength (length columns.now) rows.now }
    requires columns { HaveLength (length rows.now) columns.now }
    ensures { result ≡ joined_in rows.now columns.now at }
{
    let in_row = rows[usize::from(at.row)].get(at.column);
    let in_column = columns[usize::from(at.column)].get(at.row);
    join_cells(in_row, in_column)
}

/// Replaces each cell of `grid` by the join of its values in `rows` and in `columns`, and returns
/// `None`; or returns the first cell that has different colours in them. The cells of the grid are
/// unspecified in that case.
fn join_lines(grid: &mut Grid, rows: &[Line], columns: &[Line]) -> Option<Position>
    requires height { length rows.now ≡ grid.old.height }
    requires width { length columns.now ≡ grid.old.width }
    requires rows { HaveLength (length columns.now) rows.now }
    requires columns { HaveLength (length rows.now) columns.now }
    ensures conflict { result ≡ find (is_conflict rows.now columns.now)
        (positions grid.old.width grid.old.height) }
    ensures cells { result ≡ None → (k : ℕ) → k < grid.old.width * grid.old.height →
        joined_in rows.now columns.now (position_at grid.old.width k)
        ≡ Some (slice_index_or grid.new.cells k Unknown) }
    ensures width { grid.new.width ≡ grid.old.width }
    ensures height { grid.new.height ≡ grid.old.height }
    ensures count { length grid.new.cells ≡ grid.old.width * grid.old.height }
{
    let width = grid.width();
    for index in 0..usize::from(width) * usize::from(grid.height()) {
        let position = Position::of_index(width, index);
        match joined_at(rows, columns, position) {
            Some(cell) => grid.set_index(index, cell),
            None => return Some(position),
        }
    }
    None
}

/// A grid on which rounds of line deduction are made, with the buffers for that.
#[derive(Drop)]
struct Rounds {
    grid: Grid,
    tables: Tables,
    rows: Vec<Line>,
    columns: Vec<Line>,
}

impl Rounds {
    /// Returns the unknown grid of `puzzle`, before the first round. Fails with `NoMemory` if an
    /// allocation fails.
    fn new(alloc: Global, puzzle: &Puzzle) -> Result<Rounds, NoMemory>
        ensures rounds { IfOk result (λ rounds. AreRoundsOf puzzle.now rounds) }
        ensures grid { IfOk result (λ rounds. rounds.grid.cells ≡ unknown_grid puzzle.now) }
    {
        let width = puzzle.width();
        let height = puzzle.height();
        Ok(Rounds {
            grid: Grid::unknown(alloc, width, height)?,
            tables: Tables::new(alloc, width.max(height))?,
            rows: Vec::new(alloc),
            columns: Vec::new(alloc),
        })
    }

    /// Makes a round: deduces each line of the grid from the grid alone, and joins all of them to
    /// it. Returns the contradiction that the round shows, if there is one; the cells of the grid
    /// are unspecified in that case. Fails with `NoMemory` if an allocation fails.
    fn round(&mut self, puzzle: &Puzzle) -> Result<Option<Contradiction>, NoMemory>
        requires { AreRoundsOf puzzle.now self.old }
        ensures contradiction { IfOk result (λ found.
            found ≡ contradiction_in puzzle.now self.old.grid.cells) }
        ensures grid { IfOk result (λ found. found ≡ None →
            round (lines_of puzzle.now) self.old.grid.cells ≡ Some self.new.grid.cells) }
        ensures rounds { IfOk result (λ found. AreRoundsOf puzzle.now self.new) }
    {
        let Rounds {
            grid,
            tables,
            rows,
            columns,
        } = self;
        if let Some(index) = deduce_axis(rows, tables, puzzle, grid, Axis::Rows)? {
            return Ok(Some(Contradiction::NoPlacing {
                axis: Axis::Rows,
                index,
            }));
        }
        if let Some(index) = deduce_axis(columns, tables, puzzle, grid, Axis::Columns)? {
            return Ok(Some(Contradiction::NoPlacing {
                axis: Axis::Columns,
                index,
            }));
        }
        Ok(match join_lines(grid, rows, columns) {
            Some(position) => Some(Contradiction::TwoColours(position)),
            None => None,
        })
    }
}

/// Returns what the first dead round of line logic shows for `puzzle`, whose unknown grid has a dead
/// closure. Fails with `NoMemory` if an allocation fails.
pub fn first_contradiction(alloc: Global, puzzle: &Puzzle) -> Result<Contradiction, NoMemory>
    requires { line_closure puzzle.now ≡ None }
    ensures { IfOk result (λ found. first_contradiction puzzle.now ≡ Some found) }
{
    let mut rounds = Rounds::new(alloc, puzzle)?;
    // A round that changes anything assigns at least one cell.
    let most = usize::from(puzzle.width()) * usize::from(puzzle.height()) + 1;
    for _ in 0..most {
        if let Some(contradiction) = rounds.round(puzzle)? {
            return Ok(contradiction);
        }
    }
    unreachable!()
}

/// Returns by what `puzzle`, which has no solution, was refuted if `grade` is its grade. Fails with
/// `NoMemory` if an allocation fails.
pub(crate) fn refutation_of(
    alloc: Global,
    puzzle: &Puzzle,
    grade: Grade,
) -> Result<Refutation, NoMemory>
    requires { grade ≡ Grade.Lines → line_closure puzzle.now ≡ None }
    ensures { IfOk result (λ refutation. refutation_of puzzle.now grade ≡ Some refutation) }
{
    Ok(match grade {
        Grade::Lines => Refutation::Lines(first_contradiction(alloc, puzzle)?),
        Grade::Trials => Refutation::Trials,
        Grade::Search => Refutation::Search,
    })
}
