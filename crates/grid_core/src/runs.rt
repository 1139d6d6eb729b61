//! The runs of a line.

ghost use Rattle.std.specs.Prelude.{◌≡◌, ◌↔◌, IsTrue};
ghost use Rattle.grid_core.specs.Runs.{runs};

/// Reports whether the runs of a line, in order, have the lengths in `clue`. `cells` are the line's
/// colours, `true` for filled.
pub fn has_runs(cells: &[bool], clue: &[u16]) -> bool
    ensures { IsTrue result ↔ (runs cells.now ≡ clue.now) }
{
    // `run` cells before the current one are filled in succession; the `next` runs before them have
    // ended and have the lengths of the first `next` numbers.
    let mut run: usize = 0;
    let mut next: usize = 0;
    for filled in cells {
        if *filled {
            run += 1;
        } else if run > 0 {
            if next >= clue.len() || usize::from(clue[next]) != run {
                return false;
            }
            next += 1;
            run = 0;
        }
    }
    if run > 0 {
        if next >= clue.len() || usize::from(clue[next]) != run {
            return false;
        }
        next += 1;
    }
    next == clue.len()
}
