//! The domain of a line: the colours that its cells can still take, as bit sets of one width.

ghost use Rattle.std.specs.Prelude.{◌<◌, List, reverse};
ghost use Rattle.grid_core.specs.declared.cells.Cell.{Cell};
ghost use Rattle.line_core.specs.steps.PrefixScan.{IsDomainOf, padded};

use bit_sets::{BitSet, complement_within, prefix, reversed_within};
use grid_core::BitLine;

/// The colours that each cell of a line of `len` cells can still take: `not_filled` has the cells
/// that are not known to be filled, `not_blank` those that are not known to be blank.
#[derive(Drop)]
pub struct LineDomain<W: BitSet> {
    pub len: u16,
    pub not_filled: W,
    pub not_blank: W,
}

impl<W: BitSet> LineDomain<W> {
    /// Returns the domain of `line`.
    pub fn of(line: &BitLine<W>) -> LineDomain<W>
        ensures { IsDomainOf W.WIDTH line.now result.len
            (W.bits result.not_filled) (W.bits result.not_blank) }
    {
        let len = line.len();
        LineDomain {
            len,
            not_filled: complement_within(line.filled(), len),
            not_blank: complement_within(line.blank(), len),
        }
    }
}

/// Returns the domain of the mirrored line.
pub fn reversed<W: BitSet>(domain: &LineDomain<W>) -> LineDomain<W>
    ghost line: { List Cell }
    requires { IsDomainOf W.WIDTH line domain.now.len
        (W.bits domain.now.not_filled) (W.bits domain.now.not_blank) }
    ensures { IsDomainOf W.WIDTH (reverse line) result.len
        (W.bits result.not_filled) (W.bits result.not_blank) }
{
    LineDomain {
        len: domain.len,
        not_filled: reversed_within(domain.not_filled, domain.len),
        not_blank: reversed_within(domain.not_blank, domain.len),
    }
}

/// Returns the domain of the line with blank cells appended until it is as long as the sets are
/// wide: mirroring it then takes no shift.
pub fn padded<W: BitSet>(domain: &LineDomain<W>) -> LineDomain<W>
    ghost line: { List Cell }
    requires { IsDomainOf W.WIDTH line domain.now.len
        (W.bits domain.now.not_filled) (W.bits domain.now.not_blank) }
    ensures { IsDomainOf W.WIDTH (padded W.WIDTH line) result.len
        (W.bits result.not_filled) (W.bits result.not_blank) }
{
    let padding = W::full().difference(prefix(domain.len));
    LineDomain {
        len: W::WIDTH,
        not_filled: domain.not_filled.union(padding),
        not_blank: domain.not_blank,
    }
}
