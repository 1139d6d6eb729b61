//! Collections and their surveys, worked out by hand.

use solve_core::Pick;
use survey_core::{MAX_LANES, MAX_RING, Settings};

/// Ten entries. Their puzzles have no, one or several solutions, all grades, and their sizes in
/// both orders; one entry has a bad number, and one a name without a format.
pub const TEN: &str = "@ one.mk\n1 1\n0\n#\n0\n\
    @ clash.mk\n1 1\n1\n#\n0\n\
    @ bad.mk\n2 2\n2 x\n1\n#\n1\n1\n\
    @ pair.mk\n2 4\n2\n1 1\n#\n1\n1\n1\n1\n\
    @ six.mk\n2 6\n1 1 1\n3\n#\n1\n1\n1\n1\n1\n1\n\
    @ two.mk\n2 2\n1\n1\n#\n1\n1\n\
    @ what.txt\n\
    @ fit.nin\n2 4\n2\n1 1\n1\n1\n1\n1\n\
    @ demo.non\ntitle \"Demo\"\nwidth 5\nheight 10\n\n\
    rows\n2\n2,1\n1,1\n3\n1,1\n1,1\n2\n1,1\n1,2\n2\n\ncolumns\n2,1\n2,1,3\n7\n1,3\n2,1\n\n\
    goal \"01100011010010101110101001010000110010100101111000\"\n\
    @ demo2.non\ntitle \"Demo\"\nwidth 5\nheight 10\n\n\
    rows\n2\n2,1\n1,1\n3\n1,1\n1,1\n2\n1,1\n1,2\n2\n\ncolumns\n2,1\n2,1,3\n7\n1,3\n2,1\n\n\
    goal \"01100011010010101110101001010000110010100101111001\"\n";

/// The survey of `TEN`, without solutions.
pub const TEN_SURVEY: &str = "1 1x1 one line 1 1 0 absent one.mk\n\
    2 1x1 none line 0 0 0 absent clash.mk\n\
    3 refused BadNumber:2 bad.mk\n\
    4 4x2 one trials 0 8 0 absent pair.mk\n\
    5 6x2 none trials 0 0 0 absent six.mk\n\
    6 2x2 several search 0 0 2 absent two.mk\n\
    7 refused UnknownFormat what.txt\n\
    8 4x2 one trials 0 8 0 absent fit.nin\n\
    9 5x10 one line 50 50 0 meets demo.non\n\
    10 5x10 one line 50 50 0 misses demo2.non\n\
    entries 10 refused 2 none 2 one 5 several 1 unsettled 0 line 4 trials 3 search 1\n";

/// The survey of `TEN`, with solutions.
pub const TEN_SHOWN: &str = "1 1x1 one line 1 1 0 absent one.mk\n.\n\n\
    2 1x1 none line 0 0 0 absent clash.mk\n\
    3 refused BadNumber:2 bad.mk\n\
    4 4x2 one trials 0 8 0 absent pair.mk\n.##.\n#..#\n\n\
    5 6x2 none trials 0 0 0 absent six.mk\n\
    6 2x2 several search 0 0 2 absent two.mk\n#.\n.#\n\n.#\n#.\n\n\
    7 refused UnknownFormat what.txt\n\
    8 4x2 one trials 0 8 0 absent fit.nin\n.##.\n#..#\n\n\
    9 5x10 one line 50 50 0 meets demo.non\n\
    .##..\n.##.#\n..#.#\n.###.\n#.#..\n#.#..\n..##.\n.#.#.\n.#.##\n##...\n\n\
    10 5x10 one line 50 50 0 misses demo2.non\n\
    .##..\n.##.#\n..#.#\n.###.\n#.#..\n#.#..\n..##.\n.#.#.\n.#.##\n##...\n\n\
    entries 10 refused 2 none 2 one 5 several 1 unsettled 0 line 4 trials 3 search 1\n";

/// The survey of an empty collection.
pub const NOTHING: &str =
    "entries 0 refused 0 none 0 one 0 several 0 unsettled 0 line 0 trials 0 search 0\n";

/// A collection of one entry, whose goal meets the clues.
pub const DEMO: &str = "@ demo.non\ntitle \"Demo\"\nwidth 5\nheight 10\n\n\
    rows\n2\n2,1\n1,1\n3\n1,1\n1,1\n2\n1,1\n1,2\n2\n\ncolumns\n2,1\n2,1,3\n7\n1,3\n2,1\n\n\
    goal \"01100011010010101110101001010000110010100101111000\"\n";

/// The survey of `DEMO`, in lines of 39 and 80 bytes.
pub const DEMO_SURVEY: &str = "1 5x10 one line 50 50 0 meets demo.non\n\
    entries 1 refused 0 none 0 one 1 several 0 unsettled 0 line 1 trials 0 search 0\n";

/// Returns settings with 1,000 guesses by the rule `First`. `lanes` and `ring` are clamped to their
/// ranges.
pub fn settings(lanes: u16, ring: u16, show: bool) -> Settings {
    Settings {
        lanes: lanes.clamp(1, MAX_LANES),
        ring: ring.clamp(1, MAX_RING),
        guesses: 1000,
        pick: Pick::First,
        show,
    }
}
