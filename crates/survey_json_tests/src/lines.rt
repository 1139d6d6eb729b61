//! Lines, as Python's `json` writes them: `dumps(entry, sort_keys=True, separators=(",", ":"),
//! ensure_ascii=False)`, of entries that are filled in by hand.

/// The line of `ONE_PUZZLE`, a puzzle with one solution.
pub(crate) const ONE: &str =
    r###"{"by":"Andr�","catalogue":"7-b","columns":[[1,1],[2]],"copyright":"© nobody","differing":null,"fault":null,"fault_line":null,"goal":"meets","goal_rows":["#.",".#","##"],"grade":"line","guesses":0,"height":3,"license":"","line_cells":6,"message":null,"misfits":[],"name":"one.non","number":1,"rows":[[1],[1],[2]],"solutions":[["#.",".#","##"]],"sums":{"columns":4,"rows":4},"title":"Say \"cheese\" </script>","trial_cells":6,"verdict":"one","width":2}"###;

/// The line of a puzzle with one solution that takes trials.
pub(crate) const TRIALS: &str =
    r###"{"by":null,"catalogue":null,"columns":[[1],[1],[1],[1]],"copyright":null,"differing":null,"fault":null,"fault_line":null,"goal":"absent","goal_rows":null,"grade":"trials","guesses":0,"height":2,"license":null,"line_cells":0,"message":null,"misfits":[],"name":"trials.mk","number":12,"rows":[[2],[1,1]],"solutions":[[".##.","#..#"]],"sums":{"columns":4,"rows":4},"title":null,"trial_cells":8,"verdict":"one","width":4}"###;

/// The line of a puzzle three of whose clues need one cell too many.
pub(crate) const NONE: &str =
    r###"{"by":null,"catalogue":null,"columns":[[3],[],[1,1]],"copyright":null,"differing":null,"fault":null,"fault_line":null,"goal":"absent","goal_rows":null,"grade":"line","guesses":0,"height":2,"license":null,"line_cells":0,"message":"no solution: row 2 needs 4 cells (2 1) and has 3","misfits":[{"axis":"row","cells":3,"line":1,"needed":4},{"axis":"column","cells":2,"line":0,"needed":3},{"axis":"column","cells":2,"line":2,"needed":3}],"name":"none.mk","number":2,"rows":[[1,1],[2,1]],"solutions":[],"sums":{"columns":5,"rows":5},"title":null,"trial_cells":0,"verdict":"none","width":3}"###;

/// The line of `SEVERAL_PUZZLE` with ample guesses.
pub(crate) const SEVERAL: &str =
    r###"{"by":null,"catalogue":null,"columns":[[1],[1],[]],"copyright":null,"differing":["**.","**."],"fault":null,"fault_line":null,"goal":"misses","goal_rows":["##.","#.."],"grade":"search","guesses":2,"height":2,"license":null,"line_cells":2,"message":"at least two solutions, which differ in 4 of 6 cells","misfits":[],"name":"several.non","number":4294967295,"rows":[[1],[1]],"solutions":[["#..",".#."],[".#.","#.."]],"sums":{"columns":2,"rows":2},"title":null,"trial_cells":2,"verdict":"several","width":3}"###;

/// The line of `SEVERAL_PUZZLE` without a guess.
pub(crate) const UNSETTLED: &str =
    r###"{"by":null,"catalogue":null,"columns":[[1],[1],[]],"copyright":null,"differing":null,"fault":null,"fault_line":null,"goal":"misses","goal_rows":["##.","#.."],"grade":"search","guesses":0,"height":2,"license":null,"line_cells":2,"message":"not settled within 0 guesses (try --guesses 1000000)","misfits":[],"name":"unsettled.non","number":3,"rows":[[1],[1]],"solutions":[],"sums":{"columns":2,"rows":2},"title":null,"trial_cells":2,"verdict":"unsettled","width":3}"###;

/// The line of `SEVERAL_PUZZLE` with one guess, which finds a solution.
pub(crate) const FOUND: &str =
    r###"{"by":null,"catalogue":null,"columns":[[1],[1],[]],"copyright":null,"differing":null,"fault":null,"fault_line":null,"goal":"misses","goal_rows":["##.","#.."],"grade":"search","guesses":1,"height":2,"license":null,"line_cells":2,"message":"not settled within 1 guess (try --guesses 1000000)","misfits":[],"name":"found.non","number":3,"rows":[[1],[1]],"solutions":[["#..",".#."]],"sums":{"columns":2,"rows":2},"title":null,"trial_cells":2,"verdict":"unsettled","width":3}"###;

/// The line of an entry that is refused for the second line of its text.
pub(crate) const REFUSED: &str =
    r###"{"by":null,"catalogue":null,"columns":null,"copyright":null,"differing":null,"fault":"BadNumber","fault_line":2,"goal":null,"goal_rows":null,"grade":null,"guesses":null,"height":null,"license":null,"line_cells":null,"message":"\"1 x\" is not a clue (at most 128 numbers from 1 to 256, or 0 alone)","misfits":null,"name":"bad.mk","number":5,"rows":null,"solutions":null,"sums":null,"title":null,"trial_cells":null,"verdict":null,"width":null}"###;

/// The line of an entry that is refused for its name.
pub(crate) const UNKNOWN: &str =
    r###"{"by":null,"catalogue":null,"columns":null,"copyright":null,"differing":null,"fault":"UnknownFormat","fault_line":null,"goal":null,"goal_rows":null,"grade":null,"guesses":null,"height":null,"license":null,"line_cells":null,"message":"the name has no known ending (.non, .mk or .nin)","misfits":null,"name":"readme.txt","number":6,"rows":null,"solutions":null,"sums":null,"title":null,"trial_cells":null,"verdict":null,"width":null}"###;

/// The line of an entry whose name has quotes, control bytes and the end of an element.
pub(crate) const QUOTED: &str =
    "{\"by\":null,\"catalogue\":null,\"columns\":null,\"copyright\":null,\"differing\":null,\"fault\":\"NoSize\",\"fault_line\":null,\"goal\":null,\"goal_rows\":null,\"grade\":null,\"guesses\":null,\"height\":null,\"license\":null,\"line_cells\":null,\"message\":\"no line with two sizes is at the top\",\"misfits\":null,\"name\":\"\\\"a\\\\b\\\"\\b\\t\\n\\f\\r\\u0000\\u001f\x7F/</script>.mk\",\"number\":7,\"rows\":null,\"solutions\":null,\"sums\":null,\"title\":null,\"trial_cells\":null,\"verdict\":null,\"width\":null}";

/// The line of an entry whose name isn't UTF-8.
pub(crate) const LOSSY: &str =
    r###"{"by":null,"catalogue":null,"columns":null,"copyright":null,"differing":null,"fault":"TooLong","fault_line":null,"goal":null,"goal_rows":null,"grade":null,"guesses":null,"height":null,"license":null,"line_cells":null,"message":"the text has more than 1,048,576 bytes","misfits":null,"name":"�é�x😀����.mk","number":8,"rows":null,"solutions":null,"sums":null,"title":null,"trial_cells":null,"verdict":null,"width":null}"###;

/// The line of totals.
pub(crate) const TOTALS: &str =
    r###"{"totals":{"entries":15,"line":6,"none":2,"one":3,"refused":1,"search":18446744073709551615,"several":4,"trials":7,"unsettled":5}}"###;
