use crate::inputs::reported;
use std::test::Fail;
use tk_schedule::HistoryError;

/// A report of two clients over two phases of one tick.
const REPORT: [&str; 9] = [
    "report\n",
    "order 1 1 1 0 mark\n",
    "reads 1 1 0 1\n",
    "order 2 1 0 mark 1\n",
    "reads 2 1 2 1\n",
    "log 0 1 0\n",
    "unsent 0 0\n",
    "unsent 1 0\n",
    "end\n",
];

/// How each report of the history that it shows begins.
const TURNS: &[u8] = b"report
order 1 1 1 0 mark
reads 1 1 0 1
order 2 1 0 mark 1
reads 2 1 2 1
";

/// How many of the report's lines there are, the place of one, what stands in its place, and the number of the first
/// line that isn't the one due; 0 where each is.
const CHANGED: [(usize, usize, &str, u64); 24] = [
    (9, 0, "report\n", 0),
    // no more is read than the word of the line after the turns
    (6, 5, "log", 0),
    (9, 5, "unsents", 0),
    // a line changed
    (9, 0, "reports\n", 1),
    (9, 1, "order 1 1 1 1 mark\n", 2),
    (9, 1, "order 1 1 1 0 mark \n", 2),
    (9, 1, "order 1 1  1 0 mark\n", 2),
    (9, 1, "order 01 1 1 0 mark\n", 2),
    (9, 1, "order 1 1 1 4294967296 mark\n", 2),
    (9, 1, "order 1 1 1 0\n", 2),
    (9, 2, "reads 1 1 0 2\n", 3),
    (9, 3, "order 2 1 0 mark\n", 4),
    (9, 4, "reads 2 1 0 1\n", 5),
    (9, 4, "end\n", 5),
    // a line doubled
    (9, 0, "report\nreport\n", 2),
    (9, 1, "order 1 1 1 0 mark\norder 1 1 1 0 mark\n", 3),
    (9, 4, "reads 2 1 2 1\nreads 2 1 2 1\n", 6),
    // a line dropped
    (9, 0, "", 1),
    (9, 2, "", 3),
    (9, 4, "", 5),
    // an end in place of the first log, and no more lines
    (9, 5, "end\n", 6),
    (5, 0, "report\n", 6),
    (3, 0, "report\n", 4),
    (1, 0, "", 1),
];

#[test]
fn histories_of_reports(rt: HostRuntime) -> Result<(), Fail> {
    let alloc = rt.alloc();
    for (lines, place, text, bad) in CHANGED {
        let mut report = Vec::new(alloc);
        for (i, line) in REPORT.iter().enumerate() {
            if i < lines {
                let line = if i == place { text } else { *line };
                report.extend_from_slice(line.as_bytes())?;
            }
        }
        match reported(alloc, report.as_slice())? {
            Ok(found) => {
                assert!(rt; bad == 0);
                assert!(rt; found.as_slice().starts_with(TURNS));
            }
            Err(error) => assert!(rt; error == HistoryError::Line(bad)),
        }
    }
    Ok(())
}
