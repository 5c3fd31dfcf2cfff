//! A run over files in memory: what it is given, what it must give, and the comparison of the two.
use crate::{code_of, run};
use std::alloc::Global;
use std::process::Abort;
use std::test::Fail;
use xf_base::Text;
use xf_outside::{MemoryDepot, MemorySink};

/// The board of most cases.
pub(super) const BOARD: &[u8] = b"a,b\n1,10\n2,20\n2,30\n";

/// A session on that board: a step, a line that is refused, and another step.
pub(super) const SESSION: &[u8] = b"filter a range 2 3\nfly\nfilter b range 10 30\n";

/// What the first line of that session gives.
pub(super) const FIRST_STEP: &str = "step 1 ok moved 1
records 3 passing 2
whole all 2
group a 2
  1 1
  2 2
group b 3
  10 0
  20 1
  30 1
";

/// What all its lines give.
pub(super) const ALL_STEPS: &str = "step 1 ok moved 1
records 3 passing 2
whole all 2
group a 2
  1 1
  2 2
group b 3
  10 0
  20 1
  30 1
step 2 refused 3 unknown verb
step 3 ok moved 1
records 3 passing 1
whole all 1
group a 2
  1 1
  2 1
group b 3
  10 0
  20 1
  30 1
";

/// What `passing` gives on a board file without records.
pub(super) const PASSING: &str = "step 1 ok
  0
records 0 passing 0
whole all 0
group of_a 0
";

pub(super) const USAGE: &str = "usage: xf [--view page|data] [--demo N] BOARD SESSION\n";

/// The files of the cases that bring none of their own.
const FILES: &[(&str, &[u8])] = &[
    ("b.csv", BOARD),
    ("s.txt", SESSION),
    (".csv", BOARD),
    ("b.CSV", BOARD),
    (
        "board.json",
        br#"{"version":1,"columns":[{"name":"a","kind":"int"}],"dimensions":[{"name":"a","from":["column","a"]}],"groups":[{"name":"of_a","of":"a","reduce":["count"]}],"wholes":[{"name":"all","reduce":["count"]}]}"#,
    ),
    (
        "broken.json",
        br#"{"version":1,"columns":[{"name":"a","kind":"int"}],"dimensions":[{"name":"a","from":["column","a"]}],"groups":[{"name":"of_a","of":"b","reduce":["count"]}]}"#,
    ),
    ("pass.txt", b"passing\n"),
    ("empty.csv", b""),
    ("uneven.csv", b"a,b\n1\n"),
    ("load.txt", b"filter a range 2 3\nload more.csv\nsize\n"),
    ("more.csv", b"b,a\n40,2\n"),
    ("gone.txt", b"load gone.csv\nload \"\"\n"),
];

/// What a run is given, and what it must give.
#[derive(Clone, Copy)]
pub(super) struct Case<'a> {
    /// What the case shows. A failure prints it.
    pub(super) name: &'a str,
    /// The words, with a bar between them.
    pub(super) words: &'a str,
    pub(super) files: &'a [(&'a str, &'a [u8])],
    /// The number of the fetch that fails, from 1 on; 0 for none.
    pub(super) failing: u64,
    /// The number of the put that fails, from 1 on, and how many bytes it keeps; 0 for none.
    pub(super) cut: (u64, u64),
    /// The number of the exit status.
    pub(super) status: u8,
    /// All that is written.
    pub(super) text: &'a str,
}

/// A board and a session, of which nothing fails.
pub(super) const PLAIN: Case<'static> = Case {
    name: "",
    words: "b.csv|s.txt",
    files: FILES,
    failing: 0,
    cut: (0, 0),
    status: 0,
    text: "",
};

/// Runs the case, and compares what is written and the status.
pub(super) fn see(rt: &impl Abort, alloc: Global, case: &Case<'_>) -> Result<(), Fail> {
    let words = words_between_bars(alloc, case.words)?;
    let mut depot = depot_of(alloc, case.files, case.failing)?;
    let mut sink = MemorySink::new(alloc, vec![in alloc; case.cut]?);
    let status = run(alloc, words.as_slice(), &mut depot, &mut sink);
    let text = str::from_utf8(sink.bytes())?;
    assert_eq!(rt; text, case.text, "{}", case.name);
    assert_eq!(rt; code_of(status), case.status, "{}", case.name);
    Ok(())
}

/// Runs with the words of each case, and compares what is written and the status. A case is a name, the words with a bar
/// between them, the status, and what is written.
pub(super) fn see_words(
    rt: &impl Abort,
    alloc: Global,
    cases: &'static [(&'static str, &'static str, u8, &'static str)],
) -> Result<(), Fail> {
    for (name, words, status, text) in cases {
        let case = Case {
            name,
            words,
            status: *status,
            text,
            ..PLAIN
        };
        see(rt, alloc, &case)?;
    }
    Ok(())
}

fn depot_of(alloc: Global, files: &[(&str, &[u8])], failing: u64) -> Result<MemoryDepot, Fail> {
    let mut held = Vec::new(alloc);
    for (name, bytes) in files {
        held.push((Text::of(alloc, name)?, bytes.to_vec(alloc)?))?;
    }
    Ok(MemoryDepot::new(held, vec![in alloc; failing]?))
}

/// The words of a text that has a bar between them; an empty text has none.
pub(super) fn words_between_bars(alloc: Global, text: &str) -> Result<Vec<String>, Fail> {
    let mut words = Vec::new(alloc);
    if text.is_empty() {
        return Ok(words);
    }
    for word in text.split('|') {
        words.push(String::from_str(alloc, word)?)?;
    }
    Ok(words)
}
