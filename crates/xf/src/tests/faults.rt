//! Files that are too long or cannot be read, an output that fails, and memory that is refused.
use super::case::{
    ALL_STEPS, BOARD, Case, FIRST_STEP, PLAIN, SESSION, USAGE, see, words_between_bars,
};
use crate::{code_of, run};
use std::alloc::Global;
use std::test::Fail;
use xf_outside::{Depot, FetchFault, MemorySink};

/// What all lines of the session give, cut in the second line of the last data view.
const CUT_STEPS: &str = "step 1 ok moved 1
records 3 passing 2
whole all 2
group a 2
  1 1
  2 2
group b 3
  10 0
  20 1
  30 1
step 2 refused 3 unknown verb
step 3 ok moved 1
records 3 passing 1
who";

/// A filter, a file of one record that is loaded, and a question.
const LOADED: &str = "step 1 ok moved 1
records 3 passing 2
whole all 2
group a 2
  1 1
  2 2
group b 3
  10 0
  20 1
  30 1
step 2 ok added 1
records 4 passing 3
whole all 3
group a 2
  1 1
  2 3
group b 4
  10 0
  20 1
  30 1
  40 1
step 3 ok
  4
records 4 passing 3
whole all 3
group a 2
  1 1
  2 3
group b 4
  10 0
  20 1
  30 1
  40 1
";

/// The number of the fetch that fails, and that of the put that fails with how many bytes it keeps; 0 for none.
type Failing = (u64, (u64, u64));

/// A name, the words, the calls that fail, the status, and what is written.
static FAULTS: [(&str, &str, Failing, u8, &str); 18] = [
    (
        "a file that a step loads",
        "b.csv|load.txt",
        (0, (0, 0)),
        0,
        LOADED,
    ),
    (
        "a file that a step loads and that cannot be read, after which nothing is done",
        "b.csv|load.txt",
        (3, (0, 0)),
        4,
        FIRST_STEP,
    ),
    (
        "files that steps load and that are absent",
        "b.csv|gone.txt",
        (0, (0, 0)),
        1,
        "step 1 refused 15 absent gone.csv\nstep 2 refused 15 absent \"\"\n",
    ),
    (
        "a board that cannot be read",
        "b.csv|s.txt",
        (1, (0, 0)),
        4,
        "",
    ),
    (
        "a session that cannot be read",
        "b.csv|s.txt",
        (2, (0, 0)),
        4,
        "",
    ),
    (
        "a failing fetch of a file that is not there",
        "c.csv|s.txt",
        (1, (0, 0)),
        4,
        "",
    ),
    (
        "a first step that is not put",
        "b.csv|s.txt",
        (0, (1, 0)),
        5,
        "",
    ),
    (
        "a first step that is cut in its line",
        "b.csv|s.txt",
        (0, (1, 5)),
        5,
        "step ",
    ),
    (
        "a second step that is not put",
        "b.csv|s.txt",
        (0, (2, 0)),
        5,
        FIRST_STEP,
    ),
    (
        "a third step that is cut in its view",
        "b.csv|s.txt",
        (0, (3, 41)),
        5,
        CUT_STEPS,
    ),
    ("a usage line that is cut", "b.csv", (0, (1, 5)), 5, "usage"),
    (
        "an absent line that is cut",
        "c.csv|s.txt",
        (0, (1, 7)),
        5,
        "absent ",
    ),
    (
        "a board's refusal that is cut",
        "uneven.csv|s.txt",
        (0, (1, 6)),
        5,
        "board ",
    ),
    (
        "words before a failing fetch",
        "b.csv",
        (1, (0, 0)),
        2,
        USAGE,
    ),
    (
        "a board's refusal before an absent session",
        "empty.csv|t.txt",
        (0, (0, 0)),
        3,
        "board refused no header\n",
    ),
    (
        "a board's refusal before a failing fetch",
        "uneven.csv|s.txt",
        (2, (0, 0)),
        3,
        "board refused uneven record 1\n",
    ),
    (
        "a failing fetch before a failing put",
        "b.csv|s.txt",
        (1, (1, 9)),
        4,
        "",
    ),
    (
        "an end before calls that would fail",
        "b.csv|s.txt",
        (3, (4, 0)),
        1,
        ALL_STEPS,
    ),
];

#[test]
fn ends_where_calls_fail(rt: HostRuntime) -> Result<(), Fail> {
    for (name, words, (failing, cut), status, text) in &FAULTS {
        let case = Case {
            name,
            words,
            failing: *failing,
            cut: *cut,
            status: *status,
            text,
            ..PLAIN
        };
        see(&rt, rt.alloc(), &case)?;
    }
    Ok(())
}

/// The limit and one byte more as a board and as a session, and the limit itself, as a line.
#[test]
fn refuses_long_files(rt: HostRuntime) -> Result<(), Fail> {
    let long = vec![in rt.alloc(); b'1'; 134_217_729]?;
    for (name, board, session, status, text) in [
        (
            "a board that is too long",
            long.as_slice(),
            SESSION,
            8,
            "too long b.csv 134217728\n",
        ),
        (
            "a session that is too long",
            BOARD,
            long.as_slice(),
            8,
            "too long s.txt 134217728\n",
        ),
        (
            "a session of the limit, a line",
            BOARD,
            &long[1..],
            1,
            "step 1 refused 1 line too long 134217728\n",
        ),
    ] {
        let case = Case {
            name,
            files: &[("b.csv", board), ("s.txt", session)],
            status,
            text,
            ..PLAIN
        };
        see(&rt, rt.alloc(), &case)?;
    }
    Ok(())
}

/// A depot for whose bytes memory is refused.
#[derive(Drop)]
struct FullDepot;

impl Depot for FullDepot {
    ghost use Rattle.std.specs.Prelude.{None};

    ghost account = { λ _. record { files = None; faults = 0; misses = 0; taken = 0 } };

    fn fetch(&mut self, _alloc: Global, _name: &str, _limit: u64) -> Result<Vec<u8>, FetchFault> {
        Err(FetchFault::OutOfMemory)
    }
}

#[test]
fn ends_where_memory_is_refused(rt: HostRuntime) -> Result<(), Fail> {
    let words = words_between_bars(rt.alloc(), "b.csv|s.txt")?;
    let mut sink = MemorySink::new(rt.alloc(), Vec::new(rt.alloc()));
    let status = run(rt.alloc(), words.as_slice(), &mut FullDepot, &mut sink);
    assert_eq!(rt; code_of(status), 6);
    assert_eq!(rt; sink.bytes().len(), 0);
    Ok(())
}
