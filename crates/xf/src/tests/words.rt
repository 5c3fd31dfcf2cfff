//! Which words are accepted, and which of the files that they name are absent.
use super::case::{ALL_STEPS, PASSING, USAGE, see_words};
use std::test::Fail;

/// A name, the words with a bar between them, the status, and what is written.
static CASES: [(&str, &str, u8, &str); 22] = [
    ("a board and a session", "b.csv|s.txt", 1, ALL_STEPS),
    (
        "a board's name that is its ending alone",
        ".csv|s.txt",
        1,
        ALL_STEPS,
    ),
    ("no words", "", 2, USAGE),
    ("one word", "b.csv", 2, USAGE),
    ("three words", "b.csv|s.txt|t.txt", 2, USAGE),
    ("two empty words", "|", 7, "absent \"\"\n"),
    ("a board that begins with a dash", "-b.csv|s.txt", 2, USAGE),
    ("a session that is a dash", "b.csv|-", 2, USAGE),
    (
        "a session that begins with a dash",
        "b.csv|-s.txt",
        2,
        USAGE,
    ),
    (
        "an option that is not built",
        "--view|data|b.csv|s.txt",
        2,
        USAGE,
    ),
    ("a board file", "board.json|pass.txt", 0, PASSING),
    (
        "a board file that breaks a rule",
        "broken.json|pass.txt",
        3,
        "board refused name /groups/0/of b\n",
    ),
    (
        "the session before the board",
        "s.txt|b.csv",
        3,
        "board refused syntax\n",
    ),
    (
        "data by another name than their ending",
        "b.CSV|s.txt",
        3,
        "board refused syntax\n",
    ),
    (
        "a blank after the ending",
        "b.csv |s.txt",
        7,
        "absent \"b.csv \"\n",
    ),
    ("an absent board", "c.csv|s.txt", 7, "absent c.csv\n"),
    ("both files absent", "c.csv|t.txt", 7, "absent c.csv\n"),
    ("an absent session", "b.csv|t.txt", 7, "absent t.txt\n"),
    ("an empty name", "b.csv|", 7, "absent \"\"\n"),
    (
        "a blank in a name",
        "b.csv|my s.txt",
        7,
        "absent \"my s.txt\"\n",
    ),
    ("a tab in a name", "b.csv|a\tb", 7, "absent \"a\\tb\"\n"),
    (
        "a quote, a backslash and bytes above 127 in a name",
        "ü\"\\.csv|",
        7,
        "absent \"ü\\\"\\\\.csv\"\n",
    ),
];

#[test]
fn answers_words(rt: HostRuntime) -> Result<(), Fail> {
    see_words(&rt, rt.alloc(), &CASES)
}
