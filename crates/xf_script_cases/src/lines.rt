//! Lines that are read, as the one line that is written for each, and lines that are refused.
use crate::see::see;
use crate::worked::{again, comment, greatest_three, no_text, no_verb, wanting_count};
use std::alloc::Global;
use std::process::Abort;
use std::test::Fail;
use xf_script::{Command, LineRefusal, print_command, read_command};

/// A line, and the line that is written for its command, which is read as it again; an empty one where the line is no step.
static WRITTEN: [(&[u8], &str); 49] = [
    (b"", ""),
    (b" \t ", ""),
    (b"  # filter a all", ""),
    (b"#\"", ""),
    (
        b"  filter   carrier func oneof exact \"A A\" range B D end ",
        "filter carrier func oneof exact \"A A\" range B D end",
    ),
    (b"toggle  carrier exact  UA", "toggle carrier exact UA"),
    (b"load f.csv", "load f.csv"),
    (b"load \"a b\"", "load \"a b\""),
    (b"load \"\"", "load \"\""),
    (b"add 1", "add 1"),
    (b"add 1 \"\" \"x\\ty\" a\\b", "add 1 \"\" \"x\\ty\" a\\b"),
    (b"filter d all", "filter d all"),
    (b"filter d exact \"7\"", "filter d exact 7"),
    (b"filter \"d\" \"range\" 1 2", "filter d range 1 2"),
    (b"filter d func modulo 007 00", "filter d func modulo 7 0"),
    (
        b"filter d func and not prefix a or prefix b modulo 2 1",
        "filter d func and not prefix a or prefix b modulo 2 1",
    ),
    (b"toggle d range 1 2", "toggle d range 1 2"),
    (b"clear d", "clear d"),
    (b"clearall", "clearall"),
    (b"remove passing", "remove passing"),
    (b"remove where d exact 1", "remove where d exact 1"),
    (b"dimension d column a", "dimension d column a"),
    (b"dimension d pair a b", "dimension d pair a b"),
    (b"dimension d tags t", "dimension d tags t"),
    (b"dimension d weekday t", "dimension d weekday t"),
    (b"dimension d month t", "dimension d month t"),
    (b"group g of d same count", "group g of d same count"),
    (
        b"group g of d floor 010 sum a",
        "group g of d floor 10 sum a",
    ),
    (
        b"group g of d month both sumcount a spread b",
        "group g of d month both sumcount a spread b",
    ),
    (
        b"group g of d year sumsquares a",
        "group g of d year sumsquares a",
    ),
    (
        b"group g of d letters 64 both count count",
        "group g of d letters 64 both count count",
    ),
    (b"whole w count", "whole w count"),
    (b"order g 255", "order g 255"),
    (b"order g \"natural\"", "order g natural"),
    (b"dispose dimension d", "dispose dimension d"),
    (b"dispose group g", "dispose group g"),
    (b"dispose whole w", "dispose whole w"),
    (b"top d 3", "top d 3"),
    (b"bottom d 999999999999999 0", "bottom d 999999999999999 0"),
    (b"groups g", "groups g"),
    (b"grouptop g 2", "grouptop g 2"),
    (b"value g \"\\\"\\\\\\n\\r\"", "value g \"\\\"\\\\\\n\\r\""),
    (b"records", "records"),
    (b"records a \"b c\"", "records a \"b c\""),
    (b"size", "size"),
    (b"\tpassing", "passing"),
    (b"events\t", "events"),
    (b"note", "note"),
    (b"note \xc3\xa9 \"#\"", "note \u{e9} #"),
];

/// A line, and why it says no command.
static REFUSED: [(&[u8], LineRefusal); 46] = [
    (b"size \xff", LineRefusal::NotText { place: 5 }),
    (b"# \xc3", LineRefusal::NotText { place: 2 }),
    (b"fly", LineRefusal::Verb),
    (b"Size", LineRefusal::Verb),
    (b"\"#\" x", LineRefusal::Verb),
    (b"fly \"x", LineRefusal::Verb),
    (b"\"size", LineRefusal::Word { number: 1 }),
    (b"si\"ze", LineRefusal::Word { number: 1 }),
    (b"\"size\"x", LineRefusal::Word { number: 1 }),
    (b"size \"", LineRefusal::Word { number: 2 }),
    (b"size x \"", LineRefusal::Word { number: 2 }),
    (b"filter d \"all\"\"", LineRefusal::Word { number: 3 }),
    (b"note \"\\x\"", LineRefusal::Word { number: 2 }),
    (b"note \"a\\\"", LineRefusal::Word { number: 2 }),
    (b"load", LineRefusal::Word { number: 2 }),
    (b"load a b", LineRefusal::Word { number: 3 }),
    (b"add", LineRefusal::Word { number: 2 }),
    (b"filter", LineRefusal::Word { number: 2 }),
    (b"filter d", LineRefusal::Word { number: 3 }),
    (b"filter delay range 0", LineRefusal::Word { number: 5 }),
    (b"filter delay range 0 7 9", LineRefusal::Word { number: 6 }),
    (b"filter d func modulo 0 0", LineRefusal::Word { number: 5 }),
    (b"toggle d all", LineRefusal::Word { number: 3 }),
    (b"toggle d exact 1 2", LineRefusal::Word { number: 5 }),
    (b"clearall d", LineRefusal::Word { number: 2 }),
    (b"remove", LineRefusal::Word { number: 2 }),
    (b"remove all", LineRefusal::Word { number: 2 }),
    (b"remove passing d", LineRefusal::Word { number: 3 }),
    (b"remove where d", LineRefusal::Word { number: 4 }),
    (b"dimension d", LineRefusal::Word { number: 3 }),
    (b"dimension d pair a", LineRefusal::Word { number: 5 }),
    (b"dimension d column a b", LineRefusal::Word { number: 5 }),
    (b"group g on d same count", LineRefusal::Word { number: 3 }),
    (
        b"group g of d floor 0 count",
        LineRefusal::Word { number: 6 },
    ),
    (
        b"group g of d letters 65 count",
        LineRefusal::Word { number: 6 },
    ),
    (b"group g of d same", LineRefusal::Word { number: 6 }),
    (
        b"group g of d same both count both",
        LineRefusal::Word { number: 8 },
    ),
    (
        b"group g of d same count a",
        LineRefusal::Word { number: 7 },
    ),
    (b"order g 256", LineRefusal::Word { number: 3 }),
    (b"order g", LineRefusal::Word { number: 3 }),
    (b"dispose d", LineRefusal::Word { number: 2 }),
    (b"top d -1", LineRefusal::Word { number: 3 }),
    (b"top d 1000000000000000", LineRefusal::Word { number: 3 }),
    (b"top d 1 2 3", LineRefusal::Word { number: 5 }),
    (b"value g", LineRefusal::Word { number: 3 }),
    (
        b"filter d func not not not not not not not not not not not not not not not not prefix x",
        LineRefusal::TooDeep { number: 20 },
    ),
];

/// The line that is written for what a line says; none where it is no step.
fn rewritten(alloc: Global, line: &[u8]) -> Result<Vec<u8>, Fail> {
    let read = read_command(alloc, line)?;
    written(alloc, &read)
}

/// The line that is written for a command.
fn written(alloc: Global, read: &Option<Command>) -> Result<Vec<u8>, Fail> {
    match read {
        Some(command) => Ok(print_command(alloc, command)?),
        None => Ok(Vec::new(alloc)),
    }
}

#[test]
fn commands_are_written(rt: HostRuntime) -> Result<(), Fail> {
    for (line, want) in &WRITTEN {
        let once = rewritten(rt.alloc(), line)?;
        let again = rewritten(rt.alloc(), once.as_slice())?;
        see(&rt, once.as_slice(), want)?;
        see(&rt, again.as_slice(), want)?;
    }
    Ok(())
}

fn see_refused(
    rt: &impl Abort,
    read: Result<Option<Command>, LineRefusal>,
    want: LineRefusal,
) -> Result<(), Fail> {
    match read {
        Err(refusal) => assert_eq!(rt; refusal, want),
        Ok(_) => assert!(rt; false),
    }
    Ok(())
}

#[test]
fn lines_are_refused(rt: HostRuntime) -> Result<(), Fail> {
    for (line, want) in &REFUSED {
        see_refused(&rt, read_command(rt.alloc(), line), *want)?;
    }
    Ok(())
}

#[test]
fn worked(rt: HostRuntime) -> Result<(), Fail> {
    let alloc = rt.alloc();
    see_refused(&rt, no_verb(alloc), LineRefusal::Verb)?;
    see_refused(&rt, wanting_count(alloc), LineRefusal::Word { number: 3 })?;
    see_refused(&rt, no_text(alloc), LineRefusal::NotText { place: 5 })?;
    see(&rt, written(alloc, &comment(alloc)?)?.as_slice(), "")?;
    match greatest_three(alloc)? {
        Some(command) => {
            let again = again(alloc, &command)?;
            see(&rt, written(alloc, &again)?.as_slice(), "top \"a b\" 3")
        }
        None => Ok(assert!(rt; false)),
    }
}
