//! What is read and printed.
use crate::worked::{
    again, another_version, column_without_name, no_object, one_chart, taken_name, unknown_member,
    words_of_name,
};
use std::alloc::Global;
use std::process::Abort;
use std::test::Fail;
use xf_base::{Limits, OutOfMemory};
use xf_board::{Board, BoardRefusal, print_board, put_board_refusal, read_board};

/// Members in an order of their own, and defaults left out.
static WRITTEN: &[u8] =
    br##"{"version": 1, "title": "Parts", "charts": [{"group": "g", "kind": "row", "cap": 3}, {"kind": "count"}],
"columns": [{"name": "n", "kind": "int", "blank": "0"}, {"name": "t", "kind": "tags"}],
"dimensions": [{"name": "d", "from": ["column", "n"]}, {"from": ["tags", "t"], "name": "e"}],
"groups": [{"name": "g", "of": "d", "round": ["floor", 10], "reduce": ["sumcount", "n"]}],
"wholes": [{"name": "all", "reduce": ["both", ["count"], ["sum", "n"]]}], "colours": ["#0000ff"]}"##;

/// All members, in the order of the bytes of their names.
static PRINTED: &[u8] =
    br##"{"charts":[{"cap":3,"field":0,"fill":"#336699","group":"g","height":200,"kind":"row","others":"Others","title":"","width":300},{"height":200,"kind":"count","title":"","width":300}],"colours":["#0000ff"],"columns":[{"blank":"0","kind":"int","name":"n"},{"kind":"tags","name":"t","separator":";"}],"dimensions":[{"from":["column","n"],"name":"d"},{"from":["tags","t"],"name":"e"}],"groups":[{"name":"g","of":"d","order":0,"reduce":["sumcount","n"],"round":["floor",10]}],"title":"Parts","version":1,"wholes":[{"name":"all","reduce":["both",["count"],["sum","n"]]}]}"##;

/// How many of each part a board has, and whether it is within the standard limits.
fn counts_of(board: &Board) -> (usize, usize, usize, usize, usize, usize, bool) {
    (
        board.schema().len(),
        board.dimensions().len(),
        board.groups().len(),
        board.wholes().len(),
        board.charts().len(),
        board.colours().len(),
        board.within(&Limits::standard()) && board.is_sound() && board.title() == "Parts",
    )
}

/// What is printed for a board that was read, or why there is none, in words.
fn told(alloc: Global, read: Result<Board, BoardRefusal>) -> Result<Vec<u8>, OutOfMemory> {
    match read {
        Ok(board) => print_board(alloc, &board),
        Err(BoardRefusal::OutOfMemory) => Err(OutOfMemory),
        Err(refusal) => words_of(alloc, &refusal),
    }
}

fn words_of(alloc: Global, refusal: &BoardRefusal) -> Result<Vec<u8>, OutOfMemory> {
    let mut words = Vec::new(alloc);
    put_board_refusal(&mut words, refusal)?;
    Ok(words)
}

/// Whether the board has these parts.
fn has_parts(alloc: Global) -> bool {
    match read_board(alloc, WRITTEN) {
        Ok(board) => counts_of(&board) == (2, 2, 1, 1, 2, 1, true),
        Err(_) => false,
    }
}

/// Whether this is told of what was read.
fn is_told(alloc: Global, read: Result<Board, BoardRefusal>, want: &[u8]) -> bool {
    match told(alloc, read) {
        Ok(found) => found.as_slice() == want,
        Err(OutOfMemory) => false,
    }
}

#[test]
fn reads_and_prints(rt: HostRuntime) -> Result<(), Fail> {
    let alloc = rt.alloc();
    assert!(rt; has_parts(alloc), "parts");
    assert!(rt;
        is_told(alloc, read_board(alloc, WRITTEN), PRINTED),
        "printed"
    );
    assert!(rt;
        is_told(alloc, read_board(alloc, PRINTED), PRINTED),
        "printed again"
    );
    Ok(())
}

/// The board of one chart, with all members.
static ONE_CHART: &[u8] =
    br##"{"charts":[{"height":200,"kind":"count","title":"All","width":300}],"colours":["#e8eef4","#b9cbdd","#7d9cbc","#40688f","#16324f"],"columns":[],"dimensions":[],"groups":[],"title":"","version":1,"wholes":[]}"##;

/// The board of one chart, printed and read again.
fn one_chart_again(alloc: Global) -> Result<Board, BoardRefusal> {
    let board = one_chart(alloc)?;
    again(alloc, &board)
}

/// Whether a name that is not declared is told in these words.
fn has_words(alloc: Global) -> Result<bool, OutOfMemory> {
    let mut words = Vec::new(alloc);
    words_of_name(alloc, &mut words)?;
    Ok(words.as_slice() == br#"name /groups/0/of "a b""#.as_slice())
}

#[test]
fn worked(rt: HostRuntime) -> Result<(), Fail> {
    let alloc = rt.alloc();
    assert!(rt; is_told(alloc, no_object(alloc), b"syntax"), "no object");
    assert!(rt;
        is_told(alloc, another_version(alloc), b"version 2"),
        "version"
    );
    assert!(rt;
        is_told(alloc, unknown_member(alloc), b"unknown /x"),
        "member"
    );
    assert!(rt;
        is_told(alloc, column_without_name(alloc), b"field /columns/1/name"),
        "column"
    );
    assert!(rt;
        is_told(alloc, taken_name(alloc), b"name /dimensions/1/name d"),
        "name"
    );
    assert!(rt; is_told(alloc, one_chart_again(alloc), ONE_CHART), "chart");
    assert!(rt; has_words(alloc)?, "words");
    Ok(())
}
