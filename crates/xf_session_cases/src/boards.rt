//! What a session has of the board that it begins on.
use std::alloc::Global;
use std::test::Fail;
use xf_base::{Limits, OutOfMemory};
use xf_board::{Board, BoardRefusal, read_board};
use xf_session::Session;

/// Two dimensions, two groups and two wholes.
static BOARD: &[u8] = br#"{"version":1,"title":"Parts","columns":[{"name":"n","kind":"int"}],
"dimensions":[{"name":"first","from":["column","n"]},{"name":"second","from":["column","n"]}],
"groups":[{"name":"g","of":"second","round":["floor",10],"reduce":["sumcount","n"],"order":2},{"name":"h","of":"first","reduce":["count"]}],
"wholes":[{"name":"all","reduce":["count"]},{"name":"sum","reduce":["sum","n"]}]}"#;

/// Its title, and the names of each sort in order of creation.
const NAMES: &str = "Parts first second g h all sum";

fn put_name(out: &mut Vec<u8>, name: Option<&str>) -> Result<(), OutOfMemory> {
    out.push(b' ')?;
    out.extend_from_slice(name.unwrap_or("?").as_bytes())?;
    Ok(())
}

/// The names of a session.
fn names_of(alloc: Global, session: &Session) -> Result<Vec<u8>, OutOfMemory> {
    let mut out = Vec::from_slice(alloc, session.board().title().as_bytes())?;
    for place in 0..2 {
        put_name(&mut out, session.dimension_at(place).map(|(name, _)| name))?;
    }
    for place in 0..2 {
        put_name(&mut out, session.group_at(place).map(|(name, _)| name))?;
    }
    for place in 0..2 {
        put_name(&mut out, session.whole_at(place).map(|(name, _)| name))?;
    }
    Ok(out)
}

/// The names of the session of a board; none where the board is not within the limits.
fn names_on(alloc: Global, board: Board) -> Result<Vec<u8>, OutOfMemory> {
    let limits = Limits::standard();
    if !board.within(&limits) {
        return Ok(Vec::new(alloc));
    }
    let session = Session::new(alloc, board, limits)?;
    names_of(alloc, &session)
}

/// The names of the session of `BOARD`; none where it is refused.
fn names(alloc: Global) -> Result<Vec<u8>, OutOfMemory> {
    match read_board(alloc, BOARD) {
        Ok(board) => names_on(alloc, board),
        Err(BoardRefusal::OutOfMemory) => Err(OutOfMemory),
        Err(_) => Ok(Vec::new(alloc)),
    }
}

#[test]
fn begins_on_a_board(rt: HostRuntime) -> Result<(), Fail> {
    let names = names(rt.alloc())?;
    assert_eq!(rt; str::from_utf8(names.as_slice())?, NAMES);
    Ok(())
}
