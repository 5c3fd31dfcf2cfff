//! Calls with values worked by hand: each makes one call or two, and its contract says what that gives. So the contracts of
//! the calls are seen to say enough to know it.
#![tactic(auto, unfolding(crate::specs::Opened::scan_numeral, crate::specs::Opened::digits, crate::specs::Opened::chars, crate::specs::Opened::is_utf8, crate::specs::Opened::value, crate::specs::Opened::lex, crate::specs::Opened::punctuate, crate::specs::Opened::content, crate::specs::Opened::after_number, crate::specs::Opened::word, crate::specs::Opened::number_of, crate::specs::Opened::encode))]

ghost use Rattle.std.specs.Prelude.{◌≡◌, ◌++◌, [], ◌∷◌, codes, OnOk, Ok, Err};
ghost use Rattle.xf_board.specs.Walk.{usual_colours};
ghost use Rattle.xf_board.specs.declared.parts.ChartBody.TheVariants.{Count};
ghost use Rattle.xf_members.specs.Reading.{Answers};
ghost use Rattle.xf_members.specs.declared.board_refusal.BoardRefusal.TheVariants.{Field, Name, Syntax, Unknown, Version};

use std::alloc::Global;
use xf_base::{OutOfMemory, Text};
use xf_board::{Board, BoardRefusal, print_board, put_board_refusal, read_board};

/// A text that is JSON, but no object.
pub fn no_object(alloc: Global) -> Result<Board, BoardRefusal>
    ensures { Answers result (Err Syntax) }
{
    read_board(alloc, b"1")
}

/// A version that is not 1, which is told before a member that boards do not have.
pub fn another_version(alloc: Global) -> Result<Board, BoardRefusal>
    ensures { Answers result (Err (Version 2)) }
{
    read_board(alloc, br#"{"version":2,"x":0}"#)
}

/// A member that boards do not have.
pub fn unknown_member(alloc: Global) -> Result<Board, BoardRefusal>
    ensures { Answers result (Err (Unknown (codes "/x"))) }
{
    read_board(alloc, br#"{"version":1,"x":0}"#)
}

/// A column without a name, behind one that is whole.
pub fn column_without_name(alloc: Global) -> Result<Board, BoardRefusal>
    ensures { Answers result (Err (Field (codes "/columns/1/name"))) }
{
    read_board(
        alloc,
        br#"{"version":1,"columns":[{"name":"n","kind":"int"},{}]}"#,
    )
}

/// A dimension of a name that another has.
pub fn taken_name(alloc: Global) -> Result<Board, BoardRefusal>
    ensures { Answers result (Err (Name (codes "/dimensions/1/name") (codes "d"))) }
{
    read_board(
        alloc,
        br#"{"version":1,"columns":[{"name":"n","kind":"int"}],"dimensions":[{"name":"d","from":["column","n"]},{"name":"d"}]}"#,
    )
}

/// A board of one chart, with the defaults of all that it leaves out.
pub fn one_chart(alloc: Global) -> Result<Board, BoardRefusal>
    ensures { Answers result (Ok (record { title = []; columns = []; dimensions = []; groups = []; wholes = []; charts = record { title = codes "All"; width = 300; height = 200; body = Count } ∷ []; colours = usual_colours })) }
{
    read_board(
        alloc,
        br#"{"version":1,"charts":[{"kind":"count","title":"All"}],"columns":[],"dimensions":[]}"#,
    )
}

/// Any board, printed and read again.
#[tactic(auto)]
pub fn again(alloc: Global, board: &Board) -> Result<Board, BoardRefusal>
    ensures { Answers result (Ok board.now) }
{
    let text = print_board(alloc, board)?;
    read_board(alloc, text.as_slice())
}

/// The words for a name with a blank that is not declared.
pub fn words_of_name(alloc: Global, out: &mut Vec<u8>) -> Result<(), OutOfMemory>
    ensures { OnOk result (out.new.items ≡ out.old.items ++ codes "name /groups/0/of \"a b\"") }
{
    let path = Text::of(alloc, "/groups/0/of")?;
    let name = Text::of(alloc, "a b")?;
    put_board_refusal(out, &BoardRefusal::Name { path, name })
}
