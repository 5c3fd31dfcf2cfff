//! What low limits refuse, and in which order beside other causes; and the fields of wholes.
use crate::case::{BOARD, Case, see};
use std::test::Fail;

/// As many dimensions, and groups with wholes, as there may be (without records there are no entries); then records and
/// entries; then boards, of which those that are refused give the words of their cause, without a number.
static CASES: [Case; 12] = [
    (
        "32 dimensions, after which a column that does not fit is told first",
        BOARD,
        b"remove passing
dimension 3 column a\ndimension 4 column a\ndimension 5 column a\ndimension 6 column a\ndimension 7 column a\ndimension 8 column a
dimension 9 column a\ndimension 10 column a\ndimension 11 column a\ndimension 12 column a\ndimension 13 column a\ndimension 14 column a
dimension 15 column a\ndimension 16 column a\ndimension 17 column a\ndimension 18 column a\ndimension 19 column a\ndimension 20 column a
dimension 21 column a\ndimension 22 column a\ndimension 23 column a\ndimension 24 column a\ndimension 25 column a\ndimension 26 column a
dimension 27 column a\ndimension 28 column a\ndimension 29 column a\ndimension 30 column a\ndimension 31 column a\ndimension 32 column a
dimension 33 column a\ndimension 33 column z\ndimension 3 column a\ndispose dimension 3\ndimension 33 column a",
        "step 1 ok removed 3
step 2 ok\nstep 3 ok\nstep 4 ok\nstep 5 ok\nstep 6 ok\nstep 7 ok\nstep 8 ok\nstep 9 ok\nstep 10 ok\nstep 11 ok
step 12 ok\nstep 13 ok\nstep 14 ok\nstep 15 ok\nstep 16 ok\nstep 17 ok\nstep 18 ok\nstep 19 ok\nstep 20 ok\nstep 21 ok
step 22 ok\nstep 23 ok\nstep 24 ok\nstep 25 ok\nstep 26 ok\nstep 27 ok\nstep 28 ok\nstep 29 ok\nstep 30 ok\nstep 31 ok
step 32 refused 25 too many dimensions 32
step 33 refused 11 no column z
step 34 refused 10 name taken 3
step 35 ok moved 0
step 36 ok
whole all 0
",
    ),
    (
        "32 groups beside the whole, after which a rounding that does not apply and a column that is not there are told first",
        BOARD,
        b"group 3 of a same count\ngroup 4 of a same count\ngroup 5 of a same count\ngroup 6 of a same count\ngroup 7 of a same count
group 8 of a same count\ngroup 9 of a same count\ngroup 10 of a same count\ngroup 11 of a same count\ngroup 12 of a same count
group 13 of a same count\ngroup 14 of a same count\ngroup 15 of a same count\ngroup 16 of a same count\ngroup 17 of a same count
group 18 of a same count\ngroup 19 of a same count\ngroup 20 of a same count\ngroup 21 of a same count\ngroup 22 of a same count
group 23 of a same count\ngroup 24 of a same count\ngroup 25 of a same count\ngroup 26 of a same count\ngroup 27 of a same count
group 28 of a same count\ngroup 29 of a same count\ngroup 30 of a same count\ngroup 31 of a same count\ngroup 32 of a same count
group 33 of a same count\ngroup 33 of a year count\ngroup 33 of z year count\nwhole w count\nwhole w sum z\ndispose group 3\ngroup 33 of b same count\ndispose whole all\nwhole w count",
        "step 1 ok\nstep 2 ok\nstep 3 ok\nstep 4 ok\nstep 5 ok\nstep 6 ok\nstep 7 ok\nstep 8 ok\nstep 9 ok\nstep 10 ok
step 11 ok\nstep 12 ok\nstep 13 ok\nstep 14 ok\nstep 15 ok\nstep 16 ok\nstep 17 ok\nstep 18 ok\nstep 19 ok\nstep 20 ok
step 21 ok\nstep 22 ok\nstep 23 ok\nstep 24 ok\nstep 25 ok\nstep 26 ok\nstep 27 ok\nstep 28 ok\nstep 29 ok\nstep 30 ok
step 31 refused 26 too many groups 33
step 32 refused 13 wrong rounding
step 33 refused 6 no dimension z
step 34 refused 26 too many groups 33
step 35 refused 11 no column z
step 36 ok
step 37 ok
step 38 ok
step 39 ok
whole w 3
",
    ),
    (
        "too many entries of a dimension, after its column",
        BOARD,
        b"dimension d column a\ndimension d column z",
        "step 1 refused 24 too many entries 6 3 8\nstep 2 refused 11 no column z\nwhole all 3\n",
    ),
    (
        "a file that is too long, before it is read",
        BOARD,
        b"load long.csv\nload gone.csv\nsize",
        "step 1 refused 16 too long long.csv 40\nstep 2 refused 15 absent gone.csv\nstep 3 ok\n  3\nwhole all 3\n",
    ),
    (
        "too many records before too many entries",
        BOARD,
        b"load three.csv\nload two.csv\nsize",
        "step 1 refused 22 too many records 3 3 5\nstep 2 refused 24 too many entries 6 4 8\nstep 3 ok\n  3\nwhole all 3\n",
    ),
    (
        "a record that fills the entries, and one more, whose cells are told before",
        BOARD,
        b"add 7 8\nadd 9 9\nadd 1 x\nsize\nevents",
        "step 1 ok added 1\nstep 2 refused 24 too many entries 8 2 8\nstep 3 refused 20 bad cell 1 b not a number\nstep 4 ok\n  4\nstep 5 ok\n  added 2 removed 0 filtered 0\nwhole all 4\n",
    ),
    (
        "as many records as there may be",
        b"a\n1\n2\n3\n4\n",
        b"add 5\nadd 6\nadd x\nload none.csv\nevents",
        "step 1 ok added 1\nstep 2 refused 22 too many records 5 1 5\nstep 3 refused 20 bad cell 1 a not a number\nstep 4 ok added 0\nstep 5 ok\n  added 3 removed 0 filtered 0\nwhole all 5\n",
    ),
    (
        "wholes see every filter, and stand in order of creation",
        BOARD,
        b"# blank\n\nwhole s sum b\nfilter b range 10 30\nwhole t both sumsquares b spread a\nfilter a exact 2",
        "step 1 ok\nstep 2 ok moved 1\nstep 3 ok\nstep 4 ok moved 1\nwhole all 1\nwhole s 20\nwhole t 400 20 1 1 2 2 2\n",
    ),
    (
        "an uneven record before too many",
        b"a\n1\n2\n3\n4\n5\n6,7\n",
        b"size",
        "uneven record 6",
    ),
    (
        "too many records",
        b"a\n1\n2\n3\n4\n5\n6\n",
        b"size",
        "too many records 0 6 5",
    ),
    (
        "too many entries",
        b"a,b,c\n1,2,3\n1,2,3\n1,2,3\n",
        b"size",
        "too many entries 0 9 8",
    ),
    (
        "a text counts no entry",
        b"a,b,c\n1,2,x\n1,2,3\n1,2,3\n",
        b"size",
        "step 1 ok\n  3\nwhole all 3\n",
    ),
];

#[test]
fn limits(rt: HostRuntime) -> Result<(), Fail> {
    see(&rt, rt.alloc(), &CASES)
}
