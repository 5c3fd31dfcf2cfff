//! The plain functions of xf_model, by worked examples with the numbers counted by hand.
use std::alloc::{AllocError, Global};
use std::process::Abort;
use std::test::Fail;
use xf_model::{
    PlainDimension, PlainEntry, PlainRange, distinct_keys, group_entries, laws, moved, passes_each,
    plain_bottom, plain_top, selected, whole_count,
};

/// Rows, a range on the first column in the place of an older one, and what must be seen then.
struct Example {
    name: &'static str,
    rows: &'static [&'static [i64]],
    old: Option<PlainRange>,
    range: PlainRange,
    /// How many rows the range moves.
    moved: u64,
    /// How many rows pass.
    passing: u64,
    /// The entries of the group of each column.
    entries: [&'static [(i64, u64)]; 2],
}

static EXAMPLES: [Example; 6] = [
    Example {
        name: "counts but for the own filter",
        rows: &[&[1, 10], &[2, 20], &[2, 30]],
        old: None,
        range: PlainRange { low: 2, high: 3 },
        moved: 1,
        passing: 2,
        entries: [&[(1, 1), (2, 2)], &[(10, 0), (20, 1), (30, 1)]],
    },
    Example {
        name: "delays and distances",
        rows: FLIGHTS,
        old: None,
        range: SHORT,
        moved: 3,
        passing: 1,
        entries: [DELAYS, &[(100, 0), (200, 1), (300, 0)]],
    },
    Example {
        name: "a range that is widened",
        rows: FLIGHTS,
        old: Some(SHORT),
        range: WIDE,
        moved: 2,
        passing: 3,
        entries: [DELAYS, &[(100, 1), (200, 1), (300, 1)]],
    },
    Example {
        name: "a range that is emptied",
        rows: FLIGHTS,
        old: Some(WIDE),
        range: EMPTY,
        moved: 3,
        passing: 0,
        entries: [DELAYS, &[(100, 0), (200, 0), (300, 0)]],
    },
    Example {
        name: "a range whose ends are reversed",
        rows: FLIGHTS,
        old: Some(EMPTY),
        range: PlainRange { low: 8, high: 0 },
        moved: 0,
        passing: 0,
        entries: [DELAYS, &[(100, 0), (200, 0), (300, 0)]],
    },
    Example {
        name: "a row without a key, which only no range lets pass",
        rows: &[&[]],
        old: None,
        range: PlainRange { low: 0, high: 9 },
        moved: 1,
        passing: 0,
        entries: [&[], &[]],
    },
];

/// A delay and a distance each.
const FLIGHTS: &[&[i64]] = &[&[-5, 100], &[0, 200], &[7, 100], &[7, 300]];

const DELAYS: &[(i64, u64)] = &[(-5, 1), (0, 1), (7, 2)];

const SHORT: PlainRange = PlainRange { low: 0, high: 7 };

const WIDE: PlainRange = PlainRange { low: 0, high: 8 };

const EMPTY: PlainRange = PlainRange { low: 7, high: 7 };

fn rows_of(alloc: Global, cells: &[&[i64]]) -> Result<Vec<Vec<i64>>, AllocError> {
    let mut rows = Vec::new(alloc);
    for row in cells {
        rows.push(row.to_vec(alloc)?)?;
    }
    Ok(rows)
}

/// Says whether these are the entries, each a key and a number.
fn are_of(entries: &[PlainEntry], want: &[(i64, u64)]) -> bool {
    if entries.len() != want.len() {
        return false;
    }
    entries
        .iter()
        .zip(want)
        .all(|pair| pair.0.key == pair.1.0 && pair.0.number == pair.1.1)
}

/// How many rows pass each dimension.
fn passing_rows(dimensions: &[PlainDimension], rows: &[Vec<i64>]) -> u64 {
    let mut count: u64 = 0;
    for row in rows {
        if passes_each(dimensions, row.as_slice()) {
            count = count.saturating_add(1);
        }
    }
    count
}

/// Compares what the plain functions give of an example's rows with what must be seen.
fn see(
    rt: &impl Abort,
    alloc: Global,
    example: &Example,
    rows: &[Vec<i64>],
) -> Result<(), AllocError> {
    let name = example.name;
    let range = Some(example.range);
    let second = PlainDimension {
        column: 1,
        range: None,
    };
    let both = [PlainDimension { column: 0, range }, second];
    let is_moved = moved(0, example.old, range, rows) == example.moved;
    let is_same = moved(0, range, range, rows) == 0;
    assert!(rt; is_moved && is_same, "{name}");
    let is_counted = whole_count(&both, rows) == example.passing;
    assert!(rt;
        is_counted && passing_rows(&both, rows) == example.passing,
        "{name}"
    );
    let passing = selected(alloc, &both, None, rows)?.len() as u64;
    let but_first = selected(alloc, &both, Some(0), rows)?.len();
    assert!(rt;
        passing == example.passing && but_first == rows.len(),
        "{name}"
    );
    for (column, want) in example.entries.iter().enumerate() {
        let entries = group_entries(alloc, &both, column, rows)?;
        assert!(rt; are_of(entries.as_slice(), want), "group {column}, {name}");
    }
    Ok(())
}

#[test]
fn worked_examples(rt: HostRuntime) -> Result<(), Fail> {
    for example in &EXAMPLES {
        let rows = rows_of(rt.alloc(), example.rows)?;
        see(&rt, rt.alloc(), example, rows.as_slice())?;
    }
    Ok(())
}

/// Values with the places of their rows.
static VALUES: [&[i64]; 5] = [&[5, 0], &[1, 1], &[9, 2], &[1, 3], &[5, 4]];

/// A range of places, how many rows are asked for after how many, those from the least value on, and from the greatest.
static LISTS: [(Option<PlainRange>, usize, usize, &[usize], &[usize]); 4] = [
    (None, 2, 0, &[1, 3], &[2, 4]),
    (None, 3, 0, &[1, 3, 0], &[2, 4, 0]),
    (None, 2, 1, &[3, 0], &[4, 0]),
    (
        Some(PlainRange { low: 0, high: 4 }),
        3,
        0,
        &[1, 3, 0],
        &[2, 0, 3],
    ),
];

#[test]
fn lists_the_least_and_the_greatest(rt: HostRuntime) -> Result<(), Fail> {
    let rows = rows_of(rt.alloc(), &VALUES)?;
    let rows = rows.as_slice();
    let value = PlainDimension {
        column: 0,
        range: None,
    };
    for (range, count, offset, least, greatest) in &LISTS {
        let range = *range;
        let both = [value, PlainDimension { column: 1, range }];
        let found = plain_bottom(rt.alloc(), &both, value, *count, *offset, rows)?;
        assert_eq!(rt; found.as_slice(), *least);
        let found = plain_top(rt.alloc(), &both, value, *count, *offset, rows)?;
        assert_eq!(rt; found.as_slice(), *greatest);
    }
    Ok(())
}

#[test]
fn gives_distinct_keys(rt: HostRuntime) -> Result<(), Fail> {
    let keys = distinct_keys(rt.alloc(), &[3, 1, 3, -2])?;
    assert!(rt; keys.as_slice() == [-2, 1, 3].as_slice());
    laws::ascending_keys::<u8, u8>();
    laws::selected_rows::<u8, u8>();
    laws::group_values::<u8, u8, u8>();
    laws::least_keys::<u8, u8>();
    laws::moved_keys::<u8, u8>();
    laws::replayed_lines::<u8, u8, u8, u8>();
    Ok(())
}
