//! The crossfilter by the ids of its dimensions, groups and wholes: what each of them gives, what filters move, and what is
//! removed.
mod dimensions;
mod predicates;
mod removals;
mod values;

use crate::named::a_schema;
use crate::see::see;
use crate::told::{TEXT, Told, WHOLE, key_of};
use std::alloc::Global;
use std::process::Abort;
use std::sync::ledger::Ledger;
use std::test::Fail;
use xf_access::{Accessor, Rounding, StockAccessor, StockRounding};
use xf_base::{Cell, Limits, OutOfMemory, Row, RowList, Steps, Text, TextList};
use xf_engine::{Cross, DimensionId, GroupId, KeyNumber};
use xf_filter::{Predicate, StockPredicate};
use xf_group::GroupOrder;
use xf_reduce::{Reducer, Simple, StockReducer};

/// A crossfilter over the stock.
type StockCross = Cross<StockAccessor, StockRounding, StockPredicate, StockReducer>;

/// How many records there are.
const COUNT: StockReducer = StockReducer::One(Simple::Count);

/// Adds a group whose reducer fits.
pub(crate) fn add_group<A: Accessor, G: Rounding, P: Predicate, R: Reducer, L: Ledger>(
    rt: &impl Abort,
    cross: &mut Cross<A, G, P, R>,
    dimension: DimensionId,
    rounding: G,
    reducer: R,
    steps: &mut Steps<L>,
) -> Result<GroupId, Fail> {
    assert!(rt; reducer.fits(cross.schema()));
    Ok(cross.add_group(dimension, rounding, reducer, steps)?)
}

/// The entries of a group, each with the number of a field that its reducer has.
fn numbers_of<A: Accessor, G: Rounding, P: Predicate, R: Reducer, L: Ledger>(
    rt: &impl Abort,
    cross: &Cross<A, G, P, R>,
    id: GroupId,
    field: u8,
    steps: &mut Steps<L>,
) -> Result<Vec<KeyNumber>, Fail> {
    assert!(rt; field < cross.reducer(id)?.fields());
    Ok(cross.group_all(id, field, steps)?)
}

/// Ranks a group by a field that its reducer has.
pub(crate) fn order_by<A: Accessor, G: Rounding, P: Predicate, R: Reducer>(
    rt: &impl Abort,
    cross: &mut Cross<A, G, P, R>,
    id: GroupId,
    order: GroupOrder,
) -> Result<(), Fail> {
    assert!(rt; order.field() < cross.reducer(id)?.fields());
    Ok(cross.order_group(id, order)?)
}

/// The first entries of a group, each with the number of a field that its reducer has.
fn tops_of<A: Accessor, G: Rounding, P: Predicate, R: Reducer, L: Ledger>(
    rt: &impl Abort,
    cross: &Cross<A, G, P, R>,
    id: GroupId,
    count: usize,
    field: u8,
    steps: &mut Steps<L>,
) -> Result<Vec<KeyNumber>, Fail> {
    assert!(rt; field < cross.reducer(id)?.fields());
    Ok(cross.group_top(id, count, field, steps)?)
}

/// Whether an entry is the one that a table has.
fn is_entry(alloc: Global, entry: &KeyNumber, want: &(Told, i128)) -> Result<bool, OutOfMemory> {
    let key = key_of(alloc, &want.0)?;
    Ok(entry.key == key && entry.number == want.1)
}

/// Compares entries with those that a table has.
fn see_entries(
    rt: &impl Abort,
    alloc: Global,
    found: &[KeyNumber],
    want: &[(Told, i128)],
) -> Result<(), OutOfMemory> {
    see(rt, "as many entries", found.len() == want.len());
    for (entry, own) in found.iter().zip(want) {
        see(rt, "an entry", is_entry(alloc, entry, own)?);
    }
    Ok(())
}

/// Compares the entries of a group, each with the number of its first field, with those that a table has.
pub(crate) fn see_numbers<A: Accessor, G: Rounding, P: Predicate, R: Reducer, L: Ledger>(
    rt: &impl Abort,
    alloc: Global,
    cross: &Cross<A, G, P, R>,
    id: GroupId,
    want: &[(Told, i128)],
    steps: &mut Steps<L>,
) -> Result<(), Fail> {
    let found = numbers_of(rt, cross, id, 0, steps)?;
    Ok(see_entries(rt, alloc, found.as_slice(), want)?)
}

/// Compares the first entry of a group with those that a table has.
pub(crate) fn see_top<L: Ledger>(
    rt: &impl Abort,
    alloc: Global,
    cross: &StockCross,
    id: GroupId,
    want: &[(Told, i128)],
    steps: &mut Steps<L>,
) -> Result<(), Fail> {
    let found = tops_of(rt, cross, id, 1, 0, steps)?;
    Ok(see_entries(rt, alloc, found.as_slice(), want)?)
}

/// A record as a table has it: a text, a whole number, cents, a day and tags.
type ToldRecord = (&'static str, i64, i64, i64, &'static [&'static str]);

pub(crate) static RECORDS: [ToldRecord; 4] = [
    ("ab", -5, 100, 0, &["a", "b"]),
    ("b", 0, 200, -1, &[]),
    ("ac", 7, 100, 3, &["ab", "ac", "b"]),
    ("b", 7, 300, 31, &["c"]),
];

/// The carrier and the delay of flights.
static FLIGHTS: [ToldRecord; 4] = [
    ("AA", -5, 100, 0, &[]),
    ("UA", 0, 200, 0, &[]),
    ("AA", 7, 300, 0, &[]),
    ("DL", 7, 100, 0, &[]),
];

/// Numbers and tags.
static TAGGED: [ToldRecord; 3] = [
    ("", 1, 0, 0, &["a", "b"]),
    ("", 2, 0, 0, &[]),
    ("", 3, 0, 0, &["b", "c"]),
];

fn tags_of(alloc: Global, tags: &[&str]) -> Result<TextList, OutOfMemory> {
    let mut list = TextList::new(alloc);
    for tag in tags {
        list.push(Text::of(alloc, tag)?)?;
    }
    Ok(list)
}

/// The cell of a place of a record.
fn cell_at(alloc: Global, record: &ToldRecord, place: usize) -> Result<Cell, OutOfMemory> {
    Ok(match place {
        0 => Cell::Text(Text::of(alloc, record.0)?),
        1 => Cell::Num(record.1),
        2 => Cell::Num(record.2),
        3 => Cell::Num(record.3),
        _ => Cell::Tags(tags_of(alloc, record.4)?),
    })
}

fn row_of(alloc: Global, record: &ToldRecord) -> Result<Row, OutOfMemory> {
    let mut row = Row::new(alloc);
    for place in 0..5_usize {
        row.push(cell_at(alloc, record, place)?)?;
    }
    Ok(row)
}

pub(crate) fn rows_of(alloc: Global, records: &[ToldRecord]) -> Result<RowList, OutOfMemory> {
    let mut rows = RowList::new(alloc);
    for record in records {
        rows.push(row_of(alloc, record)?)?;
    }
    Ok(rows)
}

/// The delays and the carriers of flights.
static DIMENSIONS: [StockAccessor; 2] = [
    StockAccessor::Column(1, WHOLE),
    StockAccessor::Column(0, TEXT),
];

/// A crossfilter over the stock but for its predicates.
type CrossBy<P> = Cross<StockAccessor, StockRounding, P, StockReducer>;

/// One of the columns of the records, without any.
fn empty_cross<P: Predicate>(alloc: Global) -> Result<CrossBy<P>, OutOfMemory> {
    Ok(Cross::new(alloc, a_schema(alloc)?, Limits::standard()))
}

/// Adds a dimension with a group that counts.
fn add_counted<P: Predicate, L: Ledger>(
    rt: &impl Abort,
    cross: &mut CrossBy<P>,
    accessor: StockAccessor,
    rounding: StockRounding,
    steps: &mut Steps<L>,
) -> Result<(DimensionId, GroupId), Fail> {
    assert!(rt; accessor.fits(cross.schema()));
    let dimension = cross.add_dimension(accessor, steps)?;
    let group = add_group(rt, cross, dimension, rounding, COUNT, steps)?;
    Ok((dimension, group))
}

pub(crate) fn add_rows<A: Accessor, G: Rounding, P: Predicate, R: Reducer, L: Ledger>(
    alloc: Global,
    cross: &mut Cross<A, G, P, R>,
    records: &[ToldRecord],
    steps: &mut Steps<L>,
) -> Result<(), Fail> {
    let rows = rows_of(alloc, records)?;
    Ok(cross.add_records(rows, steps)?)
}

/// Flights with these two dimensions, each with a group.
fn flights<L: Ledger>(
    rt: &impl Abort,
    alloc: Global,
    steps: &mut Steps<L>,
) -> Result<StockCross, Fail> {
    let mut cross = empty_cross(alloc)?;
    for accessor in &DIMENSIONS {
        add_counted(rt, &mut cross, *accessor, StockRounding::Same, steps)?;
    }
    add_rows(alloc, &mut cross, &FLIGHTS, steps)?;
    Ok(cross)
}
