//! A group over the reducer of one's own.
ghost use Rattle.std.specs.Prelude.{◌≡◌, ◌<◌, IfOk, OnOk, length};
ghost use Rattle.std.specs.List.{AllByRecursion};
ghost use Rattle.std.specs.List.Sorted.{IsStrictlySortedBy};
ghost use Rattle.xf_base.specs.Key.{key_cmp};
ghost use Rattle.xf_base.specs.Schema.{IsRowOf};
ghost use Rattle.xf_group_cases.specs.Turned.{MayTurn};

use crate::folds::{a_schema, rows_of};
use crate::own::Evens;
use crate::see::see;
use std::alloc::Global;
use std::marker::Brand;
use std::process::Abort;
use std::sync::ledger::{Blank, Ledger};
use std::test::Fail;
use xf_base::{Gone, Key, KeyList, OutOfMemory, Row, RowList, Schema, Steps, Text};
use xf_group::{Group, GroupOrder};
use xf_reduce::Reducer;

/// One key in a list.
fn key_of(alloc: Global, text: &str) -> Result<KeyList, OutOfMemory>
    ensures { IfOk result (IsStrictlySortedBy key_cmp) }
{
    let mut keys = KeyList::new(alloc);
    keys.push(Key::Text(Text::of(alloc, text)?))?;
    Ok(keys)
}

/// For each text the list of that key.
fn keys_of(alloc: Global, texts: &[&str]) -> Result<Vec<KeyList>, OutOfMemory>
    ensures ascend { IfOk result (λ keys. AllByRecursion (IsStrictlySortedBy key_cmp) keys.items) }
{
    let mut keys = Vec::new(alloc);
    for text in texts {
        keys.push(key_of(alloc, text)?)?;
    }
    Ok(keys)
}

/// Sees that rows are of the schema.
fn see_rows(rt: &impl Abort, schema: &Schema, rows: &[Row])
    ensures { AllByRecursion (IsRowOf schema.now) rows.now }
{
    for row in rows {
        assert!(rt; schema.misfit(row).is_none());
    }
}

/// A group with a place for each row; no row is added.
fn admitted<L: Ledger>(
    rt: &impl Abort,
    alloc: Global,
    schema: &Schema,
    rows: &RowList,
    keys: &[KeyList],
    steps: &mut Steps<L>,
) -> Result<Group<Evens>, OutOfMemory>
    requires ascend { AllByRecursion (IsStrictlySortedBy key_cmp) keys.now }
    ensures places { IfOk result (λ group. group.places ≡ keys.now) }
    ensures each { OnOk result (length keys.now ≡ length rows.now) }
{
    assert!(rt; Evens.fits(schema) && keys.len() == rows.len());
    see_rows(rt, schema, rows.as_slice());
    let mut group = Group::new(alloc, Evens);
    group.admit(rows, keys, steps)?;
    Ok(group)
}

/// Sees that each key has few even rows, and one at least where a row is to be taken back.
fn see_few<L: Ledger>(rt: &impl Abort, group: &Group<Evens>, on: bool, steps: &mut Steps<L>)
    ensures { AllByRecursion (λ entry. MayTurn on entry.value) group.now.entries }
{
    for position in 0..group.size() {
        let count = *group.at(position, steps).value;
        assert!(rt; count < 1000 && (on || count >= 1));
    }
}

/// Makes the count of each key of a place ready for a row.
fn ready(
    rt: &impl Abort,
    schema: &Schema,
    group: &mut Group<Evens>,
    place: usize,
    row: &Row,
) -> Result<(), OutOfMemory>
    requires place { place < length group.old.places }
    ensures places { group.new.places ≡ group.old.places }
{
    assert!(rt; Evens.fits(schema));
    assert!(rt; schema.misfit(row).is_none());
    group.make_ready(place, row)
}

/// Adds the row of a place, or takes it back. A row with an even number shows of each count that it is one of rows.
fn turn<L: Ledger>(
    rt: &impl Abort,
    schema: &Schema,
    group: &mut Group<Evens>,
    even: &Row,
    place: usize,
    row: &Row,
    on: bool,
    steps: &mut Steps<L>,
)
    requires place { place < length group.old.places }
    ensures places { group.new.places ≡ group.old.places }
{
    assert!(rt; Evens.fits(schema));
    assert!(rt; schema.misfit(even).is_none());
    assert!(rt; Evens::count_of(even) == 1);
    assert!(rt; schema.misfit(row).is_none());
    see_few(rt, group, on, steps);
    group.change(place, row, on, steps);
}

/// Sees the count of a key, at a position of a group and by the key itself.
fn see_entry<L: Ledger>(
    rt: &impl Abort,
    group: &Group<Evens>,
    position: usize,
    key: &Key,
    count: u64,
    steps: &mut Steps<L>,
) {
    assert!(rt; position < group.size());
    let entry = group.at(position, steps);
    see(rt, "a key", *entry.key == *key);
    let rank = group.reducer().rank(entry.value, 0);
    see(rt, "a count", rank == i128::from(count));
    see(rt, "a value", group.value(key, steps) == Some(&count));
}

/// Sees the first places of a group by its counts.
fn see_order<L: Ledger>(
    rt: &impl Abort,
    group: &Group<Evens>,
    order: &[usize],
    steps: &mut Steps<L>,
) -> Result<(), Fail> {
    let top = group.top(order.len(), GroupOrder::Natural.field(), steps)?;
    see(rt, "an order", top.as_slice() == order);
    Ok(())
}

/// Compares the keys, the counts and the order of a group with those that a table has.
fn see_group<L: Ledger>(
    rt: &impl Abort,
    alloc: Global,
    group: &Group<Evens>,
    told: &[(&str, u64)],
    order: &[usize],
    steps: &mut Steps<L>,
) -> Result<(), Fail> {
    see(rt, "as many keys", group.size() == told.len());
    for (position, (text, count)) in told.iter().enumerate() {
        let key = Key::Text(Text::of(alloc, text)?);
        see_entry(rt, group, position, &key, *count, steps);
    }
    see_order(rt, group, order, steps)
}

/// A place, whether its row is added or taken back, and then the even rows of each key and the order.
struct Seen {
    place: usize,
    on: bool,
    counts: &'static [(&'static str, u64)],
    order: &'static [usize],
}

static TURNS: [Seen; 5] = [
    Seen {
        place: 0,
        on: true,
        counts: &[("AA", 0), ("UA", 0)],
        order: &[0, 1],
    },
    Seen {
        place: 1,
        on: true,
        counts: &[("AA", 0), ("UA", 1)],
        order: &[1, 0],
    },
    Seen {
        place: 2,
        on: true,
        counts: &[("AA", 1), ("UA", 1)],
        order: &[0, 1],
    },
    Seen {
        place: 2,
        on: false,
        counts: &[("AA", 0), ("UA", 1)],
        order: &[1, 0],
    },
    Seen {
        place: 2,
        on: true,
        counts: &[("AA", 1), ("UA", 1)],
        order: &[0, 1],
    },
];

/// A turn of the row of a place, and what the group is then.
fn see_turn<L: Ledger>(
    rt: &impl Abort,
    alloc: Global,
    schema: &Schema,
    rows: &RowList,
    group: &mut Group<Evens>,
    seen: &Seen,
    steps: &mut Steps<L>,
) -> Result<(), Fail>
    requires each { length group.old.places ≡ length rows.now }
    ensures each { OnOk result (group.new.places ≡ group.old.places) }
{
    let row = rows.at(seen.place).expect(rt, "no row");
    ready(rt, schema, group, seen.place, row)?;
    let even = rows.at(1).expect(rt, "no row");
    turn(rt, schema, group, even, seen.place, row, seen.on, steps);
    see_group(rt, alloc, group, seen.counts, seen.order, steps)
}

/// Rows of two carriers that come and go.
fn see_each<L: Ledger>(
    rt: &impl Abort,
    alloc: Global,
    schema: &Schema,
    rows: &RowList,
    group: &mut Group<Evens>,
    steps: &mut Steps<L>,
) -> Result<(), Fail>
    requires each { length group.old.places ≡ length rows.now }
    ensures each { OnOk result (group.new.places ≡ group.old.places) }
{
    for seen in &TURNS {
        see_turn(rt, alloc, schema, rows, group, seen, steps)?;
    }
    Ok(())
}

/// An emptied group has neither's rows.
fn see_emptied<L: Ledger>(
    rt: &impl Abort,
    alloc: Global,
    group: &Group<Evens>,
    steps: &mut Steps<L>,
) -> Result<(), Fail> {
    let emptied = group.emptied()?;
    see_group(rt, alloc, &emptied, &[("AA", 0), ("UA", 0)], &[0, 1], steps)
}

/// In the end one carrier has no place any more.
fn see_retired<L: Ledger>(
    rt: &impl Abort,
    alloc: Global,
    group: &Group<Evens>,
    steps: &mut Steps<L>,
) -> Result<(), Fail> {
    let unused = Key::Text(Text::of(alloc, "UA")?);
    see(rt, "unused", group.value(&unused, steps).is_none());
    see_group(rt, alloc, group, &[("AA", 1)], &[0], steps)
}

/// The second of three rows is gone.
fn retire(rt: &impl Abort, alloc: Global, group: &mut Group<Evens>) -> Result<(), OutOfMemory>
    requires three { length group.old.places ≡ 3 }
{
    let gone = Gone::of(alloc, vec![in alloc; false, true, false]?)?;
    assert!(rt; gone.len() == 3);
    group.retire(&gone);
    Ok(())
}

static NUMBERS: [(i64, i64); 3] = [(7, 0), (2, 0), (4, 0)];

/// A group of two carriers with a place for each of three rows.
fn carriers<L: Ledger>(
    rt: &impl Abort,
    alloc: Global,
    schema: &Schema,
    rows: &RowList,
    steps: &mut Steps<L>,
) -> Result<Group<Evens>, OutOfMemory>
    ensures each { IfOk result (λ group. length group.places ≡ length rows.now) }
{
    let keys = keys_of(alloc, &["AA", "UA", "AA"])?;
    admitted(rt, alloc, schema, rows, keys.as_slice(), steps)
}

fn see_turns<L: Ledger>(rt: &impl Abort, alloc: Global, blank: Blank) -> Result<(), Fail>
    requires name { blank.name ≡ L.name }
    requires parts { blank.parts ≡ L.parts }
    requires some { 0 < blank.parts }
{
    let mut steps = Steps::<L>::new(blank);
    let schema = a_schema(alloc)?;
    let rows = rows_of(alloc, &NUMBERS)?;
    see_carriers(rt, alloc, &schema, &rows, &mut steps)
}

fn see_carriers<L: Ledger>(
    rt: &impl Abort,
    alloc: Global,
    schema: &Schema,
    rows: &RowList,
    steps: &mut Steps<L>,
) -> Result<(), Fail> {
    assert!(rt; rows.len() == 3);
    let mut group = carriers(rt, alloc, schema, rows, steps)?;
    see_each(rt, alloc, schema, rows, &mut group, steps)?;
    see_emptied(rt, alloc, &group, steps)?;
    retire(rt, alloc, &mut group)?;
    see_retired(rt, alloc, &group, steps)
}

#[test]
fn own_group(rt: HostRuntime) -> Result<(), Fail> {
    see_turns::<Brand>(&rt, rt.alloc(), Blank::new(1))
}
