//! Places that are removed, and what lists keep.
use std::alloc::Global;
use std::process::Abort;
use std::test::Fail;
use xf_base::{Gone, ListOf, OutOfMemory, kept_items};

pub(crate) fn gone_of(alloc: Global, marks: &[bool]) -> Result<Gone, OutOfMemory> {
    let mut copy = Vec::new(alloc);
    copy.extend_from_slice(marks)?;
    Gone::of(alloc, copy)
}

/// The marks of places, where each comes to stand, and which of the numbers of these places, from 0 on, are left.
static PLACES: [(&[bool], &[Option<usize>], &[usize]); 7] = [
    (&[], &[], &[]),
    (
        &[false, false, false],
        &[Some(0), Some(1), Some(2)],
        &[0, 1, 2],
    ),
    (&[true, true], &[None, None], &[]),
    (&[true, false, false], &[None, Some(0), Some(1)], &[1, 2]),
    (&[false, false, true], &[Some(0), Some(1), None], &[0, 1]),
    (
        &[false, true, true, false],
        &[Some(0), None, None, Some(1)],
        &[0, 3],
    ),
    (
        &[true, false, true, false],
        &[None, Some(0), None, Some(1)],
        &[1, 3],
    ),
];

fn see_places(rt: &impl Abort, gone: &Gone, places: &[Option<usize>]) {
    assert!(rt; gone.len() == places.len() && gone.is_empty() == places.is_empty());
    for (old, place) in places.iter().enumerate() {
        assert!(rt; old < gone.len());
        assert_eq!(rt; gone.new_place(old), *place, "at {old}");
        assert_eq!(rt; gone.is_gone(old), place.is_none(), "at {old}");
    }
}

/// The numbers from 0 on, as many as there are.
fn numbers_to(alloc: Global, count: usize) -> Result<ListOf<usize>, OutOfMemory> {
    let mut numbers = Vec::new(alloc);
    for number in 0..count {
        numbers.push(number)?;
    }
    Ok(ListOf::from_vec(numbers))
}

fn retain(rt: &impl Abort, numbers: &mut ListOf<usize>, gone: &Gone) {
    assert!(rt; gone.len() == numbers.len());
    numbers.retain(gone);
}

#[test]
fn places_close_up(rt: HostRuntime) -> Result<(), Fail> {
    kept_items::<u32>();
    for (marks, places, left) in &PLACES {
        let gone = gone_of(rt.alloc(), marks)?;
        see_places(&rt, &gone, places);
        let mut numbers = numbers_to(rt.alloc(), marks.len())?;
        retain(&rt, &mut numbers, &gone);
        assert_eq!(rt; numbers.as_slice(), *left);
    }
    Ok(())
}
