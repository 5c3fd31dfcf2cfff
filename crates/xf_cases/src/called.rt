//! The worked calls, run.
use crate::see::see;
use crate::worked::{
    hundredths, key_of_tenths, moved_by_end, no_leap_day, order_of_numbers, tenths, written_word,
};
use std::cmp::Ordering;
use std::test::Fail;
use xf_base::{DateRefusal, Key, NumberRefusal};

#[test]
fn worked_calls(rt: HostRuntime) -> Result<(), Fail> {
    see(
        &rt,
        "no leap day",
        no_leap_day() == Err(DateRefusal::NoSuchDay),
    );
    see(&rt, "tenths", tenths() == Ok(15));
    see(
        &rt,
        "hundredths",
        hundredths() == Err(NumberRefusal::TooManyDecimals),
    );
    see(
        &rt,
        "the order of numbers",
        order_of_numbers() == Ordering::Less,
    );
    let word = written_word(rt.alloc())?;
    see(&rt, "a word", word.as_slice() == b"\"a \\\"b\"".as_slice());
    see(&rt, "a key", key_of_tenths(rt.alloc())? == Key::Num(15));
    see(&rt, "the end of a range", moved_by_end(rt.alloc())? == 1);
    Ok(())
}
