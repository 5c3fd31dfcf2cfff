//! Texts of numbers, by values from outside.
use xf_base::{NumberRefusal, read_fixed};

/// A text, how many decimals are kept, and the number of units.
static READ: [(&str, u8, Result<i64, NumberRefusal>); 31] = [
    (" 7.0", 0, Ok(7)),
    ("+7", 0, Ok(7)),
    ("7.", 0, Ok(7)),
    (".0", 0, Ok(0)),
    ("", 0, Err(NumberRefusal::Empty)),
    ("  ", 0, Err(NumberRefusal::Empty)),
    (".", 0, Err(NumberRefusal::NotNumber)),
    ("-", 0, Err(NumberRefusal::NotNumber)),
    ("1.5", 0, Err(NumberRefusal::TooManyDecimals)),
    ("1.50", 1, Ok(15)),
    ("-.5", 1, Ok(-5)),
    ("1.25", 1, Err(NumberRefusal::TooManyDecimals)),
    ("0012.3  ", 3, Ok(12_300)),
    ("1000000000000000", 0, Ok(1_000_000_000_000_000)),
    ("1000000000000001", 0, Err(NumberRefusal::OutOfRange)),
    ("-1000000000000000", 0, Ok(-1_000_000_000_000_000)),
    ("1", 15, Ok(1_000_000_000_000_000)),
    ("1", 255, Err(NumberRefusal::OutOfRange)),
    ("0", 255, Ok(0)),
    ("1 2", 0, Err(NumberRefusal::NotNumber)),
    ("- 1", 0, Err(NumberRefusal::NotNumber)),
    ("--1", 0, Err(NumberRefusal::NotNumber)),
    ("1.0.0", 0, Err(NumberRefusal::NotNumber)),
    ("0.000", 0, Ok(0)),
    ("\t1", 0, Err(NumberRefusal::NotNumber)),
    ("1e3", 0, Err(NumberRefusal::NotNumber)),
    ("-7", 0, Ok(-7)),
    ("007", 0, Ok(7)),
    ("999999999999999", 0, Ok(999_999_999_999_999)),
    ("-999999999999999", 0, Ok(-999_999_999_999_999)),
    ("12a", 0, Err(NumberRefusal::NotNumber)),
];

#[test]
fn reads_numbers(rt: HostRuntime) {
    for (text, decimals, want) in &READ {
        assert_eq!(rt;
            read_fixed(text.as_bytes(), *decimals),
            *want,
            "at {text:?}"
        );
    }
}
