//! Dates, by values of the calendar.
use xf_base::{DateRefusal, FIRST_DAY, LAST_DAY, month_of, month_start, read_date, year_start};

/// A text, and its day.
static READ: [(&str, Result<i64, DateRefusal>); 30] = [
    ("1970-01-01", Ok(0)),
    ("1970-01-02", Ok(1)),
    ("1969-12-31", Ok(-1)),
    (" 2001-01-14", Ok(11_336)),
    ("  2000-02-29  ", Ok(11_016)),
    ("0000-01-01", Ok(-719_528)),
    ("9999-12-31", Ok(2_932_896)),
    ("2001-02-29", Err(DateRefusal::NoSuchDay)),
    ("1900-02-29", Err(DateRefusal::NoSuchDay)),
    ("2001-04-31", Err(DateRefusal::NoSuchDay)),
    ("2001-13-01", Err(DateRefusal::NoSuchDay)),
    ("2001-00-01", Err(DateRefusal::NoSuchDay)),
    ("2001-01-00", Err(DateRefusal::NoSuchDay)),
    ("9999-99-99", Err(DateRefusal::NoSuchDay)),
    ("", Err(DateRefusal::Form)),
    ("   ", Err(DateRefusal::Form)),
    ("2001-1-4", Err(DateRefusal::Form)),
    ("2001-01-014", Err(DateRefusal::Form)),
    ("2001/01/14", Err(DateRefusal::Form)),
    ("20010114", Err(DateRefusal::Form)),
    ("10000-01-01", Err(DateRefusal::Form)),
    ("0000002001-01-14", Err(DateRefusal::Form)),
    ("+2001-01-14", Err(DateRefusal::Form)),
    ("-001-01-14", Err(DateRefusal::Form)),
    ("2001-+1-14", Err(DateRefusal::Form)),
    ("2001-01-14T", Err(DateRefusal::Form)),
    ("2001 01 14", Err(DateRefusal::Form)),
    ("\t2001-01-14", Err(DateRefusal::Form)),
    ("200\u{661}-01-14", Err(DateRefusal::Form)),
    ("200\u{661}-01-1", Err(DateRefusal::Form)),
];

/// A day, its month, and the first days of its month and of its year.
static DAYS: [(i64, Option<u8>, Option<i64>, Option<i64>); 6] = [
    (11_016, Some(2), Some(10_988), Some(10_957)),
    (-1, Some(12), Some(-31), Some(-365)),
    (FIRST_DAY, Some(1), Some(FIRST_DAY), Some(FIRST_DAY)),
    (
        LAST_DAY,
        Some(12),
        Some(LAST_DAY - 30),
        Some(LAST_DAY - 364),
    ),
    (FIRST_DAY - 1, None, None, None),
    (LAST_DAY + 1, None, None, None),
];

#[test]
fn reads_dates_and_knows_days(rt: HostRuntime) {
    for (text, want) in &READ {
        assert_eq!(rt; read_date(text.as_bytes()), *want, "at {text:?}");
    }
    for (day, month, month_first, year_first) in &DAYS {
        assert_eq!(rt; month_of(*day), *month, "at {day}");
        assert_eq!(rt; month_start(*day), *month_first, "at {day}");
        assert_eq!(rt; year_start(*day), *year_first, "at {day}");
    }
}
