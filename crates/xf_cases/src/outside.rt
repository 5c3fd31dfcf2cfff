//! Each depot and sink once, with calls that fail and what is kept of their causes.
use std::alloc::{AllocError, Global};
use std::fmt::Display;
use std::io::ErrorKind;
use std::test::Fail;
use std::{fs, io};
use xf_base::Text;
use xf_outside::{Depot, FetchFault, FileDepot, MemoryDepot, MemorySink, PutFault, Sink, StdSink};

/// How many bytes a depot of any kind gives, or why it gives none.
fn fetched_len<D: Depot>(
    rt: &HostRuntime,
    depot: &mut D,
    name: &str,
    limit: u64,
) -> Result<usize, FetchFault> {
    let bytes = depot.fetch(rt.alloc(), name, limit)?;
    Ok(bytes.len())
}

/// What a call shows, the name and the limit, and how many bytes come, of a depot whose second call fails.
static FETCHES: [(&str, &str, u64, Result<usize, FetchFault>); 5] = [
    ("the first file of a name", "a.csv", 3, Ok(3)),
    ("a call told to fail", "a.csv", 3, Err(FetchFault::Failed)),
    ("one byte too long", "a.csv", 2, Err(FetchFault::TooLong)),
    ("no byte at no limit", "b.csv", 0, Ok(0)),
    ("no such name", "c.csv", 9, Err(FetchFault::Absent)),
];

static HELD: [(&str, &str); 3] = [("a.csv", "one"), ("b.csv", ""), ("a.csv", "second")];

fn files_of(alloc: Global, held: &[(&str, &str)]) -> Result<Vec<(Text, Vec<u8>)>, Fail> {
    let mut files = Vec::new(alloc);
    for (name, text) in held {
        files.push((Text::of(alloc, name)?, text.as_bytes().to_vec(alloc)?))?;
    }
    Ok(files)
}

#[test]
fn memory_depot_answers(rt: HostRuntime) -> Result<(), Fail> {
    let files = files_of(rt.alloc(), &HELD)?;
    let mut depot = MemoryDepot::new(files, vec![in rt.alloc(); 2]?);
    for (shows, name, limit, want) in &FETCHES {
        let found = fetched_len(&rt, &mut depot, name, *limit);
        assert!(rt; found == *want, "{shows}");
    }
    Ok(())
}

/// What a sink keeps whose second and third put fail, a text, and the answer.
static PUTS: [(&str, &str, Result<(), PutFault>); 4] = [
    ("all of a text", "ab", Ok(())),
    ("its first byte", "cd", Err(PutFault::Failed)),
    ("all there is", "ef", Err(PutFault::Failed)),
    ("all again", "gh", Ok(())),
];

#[test]
fn memory_sink_keeps(rt: HostRuntime) -> Result<(), Fail> {
    let cuts = vec![in rt.alloc(); (2, 1), (3, 9), (3, 0)]?;
    let mut sink = MemorySink::new(rt.alloc(), cuts);
    for (shows, text, want) in &PUTS {
        assert!(rt; sink.put(text.as_bytes()) == *want, "{shows}");
    }
    assert_eq!(rt; sink.bytes(), b"abcefgh".as_slice());
    Ok(())
}

/// The words for the last fetch that gave no bytes, or none where there was none.
fn told_cause<R>(rt: &HostRuntime, depot: &FileDepot<R>) -> Result<String, AllocError> {
    match depot.failure() {
        Some(failure) => {
            let name = failure.name.as_deref().unwrap_or("?");
            format!(in rt.alloc(); "{name}: {}", failure.cause)
        }
        None => Ok(String::new(rt.alloc())),
    }
}

const FETCHED: &str = "xf_cases_fetched.bin";

/// A name and a limit, how many bytes come, and what is told of a fetch that gave none; the file has seven bytes.
static FILES: [(&str, u64, Result<usize, FetchFault>, &str); 5] = [
    (FETCHED, 7, Ok(7), ""),
    (
        FETCHED,
        6,
        Err(FetchFault::TooLong),
        "xf_cases_fetched.bin: more than 6 bytes",
    ),
    (
        "absent.bin",
        7,
        Err(FetchFault::Absent),
        "absent.bin: no such file",
    ),
    ("", 7, Err(FetchFault::Absent), ": no such file"),
    (
        ".",
        7,
        Err(FetchFault::Failed),
        ".: Is a directory (os error 21)",
    ),
];

#[test]
fn file_depot_reads(rt: HostRuntime) -> Result<(), Fail> {
    fs::write(&rt, FETCHED, "fetched")?;
    let mut depot = FileDepot::new(&rt);
    for (name, limit, want, cause) in &FILES {
        let found = fetched_len(&rt, &mut depot, name, *limit);
        let told = told_cause(&rt, &depot)?;
        assert!(rt;
            found == *want && told.as_str() == *cause,
            "at {name} {limit}: {told}"
        );
    }
    fs::remove_file(&rt, FETCHED)?;
    Ok(())
}

/// A standard output that takes nothing, with an error or without one.
#[derive(Drop)]
struct Stuck {
    error: Option<io::Error>,
}

impl Print for Stuck {
    fn print<D: Display + Drop>(&self, _value: D) -> io::Result<()> {
        Ok(())
    }

    fn println<D: Display + Drop>(&self, _value: D) -> io::Result<()> {
        Ok(())
    }

    fn write_all(&self, _bytes: &[u8]) -> io::Result<()> {
        Ok(())
    }

    fn write_some(&self, _bytes: &[u8]) -> io::Result<usize> {
        self.error.map_or(Ok(0), Err)
    }
}

#[test]
fn std_sink_writes_or_keeps_the_cause(rt: HostRuntime) -> Result<(), Fail> {
    let mut sink = StdSink::new(&rt);
    let is_put = sink.put(b"put\n") == Ok(()) && sink.put(b"") == Ok(());
    assert!(rt; is_put && sink.failure().is_none());
    let broken = io::Error::from(ErrorKind::BrokenPipe);
    let table = [
        ("an error of the system", Some(broken), "broken pipe"),
        ("no byte taken", None, "write returned 0 bytes"),
    ];
    for (shows, error, want) in table {
        let output = Stuck { error };
        let mut sink = StdSink::new(&output);
        assert!(rt; sink.put(b"put") == Err(PutFault::Failed), "{shows}");
        let failure = sink.failure().ok_or("no failure is kept")?;
        let told = format!(in rt.alloc(); "{failure}")?;
        assert!(rt; told.as_str() == want, "{shows}: {told}");
    }
    Ok(())
}
