//! Words that are filters, and the first word at which no filter goes on so.
use crate::filter::words_of;
use crate::see::see;
use std::alloc::Global;
use std::process::Abort;
use std::test::Fail;
use xf_base::{OutOfMemory, Text};
use xf_filter::{FilterSyntax, print_filter, print_item, read_filter, read_item};

/// Whether an item is wanted, words and the number of the first, from 1, and what is told of them.
static LINES: [(bool, &str, usize, Result<(), FilterSyntax>); 59] = [
    (false, "al", 1, Err(FilterSyntax::Word { number: 1 })),
    (false, "ALL", 1, Err(FilterSyntax::Word { number: 1 })),
    (false, "all x", 1, Err(FilterSyntax::Word { number: 2 })),
    (false, "exact", 1, Err(FilterSyntax::Word { number: 2 })),
    (false, "exact 1 2", 1, Err(FilterSyntax::Word { number: 3 })),
    (false, "range", 1, Err(FilterSyntax::Word { number: 2 })),
    (false, "range 0", 1, Err(FilterSyntax::Word { number: 3 })),
    (
        false,
        "range 0 7 9",
        1,
        Err(FilterSyntax::Word { number: 4 }),
    ),
    (false, "func", 1, Err(FilterSyntax::Word { number: 2 })),
    (false, "func x", 1, Err(FilterSyntax::Word { number: 2 })),
    (
        false,
        "func exact 1",
        1,
        Err(FilterSyntax::Word { number: 2 }),
    ),
    (
        false,
        "func oneof",
        1,
        Err(FilterSyntax::Word { number: 3 }),
    ),
    (
        false,
        "func oneof end",
        1,
        Err(FilterSyntax::Word { number: 3 }),
    ),
    (
        false,
        "func oneof x",
        1,
        Err(FilterSyntax::Word { number: 3 }),
    ),
    (
        false,
        "func oneof exact",
        1,
        Err(FilterSyntax::Word { number: 4 }),
    ),
    (
        false,
        "func oneof exact 1",
        1,
        Err(FilterSyntax::Word { number: 5 }),
    ),
    (
        false,
        "func oneof exact 1 x",
        1,
        Err(FilterSyntax::Word { number: 5 }),
    ),
    (
        false,
        "func oneof exact 1 end x",
        1,
        Err(FilterSyntax::Word { number: 6 }),
    ),
    (
        false,
        "func oneof range 1",
        1,
        Err(FilterSyntax::Word { number: 5 }),
    ),
    (
        false,
        "func oneof range 1 2",
        1,
        Err(FilterSyntax::Word { number: 6 }),
    ),
    (
        false,
        "func oneof range 1 2 all",
        1,
        Err(FilterSyntax::Word { number: 6 }),
    ),
    (
        false,
        "func prefix",
        1,
        Err(FilterSyntax::Word { number: 3 }),
    ),
    (
        false,
        "func prefix a b",
        1,
        Err(FilterSyntax::Word { number: 4 }),
    ),
    (
        false,
        "func modulo",
        1,
        Err(FilterSyntax::Word { number: 3 }),
    ),
    (
        false,
        "func modulo 0 0",
        1,
        Err(FilterSyntax::Word { number: 3 }),
    ),
    (
        false,
        "func modulo x 0",
        1,
        Err(FilterSyntax::Word { number: 3 }),
    ),
    (
        false,
        "func modulo -7 0",
        1,
        Err(FilterSyntax::Word { number: 3 }),
    ),
    (
        false,
        "func modulo 1000000000000000 0",
        1,
        Err(FilterSyntax::Word { number: 3 }),
    ),
    (
        false,
        "func modulo 7",
        1,
        Err(FilterSyntax::Word { number: 4 }),
    ),
    (
        false,
        "func modulo 7 7",
        1,
        Err(FilterSyntax::Word { number: 4 }),
    ),
    (
        false,
        "func modulo 7 x",
        1,
        Err(FilterSyntax::Word { number: 4 }),
    ),
    (
        false,
        "func modulo 7 6 x",
        1,
        Err(FilterSyntax::Word { number: 5 }),
    ),
    (false, "func not", 1, Err(FilterSyntax::Word { number: 3 })),
    (
        false,
        "func not x",
        1,
        Err(FilterSyntax::Word { number: 3 }),
    ),
    (
        false,
        "func not prefix a b",
        1,
        Err(FilterSyntax::Word { number: 5 }),
    ),
    (false, "func and", 1, Err(FilterSyntax::Word { number: 3 })),
    (
        false,
        "func and prefix a",
        1,
        Err(FilterSyntax::Word { number: 5 }),
    ),
    (
        false,
        "func and prefix a x",
        1,
        Err(FilterSyntax::Word { number: 5 }),
    ),
    (
        false,
        "func or prefix a prefix b x",
        1,
        Err(FilterSyntax::Word { number: 7 }),
    ),
    (
        false,
        "filter delay",
        3,
        Err(FilterSyntax::Word { number: 3 }),
    ),
    (
        false,
        "filter delay range 0",
        3,
        Err(FilterSyntax::Word { number: 5 }),
    ),
    (
        false,
        "filter delay range 0 7 9",
        3,
        Err(FilterSyntax::Word { number: 6 }),
    ),
    (true, "all", 1, Err(FilterSyntax::Word { number: 1 })),
    (true, "exact", 1, Err(FilterSyntax::Word { number: 2 })),
    (true, "exact 1 2", 1, Err(FilterSyntax::Word { number: 3 })),
    (true, "range", 1, Err(FilterSyntax::Word { number: 2 })),
    (true, "range 1", 1, Err(FilterSyntax::Word { number: 3 })),
    (
        true,
        "range 1 2 3",
        1,
        Err(FilterSyntax::Word { number: 4 }),
    ),
    (true, "toggle d", 3, Err(FilterSyntax::Word { number: 3 })),
    (
        true,
        "toggle d exact",
        3,
        Err(FilterSyntax::Word { number: 4 }),
    ),
    (
        false,
        "func not not not not not not not not not not not not not not not prefix a",
        1,
        Ok(()),
    ),
    (
        false,
        "func not not not not not not not not not not not not not not not not prefix a",
        1,
        Err(FilterSyntax::TooDeep { number: 18 }),
    ),
    (
        false,
        "func not not not not not not not not not not not not not not not not not x",
        1,
        Err(FilterSyntax::TooDeep { number: 18 }),
    ),
    (
        false,
        "func not not not not not not not not not not not not not not not not x",
        1,
        Err(FilterSyntax::Word { number: 18 }),
    ),
    (
        false,
        "func not not not not not not not not not not not not not not not not",
        1,
        Err(FilterSyntax::Word { number: 18 }),
    ),
    (
        false,
        "func and and and and and and and and and and and and and and and and modulo 2 0",
        1,
        Err(FilterSyntax::TooDeep { number: 18 }),
    ),
    (
        false,
        "func and prefix a and prefix a and prefix a and prefix a and prefix a and prefix a and prefix a and prefix a and prefix a and prefix a and prefix a and prefix a and prefix a and prefix a and prefix a prefix a",
        1,
        Ok(()),
    ),
    (
        false,
        "func and prefix a and prefix a and prefix a and prefix a and prefix a and prefix a and prefix a and prefix a and prefix a and prefix a and prefix a and prefix a and prefix a and prefix a and prefix a and prefix a prefix a",
        1,
        Err(FilterSyntax::TooDeep { number: 48 }),
    ),
    (
        false,
        "func or not prefix a or not prefix a or not prefix a or not prefix a or not prefix a or not prefix a or not prefix a or not prefix a or not prefix a or not prefix a or not prefix a or not prefix a or not prefix a or not prefix a or not prefix a prefix a",
        1,
        Err(FilterSyntax::TooDeep { number: 60 }),
    ),
];

/// What is told of words, as an item or as a filter.
fn told(
    rt: &impl Abort,
    alloc: Global,
    is_item: bool,
    words: &[Text],
    first: usize,
) -> Result<(), FilterSyntax> {
    assert!(rt; first >= 1 && first <= words.len() + 1);
    if is_item {
        read_item(alloc, words, first)?;
    } else {
        read_filter(alloc, words, first)?;
    }
    Ok(())
}

#[test]
fn each_line(rt: HostRuntime) -> Result<(), Fail> {
    for (is_item, line, first, want) in &LINES {
        let words = words_of(rt.alloc(), line)?;
        let found = told(&rt, rt.alloc(), *is_item, words.as_slice(), *first);
        see(&rt, line, found == *want);
    }
    Ok(())
}

/// Whether they are an item, whose first word is the second, the words, and how they are printed.
static PRINTED: [(bool, &[&str], &str); 11] = [
    (false, &["all"], "all"),
    (false, &["exact", ""], "exact \"\""),
    (false, &["exact", "end"], "exact end"),
    (false, &["range", "0", "07"], "range 0 07"),
    (
        false,
        &["func", "oneof", "exact", "A A", "range", "B", "D", "end"],
        "func oneof exact \"A A\" range B D end",
    ),
    (
        false,
        &["func", "oneof", "exact", "end", "end"],
        "func oneof exact end end",
    ),
    (false, &["func", "modulo", "007", "006"], "func modulo 7 6"),
    (
        false,
        &[
            "func", "not", "and", "prefix", "a", "or", "prefix", "", "modulo", "1", "0",
        ],
        "func not and prefix a or prefix \"\" modulo 1 0",
    ),
    (
        false,
        &["func", "modulo", "999999999999999", "0"],
        "func modulo 999999999999999 0",
    ),
    (true, &["toggle", "exact", "UA"], "exact UA"),
    (true, &["toggle", "range", "a b", "c"], "range \"a b\" c"),
];

/// How the item of the words behind the first is printed.
fn item_printed(rt: &impl Abort, alloc: Global, words: &[Text]) -> Result<Vec<u8>, Fail> {
    assert!(rt; words.len() >= 1);
    let item = read_item(alloc, words, 2)?;
    let mut out = Vec::new(alloc);
    print_item(&mut out, &item)?;
    Ok(out)
}

/// How the filter of words is printed.
fn filter_printed(alloc: Global, words: &[Text]) -> Result<Vec<u8>, Fail> {
    let filter = read_filter(alloc, words, 1)?;
    let mut out = Vec::new(alloc);
    print_filter(&mut out, &filter)?;
    Ok(out)
}

/// How the item or the filter of words is printed.
fn printed(rt: &impl Abort, alloc: Global, is_item: bool, words: &[&str]) -> Result<Vec<u8>, Fail> {
    let words = texts(alloc, words)?;
    if is_item {
        item_printed(rt, alloc, words.as_slice())
    } else {
        filter_printed(alloc, words.as_slice())
    }
}

#[test]
fn each_printed(rt: HostRuntime) -> Result<(), Fail> {
    for (is_item, words, text) in &PRINTED {
        let out = printed(&rt, rt.alloc(), *is_item, words)?;
        see(&rt, text, out.as_slice() == text.as_bytes());
    }
    Ok(())
}

fn texts(alloc: Global, words: &[&str]) -> Result<Vec<Text>, OutOfMemory> {
    let mut texts = Vec::with_capacity(alloc, words.len())?;
    for word in words {
        texts.push(Text::of(alloc, word)?)?;
    }
    Ok(texts)
}
