//! Writing a command as its line.
ghost use Rattle.std.specs.Prelude.{◌≡◌, ◌≤◌, ◌∷◌, ◌++◌, [], codes, decimal, length, IfOk, IsUtf8, Ok, OnOk, Some};
ghost use Rattle.xf_filter.specs.Words.{Appends, Writes, filter_words, item_words};
ghost use Rattle.xf_script.specs.Canonical.{accessor_words, command_line, command_words, field_word, offset_words, reducer_words, rounding_words, simple_words};
ghost use Rattle.xf_script.specs.Grammar.{form_of_line};

use crate::command::{Command, CommandForm};
use itoa::Buffer;
use std::alloc::Global;
use xf_base::{Limits, OutOfMemory, Text, put_word};
use xf_columns::{AccessorWords, ReducerWords, RoundingWords, SimpleWords};
use xf_filter::{RawFilter, RawItem, print_filter, print_item};

/// The one line that is written for a command: its words with one blank between each two, without a line end.
#[tactic(auto, unfolding(xf_filter::specs::Words::Writes))]
pub fn print_command(alloc: Global, command: &Command) -> Result<Vec<u8>, OutOfMemory>
    ensures ok { IfOk result (λ line. line.items ≡ command_line command.now) }
    ensures utf8 { IfOk result (λ line. IsUtf8 line.items) }
    // A line that is not too long is read as the command.
    ensures read { length (command_line command.now) ≤ Limits.LINE_BYTES → form_of_line (command_line command.now) ≡ Ok (Some command.now) }
{
    let mut line = Vec::new(alloc);
    append_command(&mut line, command.form())?;
    Ok(line)
}

/// Appends the words of a command.
fn append_command(out: &mut Vec<u8>, form: &CommandForm) -> Result<(), OutOfMemory>
    ensures { OnOk result (Writes out.old.items out.new.items (command_words form.now)) }
{
    match form {
        CommandForm::Load { file } => append_two(out, "load", file.as_str()),
        CommandForm::Add { words } => append_all(out, "add", words.as_slice()),
        CommandForm::Filter { dimension, filter } => append_filtering(out, dimension, filter),
        CommandForm::Toggle { dimension, item } => append_toggling(out, dimension, item),
        CommandForm::Clear { dimension } => append_two(out, "clear", dimension.as_str()),
        CommandForm::ClearAll => append_first(out, "clearall"),
        CommandForm::RemovePassing => append_two(out, "remove", "passing"),
        CommandForm::RemoveWhere { dimension, filter } => append_removal(out, dimension, filter),
        CommandForm::Dimension { name, accessor } => append_dimension(out, name, accessor),
        CommandForm::Group {
            name,
            dimension,
            rounding,
            reducer,
        } => append_group(out, name, dimension, rounding, reducer),
        CommandForm::Whole { name, reducer } => append_whole(out, name, reducer),
        CommandForm::Order { group, field } => append_order(out, group, *field),
        CommandForm::DisposeDimension { name } => append_disposal(out, "dimension", name),
        CommandForm::DisposeGroup { name } => append_disposal(out, "group", name),
        CommandForm::DisposeWhole { name } => append_disposal(out, "whole", name),
        CommandForm::Top {
            dimension,
            count,
            offset,
        } => append_end(out, "top", dimension, *count, *offset),
        CommandForm::Bottom {
            dimension,
            count,
            offset,
        } => append_end(out, "bottom", dimension, *count, *offset),
        CommandForm::Groups { group } => append_two(out, "groups", group.as_str()),
        CommandForm::GroupTop { group, count } => append_group_top(out, group, *count),
        CommandForm::Value { group, key } => append_value(out, group, key),
        CommandForm::Records { dimensions } => append_all(out, "records", dimensions.as_slice()),
        CommandForm::Size => append_first(out, "size"),
        CommandForm::Passing => append_first(out, "passing"),
        CommandForm::Events => append_first(out, "events"),
        CommandForm::Note { words } => append_all(out, "note", words.as_slice()),
    }
}

// ---- the commands with filters and items

/// Appends `filter D FILTER`.
#[tactic(auto, using(crate::proofs::Printed::written))]
fn append_filtering(
    out: &mut Vec<u8>,
    dimension: &Text,
    filter: &RawFilter,
) -> Result<(), OutOfMemory>
    ensures { OnOk result (Writes out.old.items out.new.items (codes "filter" ∷ dimension.now ∷ filter_words filter.now)) }
{
    append_two(out, "filter", dimension.as_str())?;
    append_filter(out, filter)
}

/// Appends `remove where D FILTER`.
#[tactic(auto, using(crate::proofs::Printed::written))]
fn append_removal(
    out: &mut Vec<u8>,
    dimension: &Text,
    filter: &RawFilter,
) -> Result<(), OutOfMemory>
    ensures { OnOk result (Writes out.old.items out.new.items (codes "remove" ∷ codes "where" ∷ dimension.now ∷ filter_words filter.now)) }
{
    append_three(out, "remove", "where", dimension.as_str())?;
    append_filter(out, filter)
}

/// Appends `toggle D ITEM`.
#[tactic(auto, using(crate::proofs::Printed::written))]
fn append_toggling(out: &mut Vec<u8>, dimension: &Text, item: &RawItem) -> Result<(), OutOfMemory>
    ensures { OnOk result (Writes out.old.items out.new.items (codes "toggle" ∷ dimension.now ∷ item_words item.now)) }
{
    append_two(out, "toggle", dimension.as_str())?;
    append_item(out, item)
}

/// Appends the words of a filter, each behind a blank.
#[tactic(auto, using(crate::proofs::Printed::behind_blank))]
fn append_filter(out: &mut Vec<u8>, filter: &RawFilter) -> Result<(), OutOfMemory>
    ensures { OnOk result (Appends out.old.items out.new.items (filter_words filter.now)) }
{
    out.push(b' ')?;
    print_filter(out, filter)?;
    Ok(())
}

/// Appends the words of an item, each behind a blank.
#[tactic(auto, using(crate::proofs::Printed::behind_blank))]
fn append_item(out: &mut Vec<u8>, item: &RawItem) -> Result<(), OutOfMemory>
    ensures { OnOk result (Appends out.old.items out.new.items (item_words item.now)) }
{
    out.push(b' ')?;
    print_item(out, item)?;
    Ok(())
}

// ---- the commands that make dimensions, groups and wholes

/// Appends `dimension D ACCESSOR`.
#[tactic(auto, using(crate::proofs::Printed::written))]
fn append_dimension(
    out: &mut Vec<u8>,
    name: &Text,
    accessor: &AccessorWords,
) -> Result<(), OutOfMemory>
    ensures { OnOk result (Writes out.old.items out.new.items (codes "dimension" ∷ name.now ∷ accessor_words accessor.now)) }
{
    append_two(out, "dimension", name.as_str())?;
    append_accessor(out, accessor)
}

/// Appends `group G of D ROUNDING REDUCER`.
#[tactic(auto, using(crate::proofs::Printed::written))]
fn append_group(
    out: &mut Vec<u8>,
    name: &Text,
    dimension: &Text,
    rounding: &RoundingWords,
    reducer: &ReducerWords,
) -> Result<(), OutOfMemory>
    ensures { OnOk result (Writes out.old.items out.new.items (codes "group" ∷ name.now ∷ codes "of" ∷ dimension.now ∷ rounding_words rounding.now ++ reducer_words reducer.now)) }
{
    append_three(out, "group", name.as_str(), "of")?;
    append_word(out, dimension.as_str())?;
    append_rounding(out, rounding)?;
    append_reducer(out, reducer)
}

/// Appends `whole W REDUCER`.
#[tactic(auto, using(crate::proofs::Printed::written))]
fn append_whole(out: &mut Vec<u8>, name: &Text, reducer: &ReducerWords) -> Result<(), OutOfMemory>
    ensures { OnOk result (Writes out.old.items out.new.items (codes "whole" ∷ name.now ∷ reducer_words reducer.now)) }
{
    append_two(out, "whole", name.as_str())?;
    append_reducer(out, reducer)
}

/// Appends the words of an accessor, each behind a blank.
#[tactic(auto, using(crate::proofs::Printed::appended))]
fn append_accessor(out: &mut Vec<u8>, accessor: &AccessorWords) -> Result<(), OutOfMemory>
    ensures { OnOk result (Appends out.old.items out.new.items (accessor_words accessor.now)) }
{
    match accessor {
        AccessorWords::Column(column) => append_pair(out, "column", column.as_str()),
        AccessorWords::Pair(first, second) => {
            append_pair(out, "pair", first.as_str())?;
            append_word(out, second.as_str())
        }
        AccessorWords::Tags(column) => append_pair(out, "tags", column.as_str()),
        AccessorWords::Weekday(column) => append_pair(out, "weekday", column.as_str()),
        AccessorWords::Month(column) => append_pair(out, "month", column.as_str()),
    }
}

/// Appends the words of a rounding, each behind a blank.
#[tactic(auto, using(crate::proofs::Printed::appended))]
fn append_rounding(out: &mut Vec<u8>, rounding: &RoundingWords) -> Result<(), OutOfMemory>
    ensures { OnOk result (Appends out.old.items out.new.items (rounding_words rounding.now)) }
{
    match rounding {
        RoundingWords::Same => append_word(out, "same"),
        RoundingWords::Floor(width) => {
            append_word(out, "floor")?;
            append_count(out, *width)
        }
        RoundingWords::Month => append_word(out, "month"),
        RoundingWords::Year => append_word(out, "year"),
        RoundingWords::Letters(letters) => {
            append_word(out, "letters")?;
            append_count(out, u64::from(*letters))
        }
    }
}

/// Appends the words of a reducer, each behind a blank.
#[tactic(auto, using(crate::proofs::Printed::appended))]
fn append_reducer(out: &mut Vec<u8>, reducer: &ReducerWords) -> Result<(), OutOfMemory>
    ensures { OnOk result (Appends out.old.items out.new.items (reducer_words reducer.now)) }
{
    match reducer {
        ReducerWords::One(one) => append_simple(out, one),
        ReducerWords::Both(first, second) => {
            append_word(out, "both")?;
            append_simple(out, first)?;
            append_simple(out, second)
        }
    }
}

/// Appends the words of a part of a reducer, each behind a blank.
fn append_simple(out: &mut Vec<u8>, simple: &SimpleWords) -> Result<(), OutOfMemory>
    ensures { OnOk result (Appends out.old.items out.new.items (simple_words simple.now)) }
{
    match simple {
        SimpleWords::Count => append_word(out, "count"),
        SimpleWords::Sum(column) => append_pair(out, "sum", column.as_str()),
        SimpleWords::SumCount(column) => append_pair(out, "sumcount", column.as_str()),
        SimpleWords::SumSquares(column) => append_pair(out, "sumsquares", column.as_str()),
        SimpleWords::Spread(column) => append_pair(out, "spread", column.as_str()),
    }
}

// ---- the commands with names alone

/// Appends `dispose SORT NAME`.
fn append_disposal(out: &mut Vec<u8>, sort: &str, name: &Text) -> Result<(), OutOfMemory>
    ensures { OnOk result (Writes out.old.items out.new.items (codes "dispose" ∷ sort.now ∷ name.now ∷ [])) }
{
    append_three(out, "dispose", sort, name.as_str())
}

/// Appends `value G KEY`.
fn append_value(out: &mut Vec<u8>, group: &Text, key: &Text) -> Result<(), OutOfMemory>
    ensures { OnOk result (Writes out.old.items out.new.items (codes "value" ∷ group.now ∷ key.now ∷ [])) }
{
    append_three(out, "value", group.as_str(), key.as_str())
}

// ---- the commands with counts

/// Appends `order G FIELD`.
#[tactic(auto, using(crate::proofs::Printed::written))]
fn append_order(out: &mut Vec<u8>, group: &Text, field: Option<u8>) -> Result<(), OutOfMemory>
    ensures { OnOk result (Writes out.old.items out.new.items (codes "order" ∷ group.now ∷ field_word field ∷ [])) }
{
    append_two(out, "order", group.as_str())?;
    match field {
        Some(field) => append_count(out, u64::from(field)),
        None => append_word(out, "natural"),
    }
}

/// Appends `top D K`, `bottom D K` or one of them with an offset.
#[tactic(auto, using(crate::proofs::Printed::written))]
fn append_end(
    out: &mut Vec<u8>,
    verb: &str,
    dimension: &Text,
    count: u64,
    offset: Option<u64>,
) -> Result<(), OutOfMemory>
    ensures { OnOk result (Writes out.old.items out.new.items (verb.now ∷ dimension.now ∷ decimal count ∷ offset_words offset)) }
{
    append_two(out, verb, dimension.as_str())?;
    append_count(out, count)?;
    match offset {
        Some(offset) => append_count(out, offset),
        None => Ok(()),
    }
}

/// Appends `grouptop G K`.
#[tactic(auto, using(crate::proofs::Printed::written))]
fn append_group_top(out: &mut Vec<u8>, group: &Text, count: u64) -> Result<(), OutOfMemory>
    ensures { OnOk result (Writes out.old.items out.new.items (codes "grouptop" ∷ group.now ∷ decimal count ∷ [])) }
{
    append_two(out, "grouptop", group.as_str())?;
    append_count(out, count)
}

// ---- words

/// Appends a line of a verb and words.
#[tactic(auto, using(crate::proofs::Printed::written))]
fn append_all(out: &mut Vec<u8>, verb: &str, words: &[Text]) -> Result<(), OutOfMemory>
    ensures { OnOk result (Writes out.old.items out.new.items (verb.now ∷ words.now)) }
{
    append_first(out, verb)?;
    append_words(out, words)
}

/// Appends a line of three words.
#[tactic(auto, using(crate::proofs::Printed::written))]
fn append_three(out: &mut Vec<u8>, verb: &str, second: &str, third: &str) -> Result<(), OutOfMemory>
    ensures { OnOk result (Writes out.old.items out.new.items (verb.now ∷ second.now ∷ third.now ∷ [])) }
{
    append_two(out, verb, second)?;
    append_word(out, third)
}

/// Appends a line of two words.
#[tactic(auto, using(crate::proofs::Printed::written))]
fn append_two(out: &mut Vec<u8>, verb: &str, second: &str) -> Result<(), OutOfMemory>
    ensures { OnOk result (Writes out.old.items out.new.items (verb.now ∷ second.now ∷ [])) }
{
    append_first(out, verb)?;
    append_word(out, second)
}

/// Appends the first word of a line.
#[tactic(auto, unfolding(xf_filter::specs::Words::Writes))]
fn append_first(out: &mut Vec<u8>, word: &str) -> Result<(), OutOfMemory>
    ensures { OnOk result (Writes out.old.items out.new.items (word.now ∷ [])) }
{
    put_word(out, word.as_bytes())
}

/// Appends words, each behind a blank.
#[tactic(auto, using(crate::proofs::Printed::appended))]
fn append_words(out: &mut Vec<u8>, words: &[Text]) -> Result<(), OutOfMemory>
    ensures { OnOk result (Appends out.old.items out.new.items words.now) }
{
    for word in words {
        append_word(out, word.as_str())?;
    }
    Ok(())
}

/// Appends two words, each behind a blank.
#[tactic(auto, using(crate::proofs::Printed::appended))]
fn append_pair(out: &mut Vec<u8>, first: &str, second: &str) -> Result<(), OutOfMemory>
    ensures { OnOk result (Appends out.old.items out.new.items (first.now ∷ second.now ∷ [])) }
{
    append_word(out, first)?;
    append_word(out, second)
}

/// Appends the digits of a count behind a blank.
fn append_count(out: &mut Vec<u8>, count: u64) -> Result<(), OutOfMemory>
    ensures { OnOk result (Appends out.old.items out.new.items (decimal count ∷ [])) }
{
    let mut digits = Buffer::new();
    append_word(out, digits.format(count))
}

/// Appends a word behind a blank.
fn append_word(out: &mut Vec<u8>, word: &str) -> Result<(), OutOfMemory>
    ensures { OnOk result (Appends out.old.items out.new.items (word.now ∷ [])) }
{
    out.push(b' ')?;
    put_word(out, word.as_bytes())?;
    Ok(())
}
