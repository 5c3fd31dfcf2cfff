//! The forms of commands, each behind its verb, which is word 1.
ghost use Rattle.std.specs.Prelude.{◌≡◌, ◌≤◌, ◌<◌, length, drop};
ghost use Rattle.xf_script.specs.Grammar.{Answers, disposal_form, form_of, removal_form};
ghost use Rattle.xf_script.specs.declared.opener.Removal.TheVariants as removal;
ghost use Rattle.xf_script.specs.declared.opener.Verb.TheVariants as verb;

use crate::command::CommandForm;
use crate::line_refusal::LineRefusal;
use crate::one_word::{
    bad_word, count_at, end_at, field_at, last_at, of_at, removal_at, sort_at, word_at,
};
use crate::opener::{Removal, Sort, Verb};
use crate::parts::{accessor_from, filter_from, item_from, offset_at, reducer_from, rounding_at};
use std::alloc::Global;
use xf_base::{Text, TextList};

/// The command of a verb and all words of its line.
pub fn form_of(alloc: Global, verb: Verb, words: TextList) -> Result<CommandForm, LineRefusal>
    requires { 0 < length words }
    ensures { Answers result (form_of verb words) }
{
    match verb {
        Verb::Load => load_form(alloc, words.as_slice()),
        Verb::Add => add_form(words),
        Verb::Filter => filter_form(alloc, words.as_slice()),
        Verb::Toggle => toggle_form(alloc, words.as_slice()),
        Verb::Clear => clear_form(alloc, words.as_slice()),
        Verb::ClearAll => clear_all_form(words.as_slice()),
        Verb::Remove => remove_form(alloc, words.as_slice()),
        Verb::Dimension => dimension_form(alloc, words.as_slice()),
        Verb::Group => group_form(alloc, words.as_slice()),
        Verb::Whole => whole_form(alloc, words.as_slice()),
        Verb::Order => order_form(alloc, words.as_slice()),
        Verb::Dispose => dispose_form(alloc, words.as_slice()),
        Verb::Top => top_form(alloc, words.as_slice()),
        Verb::Bottom => bottom_form(alloc, words.as_slice()),
        Verb::Groups => groups_form(alloc, words.as_slice()),
        Verb::GroupTop => group_top_form(alloc, words.as_slice()),
        Verb::Value => value_form(alloc, words.as_slice()),
        Verb::Records => Ok(CommandForm::Records {
            dimensions: behind_first(words),
        }),
        Verb::Size => size_form(words.as_slice()),
        Verb::Passing => passing_form(words.as_slice()),
        Verb::Events => events_form(words.as_slice()),
        Verb::Note => Ok(CommandForm::Note {
            words: behind_first(words),
        }),
    }
}

// ---- records

/// `load FILE`.
fn load_form(alloc: Global, words: &[Text]) -> Result<CommandForm, LineRefusal>
    ensures { Answers result (form_of verb.Load words.now) }
{
    let file = last_at(alloc, words, 2)?;
    Ok(CommandForm::Load { file })
}

/// `add W W*`.
fn add_form(words: TextList) -> Result<CommandForm, LineRefusal>
    requires { 0 < length words }
    ensures { Answers result (form_of verb.Add words) }
{
    if words.len() < 2 {
        return Err(bad_word(2));
    }
    Ok(CommandForm::Add {
        words: behind_first(words),
    })
}

/// `remove passing` or `remove where D FILTER`.
fn remove_form(alloc: Global, words: &[Text]) -> Result<CommandForm, LineRefusal>
    ensures { Answers result (form_of verb.Remove words.now) }
{
    match removal_at(words, 2)? {
        Removal::Passing => remove_passing_form(words),
        Removal::Where => remove_where_form(alloc, words),
    }
}

/// `remove passing`.
fn remove_passing_form(words: &[Text]) -> Result<CommandForm, LineRefusal>
    ensures { Answers result (removal_form removal.Passing words.now) }
{
    end_at(words, 3)?;
    Ok(CommandForm::RemovePassing)
}

/// `remove where D FILTER`.
fn remove_where_form(alloc: Global, words: &[Text]) -> Result<CommandForm, LineRefusal>
    ensures { Answers result (removal_form removal.Where words.now) }
{
    let dimension = word_at(alloc, words, 3)?;
    let filter = filter_from(alloc, words, 4)?;
    Ok(CommandForm::RemoveWhere { dimension, filter })
}

/// The words behind the first, without a copy.
fn behind_first(words: TextList) -> TextList
    requires { 0 < length words }
    ensures { result ≡ drop 1 words }
{
    let mut items = words.into_vec();
    items.remove(0);
    TextList::from_vec(items)
}

// ---- filters

/// `filter D FILTER`.
fn filter_form(alloc: Global, words: &[Text]) -> Result<CommandForm, LineRefusal>
    ensures { Answers result (form_of verb.Filter words.now) }
{
    let dimension = word_at(alloc, words, 2)?;
    let filter = filter_from(alloc, words, 3)?;
    Ok(CommandForm::Filter { dimension, filter })
}

/// `toggle D ITEM`.
fn toggle_form(alloc: Global, words: &[Text]) -> Result<CommandForm, LineRefusal>
    ensures { Answers result (form_of verb.Toggle words.now) }
{
    let dimension = word_at(alloc, words, 2)?;
    let item = item_from(alloc, words, 3)?;
    Ok(CommandForm::Toggle { dimension, item })
}

/// `clear D`.
fn clear_form(alloc: Global, words: &[Text]) -> Result<CommandForm, LineRefusal>
    ensures { Answers result (form_of verb.Clear words.now) }
{
    let dimension = last_at(alloc, words, 2)?;
    Ok(CommandForm::Clear { dimension })
}

/// `clearall`.
fn clear_all_form(words: &[Text]) -> Result<CommandForm, LineRefusal>
    ensures { Answers result (form_of verb.ClearAll words.now) }
{
    end_at(words, 2)?;
    Ok(CommandForm::ClearAll)
}

// ---- dimensions and groups

/// `dimension D ACCESSOR`.
fn dimension_form(alloc: Global, words: &[Text]) -> Result<CommandForm, LineRefusal>
    ensures { Answers result (form_of verb.Dimension words.now) }
{
    let name = word_at(alloc, words, 2)?;
    let accessor = accessor_from(alloc, words, 3)?;
    Ok(CommandForm::Dimension { name, accessor })
}

/// `group G of D ROUNDING REDUCER`.
fn group_form(alloc: Global, words: &[Text]) -> Result<CommandForm, LineRefusal>
    ensures { Answers result (form_of verb.Group words.now) }
{
    let name = word_at(alloc, words, 2)?;
    of_at(words, 3)?;
    let dimension = word_at(alloc, words, 4)?;
    let (rounding, next) = rounding_at(words, 5)?;
    let reducer = reducer_from(alloc, words, next)?;
    Ok(CommandForm::Group {
        name,
        dimension,
        rounding,
        reducer,
    })
}

/// `whole W REDUCER`.
fn whole_form(alloc: Global, words: &[Text]) -> Result<CommandForm, LineRefusal>
    ensures { Answers result (form_of verb.Whole words.now) }
{
    let name = word_at(alloc, words, 2)?;
    let reducer = reducer_from(alloc, words, 3)?;
    Ok(CommandForm::Whole { name, reducer })
}

/// `order G FIELD` or `order G natural`.
fn order_form(alloc: Global, words: &[Text]) -> Result<CommandForm, LineRefusal>
    ensures { Answers result (form_of verb.Order words.now) }
{
    let group = word_at(alloc, words, 2)?;
    let field = field_at(words, 3)?;
    end_at(words, 4)?;
    Ok(CommandForm::Order { group, field })
}

/// `dispose dimension D`, `dispose group G` or `dispose whole W`.
fn dispose_form(alloc: Global, words: &[Text]) -> Result<CommandForm, LineRefusal>
    ensures { Answers result (form_of verb.Dispose words.now) }
{
    let sort = sort_at(words, 2)?;
    let name = last_at(alloc, words, 3)?;
    Ok(disposal_form(sort, name))
}

/// The disposal of a thing of this sort.
fn disposal_form(sort: Sort, name: Text) -> CommandForm
    ensures { result ≡ disposal_form sort name }
{
    match sort {
        Sort::Dimension => CommandForm::DisposeDimension { name },
        Sort::Group => CommandForm::DisposeGroup { name },
        Sort::Whole => CommandForm::DisposeWhole { name },
    }
}

// ---- lists

/// `top D K` or `top D K OFFSET`.
fn top_form(alloc: Global, words: &[Text]) -> Result<CommandForm, LineRefusal>
    ensures { Answers result (form_of verb.Top words.now) }
{
    let dimension = word_at(alloc, words, 2)?;
    let count = count_at(words, 3)?;
    let offset = offset_at(words, 4)?;
    Ok(CommandForm::Top {
        dimension,
        count,
        offset,
    })
}

/// `bottom D K` or `bottom D K OFFSET`.
fn bottom_form(alloc: Global, words: &[Text]) -> Result<CommandForm, LineRefusal>
    ensures { Answers result (form_of verb.Bottom words.now) }
{
    let dimension = word_at(alloc, words, 2)?;
    let count = count_at(words, 3)?;
    let offset = offset_at(words, 4)?;
    Ok(CommandForm::Bottom {
        dimension,
        count,
        offset,
    })
}

/// `groups G`.
fn groups_form(alloc: Global, words: &[Text]) -> Result<CommandForm, LineRefusal>
    ensures { Answers result (form_of verb.Groups words.now) }
{
    let group = last_at(alloc, words, 2)?;
    Ok(CommandForm::Groups { group })
}

/// `grouptop G K`.
fn group_top_form(alloc: Global, words: &[Text]) -> Result<CommandForm, LineRefusal>
    ensures { Answers result (form_of verb.GroupTop words.now) }
{
    let group = word_at(alloc, words, 2)?;
    let count = count_at(words, 3)?;
    end_at(words, 4)?;
    Ok(CommandForm::GroupTop { group, count })
}

/// `value G KEY`.
fn value_form(alloc: Global, words: &[Text]) -> Result<CommandForm, LineRefusal>
    ensures { Answers result (form_of verb.Value words.now) }
{
    let group = word_at(alloc, words, 2)?;
    let key = last_at(alloc, words, 3)?;
    Ok(CommandForm::Value { group, key })
}

/// `size`.
fn size_form(words: &[Text]) -> Result<CommandForm, LineRefusal>
    ensures { Answers result (form_of verb.Size words.now) }
{
    end_at(words, 2)?;
    Ok(CommandForm::Size)
}

/// `passing`.
fn passing_form(words: &[Text]) -> Result<CommandForm, LineRefusal>
    ensures { Answers result (form_of verb.Passing words.now) }
{
    end_at(words, 2)?;
    Ok(CommandForm::Passing)
}

/// `events`.
fn events_form(words: &[Text]) -> Result<CommandForm, LineRefusal>
    ensures { Answers result (form_of verb.Events words.now) }
{
    end_at(words, 2)?;
    Ok(CommandForm::Events)
}
