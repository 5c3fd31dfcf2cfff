//! The data view of a session: its counts, each whole, and each group.
ghost use Rattle.std.specs.Prelude.{◌≡◌, ◌++◌, OnOk, flat_map, slice_get};
ghost use Rattle.xf_app.specs.Page.{counts_line, data_view, lines_at, lines_of_group, whole_line};

use std::sync::ledger::Ledger;
use xf_base::{OutOfMemory, Steps, put_number, put_word};
use xf_session::Session;

/// Appends the data view: `records SIZE passing COUNT`; `whole NAME` and its fields for each whole; and `group NAME KEYS` for
/// each group, with a line for each of its keys, which has the key and its fields. Where memory is refused a part of it may
/// stand in `out`.
pub fn put_data_view<L: Ledger>(
    out: &mut Vec<u8>,
    session: &Session,
    steps: &mut Steps<L>,
) -> Result<(), OutOfMemory>
    ensures ok { OnOk result (out.new.items ≡ out.old.items ++ data_view session.now) }
{
    let cross = session.cross();
    put_counts(out, cross.size(), cross.passing_count(steps))?;
    put_wholes(out, session)?;
    put_groups(out, session, steps)
}

/// Appends how many records there are, and how many pass.
fn put_counts(out: &mut Vec<u8>, size: u64, passing: u64) -> Result<(), OutOfMemory>
    ensures ok { OnOk result (out.new.items ≡ out.old.items ++ counts_line size passing) }
{
    out.extend_from_slice(b"records ")?;
    put_number(out, size)?;
    out.extend_from_slice(b" passing ")?;
    put_number(out, passing)?;
    out.push(b'\n')?;
    Ok(())
}

/// Appends each whole.
fn put_wholes(out: &mut Vec<u8>, session: &Session) -> Result<(), OutOfMemory>
    ensures ok { OnOk result (out.new.items ≡ out.old.items ++ flat_map (whole_line session.now) session.now.wholes) }
{
    for place in 0..session.whole_count() {
        put_whole_at(out, session, place)?;
    }
    Ok(())
}

/// Appends the whole at a place, if one stands there: its name and its fields.
fn put_whole_at(out: &mut Vec<u8>, session: &Session, place: usize) -> Result<(), OutOfMemory>
    ensures ok { OnOk result (out.new.items ≡ out.old.items ++ lines_at (whole_line session.now) (slice_get session.now.wholes place)) }
{
    let Some((name, id)) = session.whole_at(place) else {
        return Ok(());
    };
    out.extend_from_slice(b"whole ")?;
    put_word(out, name.as_bytes())?;
    session.put_whole(out, id)?;
    out.push(b'\n')?;
    Ok(())
}

/// Appends each group.
fn put_groups<L: Ledger>(
    out: &mut Vec<u8>,
    session: &Session,
    steps: &mut Steps<L>,
) -> Result<(), OutOfMemory>
    ensures ok { OnOk result (out.new.items ≡ out.old.items ++ flat_map (lines_of_group session.now) session.now.groups) }
{
    for place in 0..session.group_count() {
        put_group_at(out, session, place, steps)?;
    }
    Ok(())
}

/// Appends the group at a place, if one stands there: its name, the number of its keys, and a line for each.
fn put_group_at<L: Ledger>(
    out: &mut Vec<u8>,
    session: &Session,
    place: usize,
    steps: &mut Steps<L>,
) -> Result<(), OutOfMemory>
    ensures ok { OnOk result (out.new.items ≡ out.old.items ++ lines_at (lines_of_group session.now) (slice_get session.now.groups place)) }
{
    let Some((name, id)) = session.group_at(place) else {
        return Ok(());
    };
    out.extend_from_slice(b"group ")?;
    put_word(out, name.as_bytes())?;
    out.push(b' ')?;
    put_number(out, session.group_size(id) as u64)?;
    out.push(b'\n')?;
    session.put_entries(out, id, &session.group_form(id), steps)
}
