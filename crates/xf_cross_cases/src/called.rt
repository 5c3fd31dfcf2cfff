//! The worked calls, run.
use crate::see::see;
use crate::worked::{
    floor_below_0, holds_for_end, no_number, number_begins, remainder_below_0, toggled_out,
};
use std::test::Fail;
use xf_base::{Key, KeyKind};

#[test]
fn worked_calls(rt: HostRuntime) -> Result<(), Fail> {
    see(&rt, "the end of a range", !holds_for_end());
    see(&rt, "a remainder", remainder_below_0());
    see(&rt, "a prefix", !number_begins(rt.alloc())?);
    see(
        &rt,
        "a misfit",
        no_number(rt.alloc())? == Some(KeyKind::Text),
    );
    see(&rt, "a floor", floor_below_0(rt.alloc())? == Key::Num(-10));
    see(&rt, "a toggle", toggled_out(rt.alloc())?.is_all());
    Ok(())
}
