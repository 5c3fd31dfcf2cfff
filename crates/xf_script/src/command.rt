//! A command of a session.
ghost use Rattle.std.specs.Prelude.{◌≡◌};
ghost use Rattle.xf_script.specs.Grammar.{IsCommand};

use std::marker::Model;
use xf_base::{Text, TextList};
use xf_columns::{AccessorWords, ReducerWords, RoundingWords};
use xf_filter::{RawFilter, RawItem};

/// A command that a line may say. It is made by `read_command` alone.
#[derive(Debug, Drop)]
pub struct Command {
    form: CommandForm,
}

/// The forms of commands, with their words. Names are not looked up, and keys not read, before the session does it.
#[derive(Debug, Drop)]
pub enum CommandForm {
    /// `load FILE`: the records of a CSV file come.
    Load {
        file: Text,
    },
    /// `add W W*`: a record comes, a word for each column.
    Add {
        words: TextList,
    },
    /// `filter D FILTER`: a dimension's filter is replaced.
    Filter {
        dimension: Text,
        filter: RawFilter,
    },
    /// `toggle D ITEM`: an item goes into a dimension's list, or out of it.
    Toggle {
        dimension: Text,
        item: RawItem,
    },
    /// `clear D`: a dimension's filter is taken away.
    Clear {
        dimension: Text,
    },
    /// `clearall`: each filter is taken away.
    ClearAll,
    /// `remove passing`: the records that pass go.
    RemovePassing,
    /// `remove where D FILTER`: the records that pass this filter on a dimension go.
    RemoveWhere {
        dimension: Text,
        filter: RawFilter,
    },
    /// `dimension D ACCESSOR`.
    Dimension {
        name: Text,
        accessor: AccessorWords,
    },
    /// `group G of D ROUNDING REDUCER`.
    Group {
        name: Text,
        dimension: Text,
        rounding: RoundingWords,
        reducer: ReducerWords,
    },
    /// `whole W REDUCER`.
    Whole {
        name: Text,
        reducer: ReducerWords,
    },
    /// `order G FIELD`, or `order G natural`, which is None. Fields count from 0.
    Order {
        group: Text,
        field: Option<u8>,
    },
    /// `dispose dimension D`.
    DisposeDimension {
        name: Text,
    },
    /// `dispose group G`.
    DisposeGroup {
        name: Text,
    },
    /// `dispose whole W`.
    DisposeWhole {
        name: Text,
    },
    /// `top D K` or `top D K OFFSET`: the records with the greatest keys.
    Top {
        dimension: Text,
        count: u64,
        offset: Option<u64>,
    },
    /// `bottom D K` or `bottom D K OFFSET`: those with the least.
    Bottom {
        dimension: Text,
        count: u64,
        offset: Option<u64>,
    },
    /// `groups G`: the entries of a group.
    Groups {
        group: Text,
    },
    /// `grouptop G K`: the first of them by the group's order.
    GroupTop {
        group: Text,
        count: u64,
    },
    /// `value G KEY`: the entry of a key.
    Value {
        group: Text,
        key: Text,
    },
    /// `records D*`: the records that pass every dimension but these.
    Records {
        dimensions: TextList,
    },
    /// `size`: how many records there are.
    Size,
    /// `passing`: how many pass.
    Passing,
    /// `events`: how often records came or went and filters were set.
    Events,
    /// `note W*`: nothing.
    Note {
        words: TextList,
    },
}

impl Model for Command {
    ghost use Rattle.std.specs.Coded.{codes};
    ghost use Rattle.xf_filter.specs.contracts.raw_filter.RawPredicate as e;
    ghost use Rattle.xf_script.specs.Grammar.{IsCommand};
    ghost use Rattle.xf_script.specs.declared.command.CommandForm.{CommandForm};

    ghost Value = { CommandForm };

    ghost coded = { Prim.hlevel (codes, e.the_row.coded) };

    ghost view = { λ command. command.form };

    ghost invariant = { λ command. IsCommand command.form };
}

impl Command {
    /// A command that was read.
    pub(crate) fn of(form: CommandForm) -> Command
        requires { IsCommand form }
        ensures { result ≡ form }
    {
        Command { form }
    }

    /// Lends its form.
    pub fn form(&self) -> &CommandForm
        ensures form { result.now ≡ self.now }
        ensures command { IsCommand self.now }
    {
        &self.form
    }

    /// Gives its form.
    pub fn into_form(self) -> CommandForm
        ensures form { result ≡ self }
        ensures command { IsCommand self }
    {
        self.form
    }
}
