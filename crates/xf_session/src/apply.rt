//! What each line does.
ghost use Rattle.std.specs.Prelude.{◌≡◌, IfErr, IfOk, OnErr, OnOk};
ghost use Rattle.xf_outside.specs.Account.{Files};
ghost use Rattle.xf_reply.specs.Step.{HasText};
ghost use Rattle.xf_script.specs.Grammar.{IsCommand};
ghost use Rattle.xf_script.specs.declared.command.CommandForm.TheVariants as Form;
ghost use Rattle.xf_script.specs.declared.line_refusal.LineRefusal.TheVariants as line;
ghost use Rattle.xf_session.specs.Asked.{IsCounted, IsLoaded, Performs, done_of};
ghost use Rattle.xf_session.specs.Command.{Loads, Tells, TellsFor, cause_of_line, command, outcome_of};
ghost use Rattle.xf_session.specs.Does.{Does};
ghost use Rattle.xf_session.specs.State.{Name};

use crate::session::Session;
use std::sync::ledger::Ledger;
use thiserror::Error;
use xf_base::{OutOfMemory, Steps, Text};
use xf_outside::Depot;
use xf_reply::{Bytes, Refusal, Reply};
use xf_script::{CommandForm, LineRefusal, read_command};

/// Why a line was not done. The session is as it was.
#[derive(Clone, Copy, Debug, PartialEq, Eq, Error)]
pub enum SessionFault {
    /// A file that the line loads was not read: the outside failed.
    #[error("reading failed")]
    ReadFault,
    /// Memory was refused.
    #[error("out of memory")]
    OutOfMemory,
}

impl From<OutOfMemory> for SessionFault {
    ghost use Rattle.std.specs.Prelude.{◌≡◌};
    ghost use Rattle.xf_session.specs.declared.apply.SessionFault.TheVariants.{OutOfMemory};

    ghost from_gives = { λ _ fault. fault ≡ OutOfMemory };

    fn from(_error: OutOfMemory) -> SessionFault {
        SessionFault::OutOfMemory
    }
}

/// What came of a command.
#[derive(Debug, Drop)]
enum Performed {
    /// It was done, and this is the answer.
    Done(Reply),
    /// It loads this file, and nothing is done yet.
    Asks(Text),
}

impl Session {
    /// Does what a line says, and tells how it is answered. Only `load` fetches a file. After a refusal, and after a
    /// fault, the session is as it was.
    pub fn apply<D: Depot, L: Ledger>(
        &mut self,
        line: &[u8],
        depot: &mut D,
        steps: &mut Steps<L>,
    ) -> Result<Reply, SessionFault>
        // The line does what its command is defined to do, where the depot tells the files or none is asked for.
        ensures command { (files : Files) → Tells (D.account depot.old).files files line.now → Does (command files self.old line.now) self.old self.new result }
        ensures err { OnErr result (self.new ≡ self.old) }

        // Whatever the depot tells: the line does what its command does over some files, how a `load` may be answered and what
        // it counts, and any other line leaves the depot as it was.
        ensures some_files { (files : Files) × Does (command files self.old line.now) self.old self.new result }
        ensures loads { (file : Name) → Loads line.now file → IfOk result (IsLoaded self.old.cross.limits.file_bytes (D.account depot.old) (D.account depot.new)) }
        ensures untouched { ((file : Name) → Loads line.now file → ⊥) → depot.new ≡ depot.old }
        ensures counted { IsCounted result (D.account depot.old) (D.account depot.new) }
        ensures utf8 { IfOk result HasText }
    {
        match read_command(self.alloc, line) {
            Ok(None) => Ok(Reply::Skipped),
            Ok(Some(command)) => self.perform(command.into_form(), depot, steps),
            Err(refusal) => Ok(Reply::Refused(cause_of(refusal)?)),
        }
    }

    /// Does a command.
    fn perform<D: Depot, L: Ledger>(
        &mut self,
        form: CommandForm,
        depot: &mut D,
        steps: &mut Steps<L>,
    ) -> Result<Reply, SessionFault>
        requires { IsCommand form }
        ensures command { (files : Files) → TellsFor (D.account depot.old).files files form → Does (outcome_of files self.old form) self.old self.new result }
        ensures some_files { (files : Files) × Does (outcome_of files self.old form) self.old self.new result }
        ensures err { OnErr result (self.new ≡ self.old) }
        ensures loads { (file : Name) → form ≡ Form.Load file → IfOk result (IsLoaded self.old.cross.limits.file_bytes (D.account depot.old) (D.account depot.new)) }
        ensures untouched { ((file : Name) → form ≡ Form.Load file → ⊥) → depot.new ≡ depot.old }
        ensures counted { IsCounted result (D.account depot.old) (D.account depot.new) }
        ensures utf8 { IfOk result HasText }
    {
        match self.perform_within(form, steps) {
            Ok(Performed::Done(reply)) => Ok(reply),
            Ok(Performed::Asks(file)) => self.load(file, depot, steps),
            Err(OutOfMemory) => Err(SessionFault::OutOfMemory),
        }
    }

    /// Does a command that asks for no file.
    fn perform_within<L: Ledger>(
        &mut self,
        form: CommandForm,
        steps: &mut Steps<L>,
    ) -> Result<Performed, OutOfMemory>
        requires { IsCommand form }
        ensures { Performs form self.old self.new result }
    {
        match form {
            CommandForm::Load { file } => Ok(Performed::Asks(file)),
            CommandForm::Add { words } => done(self.add(&words, steps)),
            CommandForm::Filter { dimension, filter } => {
                done(self.filter(dimension, &filter, steps))
            }
            CommandForm::Toggle { dimension, item } => {
                done(self.toggle(dimension, &item, steps))
            }
            CommandForm::Clear { dimension } => done(self.clear(dimension, steps)),
            CommandForm::ClearAll => done(self.clear_all(steps)),
            CommandForm::RemovePassing => done(self.remove_passing(steps)),
            CommandForm::RemoveWhere { dimension, filter } => {
                done(self.remove_where(dimension, &filter, steps))
            }
            CommandForm::Dimension { name, accessor } => {
                done(self.add_dimension(name, accessor, steps))
            }
            CommandForm::Group {
                name,
                dimension,
                rounding,
                reducer,
            } => done(self.add_group(name, dimension, rounding, reducer, steps)),
            CommandForm::Whole { name, reducer } => done(self.add_whole(name, reducer, steps)),
            CommandForm::Order { group, field } => Ok(Performed::Done(self.order(group, field))),
            CommandForm::DisposeDimension { name } => done(self.dispose_dimension(name, steps)),
            CommandForm::DisposeGroup { name } => Ok(Performed::Done(self.dispose_group(name))),
            CommandForm::DisposeWhole { name } => Ok(Performed::Done(self.dispose_whole(name))),
            CommandForm::Top {
                dimension,
                count,
                offset,
            } => done(self.top(dimension, count, offset, steps)),
            CommandForm::Bottom {
                dimension,
                count,
                offset,
            } => done(self.bottom(dimension, count, offset, steps)),
            CommandForm::Groups { group } => done(self.groups(group, steps)),
            CommandForm::GroupTop { group, count } => done(self.group_top(group, count, steps)),
            CommandForm::Value { group, key } => done(self.value(group, &key, steps)),
            CommandForm::Records { dimensions } => { done(self.records(dimensions, steps)) }
            CommandForm::Size => done(self.size()),
            CommandForm::Passing => done(self.passing(steps)),
            CommandForm::Events => done(self.events()),
            CommandForm::Note { .. } => Ok(Performed::Done(Reply::Answer(Bytes::new(self.alloc)))),
        }
    }
}

/// A command that was done.
fn done(reply: Result<Reply, OutOfMemory>) -> Result<Performed, OutOfMemory>
    ensures { result ≡ done_of reply }
{
    match reply {
        Ok(reply) => Ok(Performed::Done(reply)),
        Err(error) => Err(error),
    }
}

/// Why a line says no command; memory that was refused is no cause.
fn cause_of(refusal: LineRefusal) -> Result<Refusal, SessionFault>
    ensures cause { IfOk result (λ cause. cause ≡ cause_of_line refusal) }
    ensures told { OnOk result (refusal ≡ line.OutOfMemory → ⊥) }
    ensures err { IfErr result (λ fault. fault ≡ SessionFault.OutOfMemory) }
{
    match refusal {
        LineRefusal::TooLong { length } => Ok(Refusal::LineTooLong { length }),
        LineRefusal::NotText { place } => Ok(Refusal::NotText { place }),
        LineRefusal::Verb => Ok(Refusal::UnknownVerb),
        LineRefusal::Word { number } => Ok(Refusal::BadWord { number }),
        LineRefusal::TooDeep { number } => Ok(Refusal::TooDeep { number }),
        LineRefusal::OutOfMemory => Err(SessionFault::OutOfMemory),
    }
}
