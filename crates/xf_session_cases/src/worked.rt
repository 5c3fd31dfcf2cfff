//! Lines worked by hand, over every session and every depot: each function applies one line, and its contract says what
//! that does. So the contract of `Session::apply` is seen to say enough to know it.
#![tactic(auto, unfolding(crate::specs::Opened::is_utf8, crate::specs::Opened::chars, crate::specs::Opened::encode, crate::specs::Opened::utf8_valid_len))]

ghost use Rattle.std.specs.Prelude.{◌≡◌, None, codes, length};
ghost use Rattle.xf_model.specs.Replay.{accepted, refused, skipped};
ghost use Rattle.xf_reply.specs.declared.refusal.Refusal.TheVariants as refusal;
ghost use Rattle.xf_session.specs.Does.{Does};
ghost use Rattle.xf_session.specs.Outcome.{Counts, Nothing, Number};
ghost use Rattle.xf_session.specs.State.{named};

use std::sync::ledger::Ledger;
use xf_base::Steps;
use xf_outside::Depot;
use xf_reply::Reply;
use xf_session::{Session, SessionFault};

/// `fly` is no verb.
pub fn unknown_verb<D: Depot, L: Ledger>(
    session: &mut Session,
    depot: &mut D,
    steps: &mut Steps<L>,
) -> Result<Reply, SessionFault>
    ensures { Does (refused refusal.UnknownVerb) session.old session.new result }
{
    session.apply(b"fly", depot, steps)
}

/// The top of a dimension wants a count.
pub fn wanting_count<D: Depot, L: Ledger>(
    session: &mut Session,
    depot: &mut D,
    steps: &mut Steps<L>,
) -> Result<Reply, SessionFault>
    ensures { Does (refused (refusal.BadWord 3)) session.old session.new result }
{
    session.apply(b"top d", depot, steps)
}

/// A comment is no step.
pub fn comment<D: Depot, L: Ledger>(
    session: &mut Session,
    depot: &mut D,
    steps: &mut Steps<L>,
) -> Result<Reply, SessionFault>
    ensures { Does skipped session.old session.new result }
{
    session.apply(b"# clearall", depot, steps)
}

/// The size is the number of records, and asks for no file.
pub fn size<D: Depot, L: Ledger>(
    session: &mut Session,
    depot: &mut D,
    steps: &mut Steps<L>,
) -> Result<Reply, SessionFault>
    ensures answer { Does (accepted session.old (Number (length session.old.cross.rows))) session.old session.new result }
    ensures untouched { depot.new ≡ depot.old }
{
    session.apply(b"size", depot, steps)
}

/// The events are those that the crossfilter counts.
pub fn events<D: Depot, L: Ledger>(
    session: &mut Session,
    depot: &mut D,
    steps: &mut Steps<L>,
) -> Result<Reply, SessionFault>
    ensures { Does (accepted session.old (Counts session.old.cross.events)) session.old session.new result }
{
    session.apply(b"events", depot, steps)
}

/// A dimension that is not there can't be cleared.
pub fn cleared<D: Depot, L: Ledger>(
    session: &mut Session,
    depot: &mut D,
    steps: &mut Steps<L>,
) -> Result<Reply, SessionFault>
    ensures { named session.old.dimensions (codes "d") ≡ None → Does (refused (refusal.NoDimension (codes "d"))) session.old session.new result }
{
    session.apply(b"clear d", depot, steps)
}
