// Refusals 2 to 9, tried in order on any plan in memory.
ghost use Rattle.std.specs.Prelude.{◌≡◌};
ghost use Rattle.model.specs.Refusals.{plan_refusal};
ghost use Rattle.plan.specs.Memory.{lines};
ghost use Rattle.plan_refusals.specs.Answer.{refusal_of};

use crate::lines::{
    long_messages, twin_edges, wrong_deciders, wrong_ends, wrong_nodes, wrong_sizes, wrong_whens,
};
use plan::{Plan, wrong_counts};
use refusals::Refusal;

// The first of refusals 2 to 9 that applies to a plan.
pub fn refuse(p: Plan) -> Result<(), Refusal>
    ensures { refusal_of result ≡ plan_refusal (lines p) }
{
    if wrong_counts(&p) {
        return Err(Refusal::Counts);
    }
    if wrong_sizes(&p) {
        return Err(Refusal::Sizes);
    }
    if wrong_nodes(&p) {
        return Err(Refusal::Nodes);
    }
    if wrong_deciders(&p) {
        return Err(Refusal::Deciders);
    }
    if wrong_ends(&p) {
        return Err(Refusal::EdgeEnds);
    }
    if twin_edges(&p) {
        return Err(Refusal::TwinEdges);
    }
    if wrong_whens(&p) {
        return Err(Refusal::Whens);
    }
    if long_messages(&p) {
        return Err(Refusal::LongMessage);
    }
    Ok(())
}
