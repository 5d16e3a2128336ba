//! How many effects of a request stand after a cut between two disk calls.
ghost use Rattle.std.specs.Prelude.{◌≡◌, ◌++◌, ◌∷◌, [], map, filter, None, List};
ghost use Rattle.journal_core.specs.Limits.{head_of, limit_of};
ghost use Rattle.journal_core.specs.Effects.{Remove};
ghost use Rattle.journal_core.specs.Step.{front_effects, may_go};
ghost use Rattle.journal_core.specs.Stops.{effects_of_row};
ghost use Rattle.journal_core.specs.Cuts.{Cost, standing, cost_of, effects_standing};
ghost use Rattle.journal_step.specs.Budgets.{count_on, SpendsTo};
ghost use Rattle.journal_step.specs.Durable.{effect_cost};
ghost use Rattle.journal_step.specs.Decisions.{listed};

use crate::budget::Budget;
use crate::costs::{effect_cost, name_cost, number_cost};
use crate::deciding::decide;
use crate::decision::Decision;
use crate::durable_effect::DurableEffect;
use crate::list_index::entry_of;
use crate::numbers::{numbers_of, restore};
use crate::segment_index::is_old;
use journal_core::{Cut, NodeState, Request};

// What the front leaves of so many calls.
#[tactic(auto, using(crate::proofs::BudgetLaws::budgets))]
fn front_budget(state: &NodeState, request: &Request, calls: u64, cut: Cut) -> Budget
    ensures { (rest : List Cost) → standing calls (map (cost_of cut state.now.segments) (front_effects state.now (head_of request.now)) ++ rest) ≡ count_on result rest }
{
    let budget = Budget::new(calls);
    match request.head() {
        Some(head) if head.epoch() > state.promised => budget.spend(number_cost()),
        _ => budget,
    }
}

// What an effect, if there is one, leaves.
#[tactic(auto, using(crate::proofs::BudgetLaws::budgets))]
fn spend_one(budget: Budget, effect: Option<DurableEffect>, cut: Cut) -> Budget
    ensures { SpendsTo budget (map (effect_cost cut) (listed effect)) result }
{
    match effect {
        Some(effect) => budget.spend(effect_cost(effect, cut)),
        None => budget,
    }
}

// What a purge leaves.
#[tactic(auto, using(crate::proofs::CutLaws::purges))]
fn purge_budget(state: &NodeState, committed: u64, min: u64, cut: Cut, budget: Budget) -> Budget
    ensures { SpendsTo budget (map (cost_of cut state.now.segments) (map (λ g. Remove g.start) (filter (may_go state.now committed min) state.now.segments))) result }
{
    let newest = state.segments.newest();
    let mut left = budget;
    for segment in state.segments.as_slice() {
        let entry = entry_of(segment);
        if is_old(&entry, state.opened, newest, committed, min) {
            left = left.spend(name_cost(segment.accepted));
        }
    }
    left
}

// What the request leaves behind its front.
fn row_budget(state: &NodeState, request: &Request, cut: Cut, budget: Budget) -> Budget
    requires { limit_of request.now ≡ None }
    ensures { SpendsTo budget (map (cost_of cut state.now.segments) (effects_of_row state.now request.now)) result }
{
    match decide(state, &state.segments, request) {
        Decision::Refused(_) => budget,
        Decision::Effects { first, second } => {
            spend_one(spend_one(budget, first, cut), second, cut)
        }
        Decision::Purge { committed, min } => purge_budget(state, committed, min, cut, budget),
    }
}

/// How many effects of the request stand after a cut after so many disk calls. The state is as
/// before in the end.
pub fn effects_standing(state: &mut NodeState, request: &Request, calls: u64, cut: Cut) -> u64
    ensures count { result ≡ effects_standing cut state.old request.now calls }
    ensures same { state.new ≡ state.old }
{
    if let Some(_) = state.refused_at_once(request) {
        return 0;
    }
    let budget = front_budget(state, request, calls, cut);
    let before = numbers_of(state);
    state.pass_front(request);
    let left = row_budget(state, request, cut, budget);
    restore(state, before);
    left.standing()
}
