//! The disk calls of each durable effect.
ghost use Rattle.std.specs.Prelude.{◌≡◌, ◌<◌};
ghost use Rattle.journal_core.specs.Cuts.{append_cost, accept_cost, name_cost, number_cost};
ghost use Rattle.journal_step.specs.Durable.{effect_cost};

use crate::durable_effect::DurableEffect;
use journal_core::Cut;

/// How many disk calls an effect has, and at which of them it stands.
#[derive(Clone, Copy)]
pub struct EffectCost {
    pub calls: u64,
    pub decides: u64,
    ghost some: { 0 < calls },
    ghost early: { 0 < decides },
}

/// That of a number file, and of a new segment.
pub fn number_cost() -> EffectCost
    ensures { record { calls = result.calls; decides = result.decides } ≡ number_cost }
{
    EffectCost {
        calls: 3,
        decides: 3,
    }
}

fn append_cost(cut: Cut) -> EffectCost
    ensures { record { calls = result.calls; decides = result.decides } ≡ append_cost cut }
{
    match cut {
        Cut::Old => EffectCost {
            calls: 4,
            decides: 4,
        },
        Cut::New | Cut::A5 => EffectCost {
            calls: 4,
            decides: 3,
        },
    }
}

fn accept_cost(again: bool) -> EffectCost
    ensures { record { calls = result.calls; decides = result.decides } ≡ accept_cost again }
{
    if again {
        EffectCost {
            calls: 3,
            decides: 3,
        }
    } else {
        EffectCost {
            calls: 6,
            decides: 5,
        }
    }
}

/// That of a rename or a removal, of a segment with or without the record of an acceptance.
pub fn name_cost(accepted: bool) -> EffectCost
    ensures { record { calls = result.calls; decides = result.decides } ≡ name_cost accepted }
{
    EffectCost {
        calls: if accepted { 2 } else { 1 },
        decides: 1,
    }
}

/// That of an effect, by what it tells of its segment.
pub fn effect_cost(effect: DurableEffect, cut: Cut) -> EffectCost
    ensures { record { calls = result.calls; decides = result.decides } ≡ effect_cost cut effect }
{
    match effect {
        DurableEffect::Promise { .. }
        | DurableEffect::WriterEpoch { .. }
        | DurableEffect::Commit { .. }
        | DurableEffect::NewSegment { .. } => number_cost(),
        DurableEffect::Append { .. } => append_cost(cut),
        DurableEffect::Replace { again, .. } => accept_cost(again),
        DurableEffect::MakeFinal { accepted, .. } => name_cost(accepted),
        DurableEffect::Remove { info } => name_cost(info.accepted),
    }
}
