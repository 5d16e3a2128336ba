//! The durable effects of a request, in order.
ghost use Rattle.std.specs.Prelude.{◌≡◌, ◌++◌, IfOk, OnOk};
ghost use Rattle.journal_step.specs.Decisions.{listed};
ghost use Rattle.disk_effects.specs.Decided.{effects_in};

use base_words::OutOfMemory;
use journal_step::DurableEffect;
use std::alloc::Global;

/// Durable effects in order. None of them and a single one take no memory, but in a purge, whose
/// removals are a list.
#[derive(Drop)]
pub enum EffectList {
    None,
    One([DurableEffect; 1]),
    Many(Vec<DurableEffect>),
}

/// Adds an effect, if there is one.
pub(crate) fn push_effect(
    effects: &mut Vec<DurableEffect>,
    effect: Option<DurableEffect>,
) -> Result<(), OutOfMemory>
    ensures { OnOk result (effects.new.items ≡ effects.old.items ++ listed effect) }
{
    if let Some(effect) = effect {
        effects.push(effect)?;
    }
    Ok(())
}

impl EffectList {
    /// At most three effects.
    pub(crate) fn of(
        alloc: Global,
        first: Option<DurableEffect>,
        second: Option<DurableEffect>,
        third: Option<DurableEffect>,
    ) -> Result<EffectList, OutOfMemory>
        ensures { IfOk result (λ list. effects_in list ≡ listed first ++ listed second ++ listed third) }
    {
        match (first, second, third) {
            (None, None, None) => Ok(EffectList::None),
            (Some(effect), None, None) => Ok(EffectList::One([effect])),
            (None, Some(effect), None) => Ok(EffectList::One([effect])),
            (None, None, Some(effect)) => Ok(EffectList::One([effect])),
            _ => {
                let mut effects = Vec::new(alloc);
                push_effect(&mut effects, first)?;
                push_effect(&mut effects, second)?;
                push_effect(&mut effects, third)?;
                Ok(EffectList::Many(effects))
            }
        }
    }

    /// All of them.
    pub fn as_slice(&self) -> &[DurableEffect]
        ensures { result.now ≡ effects_in self.now }
    {
        match self {
            EffectList::None => &[],
            EffectList::One(effect) => effect.as_slice(),
            EffectList::Many(effects) => effects.as_slice(),
        }
    }
}
