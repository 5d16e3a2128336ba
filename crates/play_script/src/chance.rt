//! What happens before an edit.
ghost use Rattle.std.specs.Prelude.{◌≡◌};
ghost use Rattle.play_script.specs.Generated.{chance_of};

/// What happens before an edit.
#[derive(Clone, Copy)]
pub enum Chance {
    /// The other writer takes over.
    Switch,
    /// The writer ends its segment and begins the next one.
    Roll,
    /// The writer's next call to a node is lost.
    Drop,
    /// A node is killed, and comes up again.
    Restart,
    /// The writer takes over again.
    Retake,
    Nothing,
}

/// What a number below 100 stands for.
pub(crate) fn chance_of(number: u64) -> Chance
    ensures { result ≡ chance_of number }
{
    match number {
        0 => Chance::Switch,
        1 | 2 => Chance::Roll,
        3..=6 => Chance::Drop,
        7 => Chance::Restart,
        8 => Chance::Retake,
        _ => Chance::Nothing,
    }
}
