//! The place of an item in a list by rising start.
ghost use Rattle.std.specs.Prelude.{◌≡◌, ℕ, IfOk, IfErr};
ghost use Rattle.base_words.specs.Starts.{Rises, IsAt, IsGap};

/// What has a start, by which a list of such items rises.
pub trait HasStart {
    ghost start_of: { Self → ℕ };

    /// Its start.
    fn start(&self) -> u64
        ensures { result ≡ start_of self.now };
}

fn search<T: HasStart>(items: &[T], start: u64) -> Result<usize, usize>
    requires { Rises T.start_of items.now }
    ensures found { IfOk result (λ place. IsAt T.start_of start place items.now) }
    ensures gap { IfErr result (λ place. IsGap T.start_of start place items.now) }
{
    items.binary_search_by_key(&start, |item| item.start())
}

/// The place of the item with that start, or where it would stand, in a list by rising start. The
/// last item is tried first: calls mostly speak of it.
#[tactic(auto, using(crate::proofs::StartLaws::sides))]
pub fn place_in<T: HasStart>(items: &[T], start: u64) -> Result<usize, usize>
    requires { Rises T.start_of items.now }
    ensures found { IfOk result (λ place. IsAt T.start_of start place items.now) }
    ensures gap { IfErr result (λ place. IsGap T.start_of start place items.now) }
{
    let count = items.len();
    if count == 0 {
        return Err(0);
    }
    let last = items[count - 1].start();
    if last == start {
        return Ok(count - 1);
    }
    if last < start {
        return Err(count);
    }
    search(items, start)
}
