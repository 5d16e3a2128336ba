//! The times of the round that is under way.
ghost use Rattle.std.specs.Prelude.{◌≡◌, None, false};
ghost use Rattle.pipe_waits.specs.Waits.{left_of, round_left, node_left};

/// For how many microseconds a caller waits for the others once replies of a majority are there, and
/// for a node to open its ends.
const MORE: u64 = 200_000;

/// The times of the round that is under way, in microseconds of the clock. A request that is written
/// after a reply was waited for begins another round.
#[derive(Clone, Copy)]
pub(crate) struct Round {
    // for how long the replies of a round are waited for
    limit: u64,
    // when its last request was written
    asked: u64,
    // from when on replies of a majority were there
    agreed: Option<u64>,
    // whether replies are being waited for
    is_heard: bool,
}

/// What is left now of a limit that began then.
fn left_of(limit: u64, begun: u64, now: u64) -> u64
    ensures { result ≡ left_of limit begun now }
{
    limit.saturating_sub(now.saturating_sub(begun))
}

impl Round {
    /// Before the first request.
    pub(crate) fn new(limit: u64) -> Round
        ensures limit { result.limit ≡ limit }
    {
        Round {
            limit,
            asked: 0,
            agreed: None,
            is_heard: true,
        }
    }

    /// Notes that a request is written now; whether it begins another round.
    pub(crate) fn ask(&mut self, now: u64) -> bool
        ensures begins { result ≡ self.old.is_heard }
        ensures time { self.new.asked ≡ now }
        ensures same { self.new.limit ≡ self.old.limit }
        ensures going { self.new.is_heard ≡ false }
    {
        let begins = self.is_heard;
        if begins {
            self.agreed = None;
        }
        self.is_heard = false;
        self.asked = now;
        begins
    }

    /// Notes that replies are being waited for.
    pub(crate) fn hear(&mut self) {
        self.is_heard = true;
    }

    /// Whether it isn't known yet that replies of a majority are there.
    pub(crate) fn is_open(&self) -> bool {
        self.agreed.is_none()
    }

    /// Notes that replies of a majority are there now.
    pub(crate) fn agree(&mut self, now: u64) {
        self.agreed = Some(now);
    }

    /// What is left of the round now.
    fn left(&self, now: u64) -> u64
        ensures { result ≡ round_left self.now.limit self.now.asked self.now.agreed now }
    {
        let left = left_of(self.limit, self.asked, now);
        match self.agreed {
            Some(agreed) => left.min(left_of(MORE, agreed, now)),
            None => left,
        }
    }

    /// What is left now for a node, whose ends are open or aren't.
    pub(crate) fn left_for(&self, is_open: bool, now: u64) -> u64
        ensures { result ≡ node_left self.now.limit self.now.asked self.now.agreed is_open now }
    {
        let left = self.left(now);
        if is_open {
            left
        } else {
            left.min(left_of(MORE, self.asked, now))
        }
    }
}
