//! Laws of frames and of the bytes of a segment file.
ghost use Rattle.std.specs.Prelude.{◌≡◌, ◌⊎◌, ◌+◌, ◌≤◌, ◌++◌, [], List, ℕ, length, take, None};
ghost use Rattle.base_words.specs.Fields.{IsBytes};
ghost use Rattle.journal_core.specs.Views.{BatchView};
ghost use Rattle.disk_frame.specs.declared.frame_cause.FrameCause.{FrameCause};
ghost use Rattle.disk_frame.specs.Frames.{frame_bytes, broken_rule, IsTail, AreFrames};
ghost use Rattle.disk_frame.specs.Faults.{HaveBadFrame};
ghost use Rattle.disk_frame.specs.Segments.{header_bytes, HasHeader, IsSegmentFile, HasBadSegmentFrame};

/// The frame of a batch that breaks no rule is read back as the batch, whatever tail follows.
pub fn frame_is_read_back()
    ensures { (b : BatchView) (tail : List ℕ) → broken_rule b.first b ≡ None → IsTail tail
        → AreFrames b.first (frame_bytes b ++ tail) b.bodies (length (frame_bytes b)) }
{}

/// A frame that is put where the frames end adds its bodies, and nothing else changes. What stands
/// in a tail has no part in it.
pub fn frames_go_on()
    ensures frame { (first : ℕ) (bytes : List ℕ) (bodies : List (List ℕ)) (whole_length : ℕ) (b : BatchView) (tail : List ℕ)
        → AreFrames first bytes bodies whole_length → broken_rule (first + length bodies) b ≡ None → IsTail tail
        → AreFrames first (take whole_length bytes ++ (frame_bytes b ++ tail)) (bodies ++ b.bodies) (whole_length + length (frame_bytes b)) }
    ensures tail { (first : ℕ) (bytes : List ℕ) (bodies : List (List ℕ)) (whole_length : ℕ) (tail : List ℕ)
        → AreFrames first bytes bodies whole_length → IsTail tail → AreFrames first (take whole_length bytes ++ tail) bodies whole_length }
{}

/// Bytes stand for one list of bodies or have one first fault, and never both.
pub fn bytes_have_one_answer()
    ensures some { (first : ℕ) (bytes : List ℕ) → IsBytes bytes
        → ((bodies : List (List ℕ)) × (whole_length : ℕ) × AreFrames first bytes bodies whole_length) ⊎ ((place : ℕ) × (cause : FrameCause) × HaveBadFrame first bytes place cause) }
    ensures value { (first : ℕ) (bytes : List ℕ) (bodies others : List (List ℕ)) (end last : ℕ)
        → AreFrames first bytes bodies end → AreFrames first bytes others last → (bodies ≡ others) × (end ≡ last) }
    ensures fault { (first : ℕ) (bytes : List ℕ) (place other : ℕ) (c d : FrameCause)
        → HaveBadFrame first bytes place c → HaveBadFrame first bytes other d → (place ≡ other) × (c ≡ d) }
    ensures either { (first : ℕ) (bytes : List ℕ) (bodies : List (List ℕ)) (end place : ℕ) (cause : FrameCause)
        → AreFrames first bytes bodies end → HaveBadFrame first bytes place cause → ⊥ }
{}

/// A header and a tail are a segment file without bodies; a frame that is put where the frames end
/// adds its bodies; what stands in a tail has no part in it.
pub fn segments_go_on()
    ensures new { (start epoch : ℕ) (tail : List ℕ) → 1 ≤ start → start ≤ 4611686018427387904 → 1 ≤ epoch → epoch ≤ 4611686018427387904 → IsTail tail
        → IsSegmentFile (header_bytes start epoch ++ tail) start epoch [] 24 }
    ensures frame { (bytes : List ℕ) (start epoch : ℕ) (bodies : List (List ℕ)) (whole_length : ℕ) (b : BatchView) (tail : List ℕ)
        → IsSegmentFile bytes start epoch bodies whole_length → broken_rule (start + length bodies) b ≡ None → IsTail tail
        → IsSegmentFile (take whole_length bytes ++ (frame_bytes b ++ tail)) start epoch (bodies ++ b.bodies) (whole_length + length (frame_bytes b)) }
    ensures tail { (bytes : List ℕ) (start epoch : ℕ) (bodies : List (List ℕ)) (whole_length : ℕ) (tail : List ℕ)
        → IsSegmentFile bytes start epoch bodies whole_length → IsTail tail → IsSegmentFile (take whole_length bytes ++ tail) start epoch bodies whole_length }
{}

/// The bytes of a segment file with a header are one in one way, or have one first bad frame, and
/// never both.
pub fn segments_have_one_answer()
    ensures some { (bytes : List ℕ) (start epoch : ℕ) → IsBytes bytes → HasHeader bytes start epoch
        → ((bodies : List (List ℕ)) × (whole_length : ℕ) × IsSegmentFile bytes start epoch bodies whole_length) ⊎ ((place : ℕ) × (cause : FrameCause) × HasBadSegmentFrame bytes start epoch place cause) }
    ensures value { (bytes : List ℕ) (start start' epoch epoch' : ℕ) (bodies others : List (List ℕ)) (end last : ℕ)
        → IsSegmentFile bytes start epoch bodies end → IsSegmentFile bytes start' epoch' others last
        → (start ≡ start') × (epoch ≡ epoch') × (bodies ≡ others) × (end ≡ last) }
    ensures fault { (bytes : List ℕ) (start start' epoch epoch' place other : ℕ) (c d : FrameCause)
        → HasBadSegmentFrame bytes start epoch place c → HasBadSegmentFrame bytes start' epoch' other d → (place ≡ other) × (c ≡ d) }
    ensures either { (bytes : List ℕ) (start start' epoch epoch' : ℕ) (bodies : List (List ℕ)) (end place : ℕ) (cause : FrameCause)
        → IsSegmentFile bytes start epoch bodies end → HasBadSegmentFrame bytes start' epoch' place cause → ⊥ }
{}
