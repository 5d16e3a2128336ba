//! Worked examples of frames, computed when the crate is checked.
ghost use Rattle.std.specs.Prelude.{◌≡◌, [], ◌∷◌, take, replicate, Some, None, true, false};
ghost use Rattle.disk_frame.specs.Frames.{frame_bytes, broken_rule, is_bad_count, is_bad_body, AreFrames};
ghost use Rattle.disk_frame.specs.Faults.{HaveBadFrame};
ghost use Rattle.disk_frame.specs.Segments.{header_bytes};
ghost use Rattle.disk_frame.specs.Examples.{one_edit, known_bytes, known_header, batch_of};

use crate::frame_cause::FrameCause;

/// The frame of the body `0a` at txid 2, and the header of a segment from txid 2 on under epoch 1.
pub fn known_bytes_are_spelled()
    ensures frame { frame_bytes one_edit ≡ known_bytes 165 }
    ensures header { header_bytes 2 1 ≡ known_header }
{}

/// Those bytes are one frame; with another first byte they are none.
pub fn an_open_frame_counts()
    ensures open { AreFrames 2 (known_bytes 165) ((10 ∷ []) ∷ []) 20 }
    ensures closed { AreFrames 2 (known_bytes 0) [] 0 }
    ensures nearly_open { AreFrames 2 (known_bytes 164) [] 0 }
{}

/// Without the last byte they are a bad frame.
pub fn a_cut_frame_is_short()
    ensures { HaveBadFrame 2 (take 19 (known_bytes 165)) 0 FrameCause.Short }
{}

/// The rules of a frame, at their edges and one above them.
pub fn rules_are_broken()
    ensures good { broken_rule 2 one_edit ≡ None }
    ensures none { broken_rule 2 (batch_of 3 []) ≡ Some FrameCause.Count }
    ensures most { is_bad_count 16384 ≡ false }
    ensures too_many { is_bad_count 16385 ≡ true }
    ensures empty { broken_rule 2 (batch_of 3 ([] ∷ [])) ≡ Some FrameCause.Body }
    ensures longest { is_bad_body (replicate 4096 10) ≡ false }
    ensures too_long { is_bad_body (replicate 4097 10) ≡ true }
    ensures later { broken_rule 2 (batch_of 3 ((10 ∷ []) ∷ [])) ≡ Some FrameCause.Order }
    ensures last { broken_rule 4611686018427387904 (batch_of 4611686018427387904 ((10 ∷ []) ∷ [])) ≡ None }
    ensures past { broken_rule 4611686018427387904 (batch_of 4611686018427387904 ((10 ∷ []) ∷ (11 ∷ []) ∷ [])) ≡ Some FrameCause.Order }
{}
