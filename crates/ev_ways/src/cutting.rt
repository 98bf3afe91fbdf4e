//! Frames are cut out of bytes.

ghost use Rattle.std.specs.Prelude.{◌≡◌, ◌<◌, ◌≤◌, ◌^◌, IfOk, IfSome, IsNone, OnErr, drop, length, take};
ghost use Rattle.std.specs.Int.{w64, to_le_bytes};
ghost use Rattle.ev_ways.specs.Streams.{AreCut, IsFront, IsUnfinished};

use ev_base::{Memory, Seq};
use std::alloc::Global;
use std::collections::VecDeque;

/// What stands in front of a frame: its length.
pub(crate) fn length_bytes(frame: &[u8]) -> [u8; 8]
    ensures spelled { result ≡ to_le_bytes w64 (length frame.now) }
    ensures fits { length frame.now < 2 ^ 64 }
{
    (frame.len() as u64).to_le_bytes()
}

/// The frame in front of these bytes, and what stands behind it. None where it has not come whole.
fn first_frame(bytes: &[u8]) -> Option<(&[u8], &[u8])>
    ensures found { IfSome result (λ x. IsFront bytes.now x.0.now x.1.now) }
    ensures none { IsNone result → IsUnfinished bytes.now }
{
    let length = bytes.first_chunk::<8>()?;
    let length = u64::from_le_bytes(*length);
    let (_, rest) = bytes.split_at(8);
    if (rest.len() as u64) < length {
        return None;
    }
    Some(rest.split_at(length as usize))
}

/// Adds the whole frames in front of these bytes, in order. The answer is how many bytes they take up. A refusal leaves the frames that
/// were there in front of others.
pub(crate) fn cut_frames(
    alloc: Global,
    frames: &mut VecDeque<Seq<u8>>,
    bytes: &[u8],
) -> Result<usize, Memory>
    ensures within { IfOk result (λ count. count ≤ length bytes.now) }
    ensures cut { IfOk result (λ count. AreCut frames.old.items bytes.now frames.new.items (drop count bytes.now)) }
    ensures unfinished { IfOk result (λ count. IsUnfinished (drop count bytes.now)) }
    ensures err { OnErr result (take (length frames.old.items) frames.new.items ≡ frames.old.items) }
{
    let mut rest = bytes;
    while let Some((frame, behind)) = first_frame(rest) {
        frames.push_back(Seq::of(Vec::from_slice(alloc, frame)?))?;
        rest = behind;
    }
    Ok(bytes.len() - rest.len())
}

/// Takes so many bytes away in front.
#[tactic(auto, using(std::proofs::lemmas::List::drop_all))]
pub(crate) fn take_away(bytes: &mut Vec<u8>, count: usize)
    requires { count ≤ length bytes.old.items }
    ensures { bytes.new.items ≡ drop count bytes.old.items }
{
    let left = bytes.len() - count;
    if left == 0 {
        bytes.clear();
        return;
    }
    bytes.rotate_left(count);
    bytes.truncate(left);
}
