//! Reading to the end of input.

ghost use Rattle.std.specs.Prelude.{◌≡◌, ◌≤◌, OnOk};
ghost use Rattle.std.specs.Io.KnownBytes.{IsAtEnd};
ghost use Rattle.ev_io.specs.Causes.{Rose};
ghost use Rattle.ev_io.specs.Ends.{Takes};

use crate::failed::Failed;
use crate::source::Source;
use ev_base::Seq;
use std::alloc::Global;

/// Why a read of all bytes ended before the end of input.
#[derive(Clone, Copy)]
pub enum ReadEnd {
    /// The source failed.
    Failed,
    /// One byte more than the limit was taken.
    TooLong,
    /// Want of memory.
    Memory,
}

/// How many bytes are asked for at once, at most.
const ROOM: usize = 4096;

/// Reads to the end of input. Where there are more than `limit` bytes it takes `limit + 1` of them and ends with `TooLong`.
/// Each turn takes at least one byte or ends.
pub fn read_all<S: Source>(alloc: Global, src: &mut S, limit: u32) -> Result<Seq<u8>, ReadEnd>
    ensures taken { Takes limit (S.left src.old) (S.left src.new) result }
    ensures end { OnOk result (IsAtEnd (S.left src.new)) }
    ensures failed { result ≡ Err ReadEnd.Failed → Rose (S.faults src.old) (S.faults src.new) }
    ensures later { S.faults src.old ≤ S.faults src.new }
{
    let most = limit as usize;
    let mut bytes: Vec<u8> = Vec::new(alloc);
    let mut room = [0u8; ROOM];
    'reading: loop {
        let free = (most + 1 - bytes.len()).min(ROOM);
        match src.take(&mut room[..free]) {
            Err(Failed) => return Err(ReadEnd::Failed),
            Ok(count) => {
                if count == 0 {
                    return Ok(Seq::of(bytes));
                }
                if bytes.len() + count > most {
                    return Err(ReadEnd::TooLong);
                }
                if bytes.extend_from_slice(&room[..count]).is_err() {
                    return Err(ReadEnd::Memory);
                }
            }
        }
    }
}
