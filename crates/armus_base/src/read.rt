// Reading a source to its end.
ghost use Rattle.armus_base.specs.calls.ReadAll.{ReadsAll, TellsFault};

use crate::{List, ReadEnd, Source};
use std::alloc::Global;

// How many bytes one read asks for at most.
const PIECE: usize = 4096;

/// All bytes of the source, at most `limit`. Fault comes only where the source's count of faults rose in this call, and TooLong exactly where the
/// source gave more than `limit` bytes; the rest is then unread. After each refusal some first bytes of the source were read.
pub fn read_all<S: Source>(alloc: Global, src: &mut S, limit: usize) -> Result<List<u8>, ReadEnd>
    ensures bytes { ReadsAll (S.left src.old) (S.left src.new) limit result }
    ensures told { TellsFault (S.faults src.old) (S.faults src.new) result }
{
    let mut bytes: Vec<u8> = Vec::new(alloc);
    let mut piece = [0u8; PIECE];
    while bytes.len() <= limit {
        let most = (limit - bytes.len()).min(PIECE - 1) + 1;
        match src.read(&mut piece[..most]) {
            Ok(0) => return Ok(List::from_vec(bytes)),
            Ok(count) => {
                if bytes.extend_from_slice(&piece[..count]).is_err() {
                    return Err(ReadEnd::NoMemory);
                }
            }
            Err(_) => return Err(ReadEnd::Fault),
        }
    }
    Err(ReadEnd::TooLong)
}
