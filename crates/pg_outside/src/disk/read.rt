//! A file is read to its end, up to a limit.
ghost use Rattle.std.specs.Prelude.{◌≡◌, ◌≢◌, ◌+◌, ◌-◌, ◌^◌, ◌<◌, ◌≤◌, [], ◌++◌, take, length, OnOk, IfOk, IfErr, IsErrOf};
ghost use Rattle.pg_outside.specs.Faults.{Rose};
ghost use Rattle.pg_outside.specs.Inside.disk.Disks.{KeepsDisk, HoldsNow, HasPiece};
ghost use Rattle.pg_outside.specs.Inside.disk.Reads.{IsAllOf, IsFrontOf};

use super::system::System;
use crate::outside::ReadError;

/// How many bytes one read asks for at most.
const PIECE: usize = 65536;

/// Reads some of the next bytes into `piece`, and appends them. The answer is how many they are,
/// and 0 only at the end.
fn read_piece<S: System>(
    system: &mut S,
    file: &mut S::File,
    piece: &mut [u8],
    into: &mut Vec<u8>,
) -> Result<usize, ReadError>
    ensures same { KeepsDisk (S.told system.old) (S.told system.new) }
    ensures file { S.id file.new ≡ S.id file.old }
    ensures bound { IfOk result (λ count. count ≤ length piece.old) }
    ensures bytes { IfOk result (λ count. HoldsNow (S.told system.new)
        (HasPiece (S.id file.old) (S.at file.old)
        (S.at file.new) count (length piece.old) piece.new)) }
    ensures items { IfOk result
        (λ count. into.new.items ≡ into.old.items ++ take count piece.new) }
    ensures ok_failures { OnOk result (S.failures system.new ≡ S.failures system.old) }
    ensures long { IsErrOf result ReadError.TooLong → ⊥ }
    ensures failed { IsErrOf result ReadError.Failed
        → Rose (S.failures system.old) (S.failures system.new) }
    ensures other_failures { IfErr result
        (λ error. error ≢ ReadError.Failed → S.failures system.new ≡ S.failures system.old) }
{
    let count = match system.read_some(file, piece) {
        Ok(count) => count,
        Err(_) => return Err(ReadError::Failed),
    };
    into.extend_from_slice(&piece[..count])?;
    Ok(count)
}

/// Reads the file to its end, in pieces, and takes at most `limit + 1` bytes.
///
/// Room for that many bytes is asked for at once. Pages that are never written take no memory, and
/// so large a block is the system's again once it is freed. A smaller one that is freed would make
/// the allocator of the C library keep the large blocks of later vectors in its heap, where each
/// leaves a hole when it grows. On 100,000 German words under eight levels the holes were 3.5 MB of
/// 53. Where there is no such room, the bytes take more as they come.
pub(crate) fn read_within<S: System>(
    system: &mut S,
    file: &mut S::File,
    limit: usize,
    into: &mut Vec<u8>,
) -> Result<(), ReadError>
    requires empty { into.old.items ≡ [] }
    requires limit { limit < 2 ^ 64 - 1 }
    requires start { S.at file.old ≡ 0 }
    ensures same { KeepsDisk (S.told system.old) (S.told system.new) }
    ensures all { OnOk result ((S.failures system.new ≡ S.failures system.old)
        × (length into.new.items ≤ limit)
        × HoldsNow (S.told system.new) (IsAllOf (S.id file.old) into.new.items)) }
    ensures front { IsErrOf result ReadError.TooLong → (length into.new.items ≡ limit + 1)
        × HoldsNow (S.told system.new) (IsFrontOf (S.id file.old) limit into.new.items) }
    ensures failed { IsErrOf result ReadError.Failed
        → Rose (S.failures system.old) (S.failures system.new) }
    ensures other_failures { IfErr result
        (λ error. error ≢ ReadError.Failed → S.failures system.new ≡ S.failures system.old) }
{
    let _ = into.reserve(limit + 1);
    let mut piece = [0u8; PIECE];
    while into.len() <= limit {
        let most = (limit - into.len()).saturating_add(1).min(PIECE);
        let count = read_piece(system, file, &mut piece[..most], into)?;
        if count == 0 {
            return Ok(());
        }
    }
    Err(ReadError::TooLong)
}
