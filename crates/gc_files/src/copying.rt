//! A synced copy of a file of rows: after a sync of the file failed, further rows go into the copy.

ghost use Rattle.std.specs.Prelude.{◌≡◌, ◌≤◌, length, IfOk, OnOk};
ghost use Rattle.gc_files.specs.Failing.{IsFeedCount, feeds};
ghost use Rattle.gc_files.specs.Files.{IsKeptFile};
ghost use Rattle.gc_files.specs.Rows.{CopiesAll};

use crate::appending::Appending;
use crate::opening::{BLOCK, append_all, read_all};
use gc_lines::PortFailed;

// How many line feeds are among these bytes.
fn feeds_in(block: &[u8]) -> u64
    ensures is { result ≡ feeds block.now }
    ensures within { result ≤ length block.now }
{
    block.iter().filter(|byte| **byte == b'\n').count() as u64
}

/// Appends all that `old` holds to `fresh`, syncs `fresh`, and returns how many lines were copied, each ended by a line feed.
/// It fails where a call of a file failed, where a read gave nothing although `old` was longer, or where `fresh` is in doubt;
/// a front of what `old` holds, or all of it, may have been appended to `fresh` then. `old` is as it was.
pub fn copy_lines<F: Appending, G: Appending>(old: &F, fresh: &mut G) -> Result<u64, PortFailed>
    ensures copied { OnOk result (CopiesAll (F.life old.now) (G.life fresh.old) (G.life fresh.new)) }
    ensures kept { OnOk result (IsKeptFile (G.life fresh.new)) }
    ensures lines { IfOk result (λ lines. IsFeedCount (F.life old.now) lines) }
{
    let len = old.len()?;
    let mut buf = [0u8; BLOCK];
    let mut at = 0u64;
    let mut lines = 0u64;
    while at < len {
        let size = (len - at).min(BLOCK as u64) as usize;
        let block = &mut buf[..size];
        read_all(old, at, block)?;
        append_all(fresh, block)?;
        lines += feeds_in(block);
        at += size as u64;
    }
    if fresh.is_doubted() {
        return Err(PortFailed);
    }
    fresh.sync()?;
    Ok(lines)
}
