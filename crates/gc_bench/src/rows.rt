//! Rows of a station, appended to a file of the system.

use gc_files::{RowsFile, RowsOptions, SystemFile, end_at, open_at};
use gc_lines::{Durable, write_whole};

// What comes before the rows. A station's file has the names of the columns there; what is measured doesn't depend on them.
const HEAD: &[u8] = b"rows\n";

// The row that is appended: that of bench/appends.c.
const ROW: &[u8] =
    b"2026-11-22T23:08:00.000Z,2026-11-22T23:08:27.103Z,2026-11-22T23:08:27.123Z,1,0,7,,5003,answered,,0,0,123456,ok,1\n";

/// Appends `count` rows to the file of this path, with a sync after each where `sync` is true. It returns how many rows were
/// written whole and, with `sync`, synced: 0 where `open_at` refuses the file. At the end the file is closed as `end_at` says.
pub fn append(rt: &HostRuntime, path: &str, count: u32, sync: bool) -> u64 {
    let options = RowsOptions {
        head: HEAD,
        sign: HEAD,
        sync,
    };
    match open_at(rt, rt.alloc(), path, options) {
        Ok((mut rows, _)) => {
            let sum = append_to(&mut rows, count);
            end_at(rt, rt.alloc(), path, rows);
            sum
        }
        Err(_) => 0,
    }
}

// Appends `count` rows to an open file, and syncs it after each where it was opened with `sync`. It returns how many rows were
// written whole and, with `sync`, synced.
fn append_to(rows: &mut RowsFile<SystemFile>, count: u32) -> u64 {
    let mut sum = 0u64;
    for _ in 0..count {
        if write_whole(rows, ROW).is_ok() && rows.sync().is_ok() {
            sum = sum.wrapping_add(1);
        }
    }
    sum
}
