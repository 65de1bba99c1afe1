//! A file of rows is looked at before it is touched: only what begins as such a file is taken, and what a crash left of its
//! last row is cut off.

ghost use Rattle.std.specs.Prelude.{◌≡◌, ◌<◌, ◌≤◌, ◌+◌, ◌-◌, ◌^◌, ◌++◌, [], List, ℕ, length, take, drop, true, false, IfOk, IfErr, OnOk, OnErr, IsErrOf};
ghost use Rattle.gc_files.specs.declared.opening.Refused.TheVariants.{Foreign};
ghost use Rattle.gc_files.specs.Sinks.{life_in, has_failed, torn_in, steps_in, HasOptions};
ghost use Rattle.gc_files.specs.Files.{IfKnown, content};
ghost use Rattle.gc_files.specs.Extents.{IsExtentOf};
ghost use Rattle.gc_files.specs.Rows.{Fits, IsEndOfRows, IsLengthOf, IsMended, IsMendedInPart, IsTornLength, LeavesForeign, whole, Opens, OpensInPart, PutsAll, PutsFront};

use crate::appending::Appending;
use crate::rows_file::{RowsFile, RowsOptions};
use gc_lines::{PortFailed, bytes_from};
use memchr::memrchr;

// How many bytes are read at once at most.
pub(crate) const BLOCK: usize = 4096;

/// Why a file isn't opened as a file of rows.
#[derive(Clone, Copy, Debug)]
pub enum Refused {
    /// It is no file of such rows: it neither begins with the sign nor is a front of it. It was not touched.
    Foreign,
    /// A call of the file failed, a read gave nothing though bytes had to be there, or the file is in doubt. The whole rows
    /// that it held are still there. What followed them may be cut off. Where it held no whole row, a front of the head may
    /// be written. The next opening that succeeds does the rest.
    Failed,
}

// A file of which a call failed is refused with `Failed`.
impl From<PortFailed> for Refused {
    ghost use Rattle.std.specs.Prelude.{◌≡◌};
    ghost use Rattle.gc_files.specs.declared.opening.Refused.TheVariants.{Failed};

    ghost from_gives = { λ _ why. why ≡ Failed };

    fn from(_: PortFailed) -> Refused {
        Refused::Failed
    }
}

/// How far a file of rows reaches.
#[derive(Clone, Copy)]
pub(crate) struct Extent {
    /// How many bytes it holds.
    pub(crate) len: u64,
    /// How many of them its whole rows have: where the last one ends.
    pub(crate) end: u64,
}

// Fills the buffer with the file's bytes after the first `at`. It fails where a read failed or gave nothing.
pub(crate) fn read_all<F: Appending>(file: &F, at: u64, buf: &mut [u8]) -> Result<(), PortFailed>
    requires room { at + length buf.old < 2 ^ 64 }
    requires known { IfKnown (F.life file.now) (λ known. at + length buf.old ≤ length (content known)) }
    ensures { OnOk result (IfKnown (F.life file.now) (λ known. buf.new ≡ take (length buf.new) (drop at (content known)))) }
{
    let mut done = 0;
    while done < buf.len() {
        let from = at + done as u64;
        let n = file.read_at(from, &mut buf[done..])?;
        if n == 0 {
            return Err(PortFailed);
        }
        done += n;
    }
    Ok(())
}

// Whether a file of `len` bytes begins with the sign, or is a front of it. It fails where a read failed or gave nothing.
fn has_sign<F: Appending>(file: &F, len: u64, sign: &[u8]) -> Result<bool, PortFailed>
    requires { IsLengthOf (F.life file.now) len }
    ensures { IfOk result (λ is. Fits sign.now (F.life file.now) is) }
{
    let mut buf = [0u8; BLOCK];
    let mut at = 0usize;
    while at < sign.len() && (at as u64) < len {
        let rest = bytes_from(sign, at);
        let most = rest.len().min(BLOCK) as u64;
        let size = most.min(len - at as u64) as usize;
        let block = &mut buf[..size];
        read_all(file, at as u64, block)?;
        if !rest.starts_with(block) {
            return Ok(false);
        }
        at += size;
    }
    Ok(true)
}

// How many bytes a block has up to and including its last line feed; 0 without one.
pub(crate) fn whole_len(block: &[u8]) -> usize
    ensures len { result ≡ length (whole block.now) }
    ensures within { result ≤ length block.now }
{
    match memrchr(b'\n', block) {
        Some(last) => last + 1,
        None => 0,
    }
}

// Where the last whole row of a file of `len` bytes ends: after its last line feed, or at 0 without one. The blocks are read
// from the end. It fails where a read failed or gave nothing.
fn end_of_rows<F: Appending>(file: &F, len: u64) -> Result<u64, PortFailed>
    requires { IsLengthOf (F.life file.now) len }
    ensures within { IfOk result (λ end. end ≤ len) }
    ensures end { IfOk result (λ end. IsEndOfRows (F.life file.now) end) }
{
    let mut buf = [0u8; BLOCK];
    let mut end = len;
    while end > 0 {
        let size = end.min(BLOCK as u64);
        let at = end - size;
        let block = &mut buf[..size as usize];
        read_all(file, at, block)?;
        let rows = whole_len(block);
        if rows > 0 {
            return Ok(at + rows as u64);
        }
        end = at;
    }
    Ok(0)
}

// Cuts off what follows the last whole row of a file of this extent, and syncs that cut before anything is appended. Where
// nothing follows it, it does nothing. It fails where the cut or the sync failed; the file may be cut then.
fn cut_torn_row<F: Appending>(file: &mut F, extent: Extent) -> Result<(), PortFailed>
    requires { IsExtentOf (F.life file.old) extent }
    ensures ok { OnOk result (IsMended (F.life file.old) (F.life file.new)) }
    ensures err { OnErr result (IsMendedInPart (F.life file.old) (F.life file.new)) }
{
    let Extent { len, end } = extent;
    if end < len {
        file.cut(end)?;
        file.sync()?;
    }
    Ok(())
}

// Appends all of these bytes, in as many calls as the file needs. Where it fails, a front of them was appended.
pub(crate) fn append_all<F: Appending>(file: &mut F, bytes: &[u8]) -> Result<(), PortFailed>
    ensures ok { OnOk result (PutsAll (F.life file.old) (F.life file.new) bytes.now) }
    ensures err { OnErr result (PutsFront (F.life file.old) (F.life file.new) bytes.now) }
{
    let mut done = 0;
    while done < bytes.len() {
        match file.append(bytes_from(bytes, done)) {
            Ok(n) => done += n,
            Err(failed) => return Err(failed),
        }
    }
    Ok(())
}

// Makes a table of a file of this extent: cuts off what follows the last whole row, and writes the head where there is no
// whole row. Where that fails, a part of it may be done.
fn make_table<F: Appending>(file: &mut F, extent: Extent, head: &[u8]) -> Result<(), PortFailed>
    requires { IsExtentOf (F.life file.old) extent }
    ensures ok { OnOk result (Opens head.now (F.life file.old) (F.life file.new)) }
    ensures err { OnErr result (OpensInPart head.now (F.life file.old) (F.life file.new)) }
{
    cut_torn_row(file, extent)?;
    if extent.end > 0 {
        return Ok(());
    }
    append_all(file, head)
}

// The extent of a file of rows. `Foreign`: the file neither begins with the sign nor is a front of it. `Failed`: a call of the
// file failed, or a read gave nothing.
pub(crate) fn extent_of<F: Appending>(file: &F, sign: &[u8]) -> Result<Extent, Refused>
    ensures taken { OnOk result (Fits sign.now (F.life file.now) true) }
    ensures extent { IfOk result (λ extent. IsExtentOf (F.life file.now) extent) }
    ensures why { IsErrOf result Refused.Foreign → Fits sign.now (F.life file.now) false }
{
    let len = file.len()?;
    if !has_sign(file, len, sign)? {
        return Err(Refused::Foreign);
    }
    let end = end_of_rows(file, len)?;
    Ok(Extent { len, end })
}

/// Opens a file of rows: one that begins with the sign that `options` name, or that is a front of it, as an empty one is. It
/// cuts off what follows the last whole row, and writes the head into a file that is empty then. With an error it returns the
/// file, too.
///
/// A file that is in doubt is refused with `Failed`, and not touched. [`copy_lines`](crate::copy_lines) makes a copy of it
/// that isn't in doubt.
pub fn open_rows<F: Appending>(
    mut file: F,
    options: RowsOptions,
) -> Result<RowsFile<F>, (Refused, F)>
    // A file that is opened began with the sign or was a front of it; what followed its last whole row was cut off, and the
    // head was written where there was no whole row.
    ensures opened { IfOk result (λ rows. Opens options.head.now (F.life file) (life_in rows)) }
    ensures taken { OnOk result (Fits options.sign.now (F.life file) true) }
    ensures torn { IfOk result (λ rows. IsTornLength (F.life file) (torn_in rows)) }
    ensures sound { IfOk result (λ rows. has_failed rows ≡ false) }
    ensures asked { IfOk result (λ rows. HasOptions options rows) }
    ensures trusted { OnOk result (F.doubted file ≡ false) }
    ensures fresh { IfOk result (λ rows. steps_in rows ≡ []) }

    // `Foreign`: the file neither begins with the sign nor is a front of it, and was not touched.
    ensures foreign { IfErr result (λ why. why.0 ≡ Foreign → F.life why.1 ≡ F.life file) }
    ensures why { IfErr result (λ why. why.0 ≡ Foreign → Fits options.sign.now (F.life file) false) }

    // With an error the file may be mended in part. One that neither begins with the sign nor is a front of it was not
    // touched, whatever the error.
    ensures failed { IfErr result (λ why. OpensInPart options.head.now (F.life file) (F.life why.1)) }
    ensures untouched { IfErr result (λ why. LeavesForeign options.sign.now (F.life file) (F.life why.1)) }
{
    if file.is_doubted() {
        return Err((Refused::Failed, file));
    }
    let extent = match extent_of(&file, options.sign) {
        Ok(extent) => extent,
        Err(why) => return Err((why, file)),
    };
    match make_table(&mut file, extent, options.head) {
        Ok(()) => Ok(RowsFile::new(file, options, extent.len - extent.end)),
        Err(_) => Err((Refused::Failed, file)),
    }
}
