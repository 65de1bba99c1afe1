//! Reads a whole text into memory. The limit on the length of a text is defined here.

ghost use Rattle.std.specs.Prelude.{◌≡◌, ◌+◌, ◌<◌, ◌≤◌, false, Err, OnOk, IfOk, IfErr};
ghost use Rattle.gc_texts.specs.declared.fault.RunFault.{RunFault};
ghost use Rattle.gc_texts.specs.declared.text.TheConstants.{TEXT_LIMIT};
ghost use Rattle.gc_texts.specs.Texts.{FailsAtRead};
ghost use Rattle.gc_texts.specs.WholeTexts.{IsReadToEnd, ReadsNoText, ReadsText, input_of};

use crate::fault::RunFault;
use gc_lines::Source;
use std::alloc::Global;

/// The greatest length of a text that is read whole, in bytes.
pub const TEXT_LIMIT: usize = 65536;

/// Reads a source until its input ends, and returns the bytes. At most 65,537 bytes are read.
///
/// Fails with `Read` if the source failed, with `InputTooLong` if it gave more than 65,536 bytes, and with `Memory` if memory was
/// refused for the bytes that a read gave.
pub fn read_text<S: Source>(alloc: Global, source: &mut S) -> Result<Vec<u8>, RunFault>
    ensures found { IfOk result (λ text. ReadsText (input_of S.Source source.old) (input_of S.Source source.new) text.items) }
    ensures whole { OnOk result (IsReadToEnd (input_of S.Source source.old) (input_of S.Source source.new)) }
    ensures fault { IfErr result (λ e. ReadsNoText (input_of S.Source source.old) (input_of S.Source source.new) e) }
    ensures memory { result ≡ Err RunFault.Memory → (S.ended source.new ≡ false) × (S.reads source.old < S.reads source.new) }
    ensures bounded { S.reads source.new ≤ S.reads source.old + (TEXT_LIMIT + 1) }
    ensures failed { FailsAtRead (S.failed source.old) (S.failed source.new) result }
{
    let mut text = Vec::new(alloc);
    let mut buf = [0u8; 4096];
    loop {
        let room = (TEXT_LIMIT + 1 - text.len()).min(4096);
        let piece = &mut buf[..room];
        match source.read(piece) {
            Ok(0) => return Ok(text),
            Ok(n) => {
                if n > TEXT_LIMIT - text.len() {
                    return Err(RunFault::InputTooLong);
                }
                if text.extend_from_slice(&piece[..n]).is_err() {
                    return Err(RunFault::Memory);
                }
            }
            Err(_) => return Err(RunFault::Read),
        }
    }
}
