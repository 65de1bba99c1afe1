//! Busy answers: those with a return code by which the instrument says that it is busy (`busy` of the text), unless the text accepts that
//! code. The instrument is still at work on the command then, and its reply may come later. So after such an answer nothing is asked
//! until the command's whole deadline has passed (`hold`), and then the station synchronizes anew.

ghost use Rattle.std.specs.Prelude.{◌≡◌};
ghost use Rattle.gc_station.specs.Busy.{says_busy, wait_for, busy_after};

use gc_texts::Expected;

// Whether this return code of an answer says that the instrument is busy.
fn says_busy(expected: &Expected, code: u16) -> bool
    ensures { result ≡ says_busy expected.now code }
{
    expected.busy.has(code) && !expected.accepted.has(code)
}

// For how many milliseconds nothing is asked after a busy answer: for the deadline of its command, but at least for one.
fn wait_for(expected: &Expected) -> u64
    ensures { result ≡ wait_for expected.now }
{
    expected.wait.max(1)
}

// The longest wait after busy answers once a command was recorded of which this is expected; `longest` before it, and 0 if there was none.
// `code` is the return code other than 0 of the reply that ended it, if there is one.
pub(crate) fn busy_after(longest: u64, expected: &Expected, code: Option<u16>) -> u64
    ensures { result ≡ busy_after longest expected.now code }
{
    match code {
        Some(code) => {
            if says_busy(expected, code) {
                longest.max(wait_for(expected))
            } else {
                longest
            }
        }
        None => longest,
    }
}
