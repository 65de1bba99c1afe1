//! What a line says besides what it settles: whether it is a reply, and whether it calls for another synchronization.

ghost use Rattle.std.specs.Prelude.{◌≡◌, ℕ, List, map};
ghost use Rattle.gc_catalogue.specs.declared.asked.Asked.{Asked};
ghost use Rattle.gc_client.specs.Hearing.{HearsInto};
ghost use Rattle.gc_client.specs.Rule.{ById};
ghost use Rattle.gc_client.specs.Settlements.{settlement_seen};
ghost use Rattle.gc_client.specs.declared.settlement.Settlement.{Settlement};
ghost use Rattle.gc_session.specs.Lines.{calls_for_renewal, ends_with_table, is_reply, raises_doubt};

use gc_catalogue::Asked;
use gc_client::{Client, Hearing, Settlement, SlotsOf};
use gc_lines::read_reply;
use gc_texts::{is_impossible, is_sign_on};

/// Whether a line reads as a reply.
pub fn is_reply(line: &[u8]) -> bool
    ensures { result ≡ is_reply line.now }
{
    read_reply(line).is_ok()
}

/// Whether the line that the client heard was a reply.
pub fn heard_reply(hearing: Hearing) -> bool
    ensures { (old new : ById Asked) (line : List ℕ) (settlements : List (Settlement Asked)) → HearsInto old line hearing settlements new → result ≡ is_reply line }
{
    match hearing {
        Hearing::Settled => true,
        Hearing::Stray => true,
        Hearing::Unread(_) => false,
    }
}

/// Whether a line raises a doubt, as this client hears it: it is a reply with an id, and a stray that can't repeat the one that settled
/// last.
pub fn raises_doubt(client: &Client<SlotsOf<Asked>>, line: &[u8]) -> bool
    ensures { result ≡ raises_doubt client.now.ids line.now }
{
    match read_reply(line) {
        Ok(reply) => is_impossible(client.next_id(), client.waiting(), reply.id),
        Err(_) => false,
    }
}

/// Whether nothing may be sent any more before the next synchronization once this client heard a line: the line raises a doubt, or has a
/// sign-on in it.
pub fn calls_for_renewal(client: &Client<SlotsOf<Asked>>, line: &[u8]) -> bool
    ensures { result ≡ calls_for_renewal client.now.ids line.now }
{
    raises_doubt(client, line) || is_sign_on(line)
}

// Whether the last of these settlements is of a call of the table; `false` if there is none.
pub(crate) fn ends_with_table(settlements: &[Settlement<Asked>]) -> bool
    ensures { result ≡ ends_with_table (map settlement_seen settlements.now) }
{
    match settlements.last() {
        Some(settlement) => settlement.call.is_of_table(),
        None => false,
    }
}
