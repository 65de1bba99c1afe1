//! The text of an answer: the line at its front, and after it the items of its parameters, each where its place says.

ghost use Rattle.std.specs.Prelude.{◌≤◌, ◌+◌, length};
ghost use Rattle.arrayvec.specs.ArrayVec.{array_vec_len};
ghost use Rattle.geocom_c.specs.Rooms.{KeepsLength};
ghost use Rattle.geocom_c.specs.FirstAre.{FirstAre};
ghost use Rattle.geocom_c.specs.Settled.{IsListingOf, ListsItems, StandsAt};
ghost use Rattle.gc_station.specs.Records.{Grew};
ghost use Rattle.gc_values.specs.Params.{total_length};
ghost use Rattle.geocom_c.specs.declared.header.TheConstants.{TEXT_ROOM};

use crate::header::TEXT_ROOM;
use arrayvec::ArrayVec;
use gc_lines::{Line, append, read_reply};
use gc_values::{Items, MOST_ITEMS, split};

/// Where an item is in a text, and its length, in bytes.
#[repr(C)]
#[derive(Clone, Copy)]
pub struct GeocomItem {
    pub offset: u16,
    pub length: u16,
}

/// The place of an item that isn't there.
pub(crate) const NOWHERE: GeocomItem = GeocomItem {
    offset: 0,
    length: 0,
};

// The text of an answer: its line, and the items of its parameters after it; how many items these are, and where each is in
// `text`.
#[derive(Drop)]
pub(crate) struct ListedLine {
    pub text: ArrayVec<u8, TEXT_ROOM>,
    pub items: u16,
    pub places: [GeocomItem; MOST_ITEMS],
}

// Appends items to a text, and writes into `places` where each is.
fn put_items(text: &mut ArrayVec<u8, TEXT_ROOM>, places: &mut [GeocomItem], items: &Items<'_>)
    requires few { length items.now ≤ length places.old }
    requires room { array_vec_len text.old + total_length items.now ≤ TEXT_ROOM }
    ensures front { Grew text.old.items text.new.items }
    ensures places { FirstAre (StandsAt text.new.items) places.new items.now }
    ensures length { KeepsLength places.old places.new }
{
    for k in 0..items.len() {
        let item = items.get(k);
        places[k] = GeocomItem {
            offset: text.len() as u16,
            length: item.len() as u16,
        };
        append(text, item);
    }
}

// Appends the items of parameters, if these are a list of at most 16 items, and notes how many there are and where each is. Of
// other parameters nothing is appended.
fn list(told: &mut ListedLine, params: &[u8])
    requires { array_vec_len told.old.text + length params.now ≤ TEXT_ROOM }
    ensures front { Grew told.old.text.items told.new.text.items }
    ensures listed { ListsItems told.new.text.items told.new.items told.new.places params.now }
{
    match split(params) {
        Ok(items) => {
            put_items(&mut told.text, &mut told.places, &items);
            told.items = items.len() as u16;
        }
        Err(_) => {}
    }
}

// The text of a line: the line, and after it the items of its parameters, if it is a reply whose parameters are a list of at most
// 16 items; otherwise no items.
pub(crate) fn list_line(line: &Line) -> ListedLine
    ensures { IsListingOf result line.now.items }
{
    let mut told = ListedLine {
        text: ArrayVec::new(),
        items: 0,
        places: [NOWHERE; MOST_ITEMS],
    };
    append(&mut told.text, line);
    match read_reply(line) {
        Ok(reply) => {
            list(&mut told, reply.params);
            told
        }
        Err(_) => told,
    }
}
