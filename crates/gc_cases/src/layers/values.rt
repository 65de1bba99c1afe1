//! Rows of values: lists of parameters, decimals, and items by their kinds.

ghost use Rattle.std.specs.Prelude.{◌≤◌};

use gc_probes::{Row, Rows, Told, cut_word};
use gc_values::{
    Decimal, Items, Kind, Text, Value, ValueFault, read_bool, read_byte, read_long, read_text,
    read_whole, split, write_byte, write_text,
};
use std::fmt;

/// What plays these rows. Nothing is kept from row to row.
#[derive(Drop)]
pub struct Values;

impl Rows for Values {
    // Plays a row: the word says what is read or done, and the rest of the row is an item (its bytes), or numbers.
    fn play(&mut self, row: Row<'_>, came: &mut Told) {
        match row.word {
            "split" => split_list(row.bytes, came),
            "decimal" => tell_read(Decimal::read(row.bytes), came),
            "new" => new_decimal(row.what, came),
            "compare" => compare(row.what, came),
            "round" => round(row.what, came),
            "within" => within(row.what, came),
            "whole" => read_whole_number(row.what, came),
            "long" => tell_read(read_long(row.bytes), came),
            "write_byte" => tell_byte_item(row.what, came),
            "write_text" => tell_text_item(row.bytes, came),
            word => play_item(word, row.bytes, came),
        }
    }
}

// Reads an item as the word says, and reports its value or the fault. If the word is the name of a kind (`kind_of`), the value
// is reported by the text that is written of it (`read_as_named`).
fn play_item(word: &str, item: &[u8], came: &mut Told) {
    match word {
        "byte" => tell_read(read_byte(item), came),
        "bool" => tell_read(read_bool(item), came),
        "text" => tell_text(read_text(item), came),
        "string" => tell_text(Text::new(item), came),
        _ => read_as_named(word, item, came),
    }
}

// Reports the value that was read, or the fault.
fn tell_read<T: fmt::Display + Drop>(read: Result<T, ValueFault>, came: &mut Told) {
    match read {
        Ok(value) => came.display(&value),
        Err(fault) => came.debug(&fault),
    }
}

// Reports the items of a list, or the fault.
fn split_list(list: &[u8], came: &mut Told) {
    match split(list) {
        Ok(items) => tell_items(&items, came),
        Err(fault) => came.debug(&fault),
    }
}

// Reports how many items there are, and each in angle brackets.
fn tell_items(items: &Items<'_>, came: &mut Told) {
    came.counted(&items.len(), " items");
    for k in 0..items.len() {
        came.text(" <");
        came.bytes(items.get(k));
        came.text(">");
    }
}

// The decimals of two words. `None`: a word is no decimal.
fn two_decimals(words: &str) -> Option<(Decimal, Decimal)> {
    let (first, second) = cut_word(words);
    let first = Decimal::read(first.as_bytes()).ok()?;
    let second = Decimal::read(second.as_bytes()).ok()?;
    Some((first, second))
}

// Makes a decimal of two words, its digits and its scale, and reports both as the decimal has them, and its text; or the fault.
fn new_decimal(words: &str, came: &mut Told) {
    let (digits, scale) = cut_word(words);
    match Decimal::new(came.number_in(digits), came.number_in(scale)) {
        Ok(decimal) => tell_parts(&decimal, came),
        Err(fault) => came.debug(&fault),
    }
}

// Reports a decimal's digits, its scale and its text.
fn tell_parts(decimal: &Decimal, came: &mut Told) {
    came.titled("digits ", &decimal.digits());
    came.titled(" scale ", &decimal.scale());
    came.titled(" text ", decimal);
}

// Reports how the decimals of two words compare, or that a word is no decimal.
fn compare(words: &str, came: &mut Told) {
    match two_decimals(words) {
        Some((first, second)) => came.debug(&first.cmp(&second)),
        None => came.text("no two decimals"),
    }
}

// Reports the decimal that the second word is, rounded to as many places as the first word says, at most 24; or the fault.
fn round(words: &str, came: &mut Told) {
    let (places, text) = cut_word(words);
    match Decimal::read(text.as_bytes()) {
        Ok(decimal) => {
            let places = came.number_in::<u8>(places).min(24);
            round_to(&decimal, places, came)
        }
        Err(fault) => came.debug(&fault),
    }
}

// Reports the text of a decimal rounded to this many places.
fn round_to(decimal: &Decimal, places: u8, came: &mut Told)
    requires { places ≤ 24 }
{
    came.bytes(decimal.round(places).write().as_slice());
}

// Reports whether the decimal of the first word differs from that of the second by at most that of the third; or that a word is
// no decimal.
fn within(words: &str, came: &mut Told) {
    let (value, rest) = cut_word(words);
    match (Decimal::read(value.as_bytes()), two_decimals(rest)) {
        (Ok(value), Some((other, area))) => came.display(&value.within(&other, &area)),
        _ => came.text("no three decimals"),
    }
}

// Reads the second word as a whole number of at most the first word, and reports the number or the fault.
fn read_whole_number(words: &str, came: &mut Told) {
    let (most, item) = cut_word(words);
    let most = came.number_in(most);
    tell_read(read_whole(item.as_bytes(), most), came);
}

// Reports the item that is written of the byte whose number this word writes, and then the byte that is read of that item.
fn tell_byte_item(word: &str, came: &mut Told) {
    let item = write_byte(came.number_in(word));
    came.bytes(item.as_slice());
    came.text(" ");
    tell_read(read_byte(item.as_slice()), came);
}

// Reports the item that is written of a string of these bytes, and then the string that is read of that item; or the fault for
// which they are no string.
fn tell_text_item(bytes: &[u8], came: &mut Told) {
    match Text::new(bytes) {
        Ok(text) => tell_written_text(&text, came),
        Err(fault) => came.debug(&fault),
    }
}

// Reports the item that is written of a string, and then the string that is read of that item.
fn tell_written_text(text: &Text, came: &mut Told) {
    let item = write_text(text);
    came.bytes(item.as_slice());
    came.text(" ");
    tell_text(read_text(item.as_slice()), came);
}

// Reports the string that was read, or the fault.
fn tell_text(read: Result<Text, ValueFault>, came: &mut Told) {
    match read {
        Ok(text) => tell_string_bytes(&text, came),
        Err(fault) => came.debug(&fault),
    }
}

// Reports how many bytes a string has, these bytes, and, if it is so, that it equals the empty one.
fn tell_string_bytes(text: &Text, came: &mut Told) {
    came.counted(&text.as_bytes().len(), " bytes ");
    came.bytes(text.as_bytes());
    came.text_if(*text == Text::empty(), "as the empty one");
}

// The kind of this name. `None`: no kind has it.
fn kind_of(word: &str) -> Option<Kind> {
    match word {
        "Double" => Some(Kind::Double),
        "Long" => Some(Kind::Long),
        "Short" => Some(Kind::Short),
        "Byte" => Some(Kind::Byte),
        "Bool" => Some(Kind::Bool),
        "Text" => Some(Kind::Text),
        _ => None,
    }
}

// Reads an item as a value of the kind that the word names, and reports the text that is written of the value, or the fault; or
// that no kind has this name.
fn read_as_named(word: &str, item: &[u8], came: &mut Told) {
    match kind_of(word) {
        Some(kind) => read_as(kind, item, came),
        None => came.text("an unknown word"),
    }
}

// Reads an item as a value of this kind, and reports its text, or the fault.
fn read_as(kind: Kind, item: &[u8], came: &mut Told) {
    match Value::read(kind, item) {
        Ok(value) => came.bytes(value.write().as_slice()),
        Err(fault) => came.debug(&fault),
    }
}
