//! Doubles of twelve digits, read and written.

use gc_values::Decimal;

// The texts that are read in turn, each of twelve digits.
const TEXTS: [&[u8]; 4] = [
    b"1234.56789012",
    b"5.12345678901",
    b"0.98765432109",
    b"-27182.8182845",
];

/// Reads `count` doubles, those of `TEXTS` in turn, and returns the sum of their scales.
pub fn read(count: u32) -> u64 {
    let mut sum = 0u64;
    for n in 0..count {
        if let Ok(decimal) = Decimal::read(TEXTS[n as usize % 4]) {
            sum = sum.wrapping_add(u64::from(decimal.scale()));
        }
    }
    sum
}

/// Writes `count` doubles, those of `TEXTS` in turn, and returns the sum of the lengths of their texts.
pub fn write(count: u32) -> u64 {
    let decimals = &[
        Decimal::literal(123_456_789_012, 8),
        Decimal::literal(512_345_678_901, 11),
        Decimal::literal(98_765_432_109, 11),
        Decimal::literal(-271_828_182_845, 7),
    ][..];
    let mut sum = 0u64;
    for n in 0..count {
        sum = sum.wrapping_add(decimals[n as usize % 4].write().len() as u64);
    }
    sum
}
