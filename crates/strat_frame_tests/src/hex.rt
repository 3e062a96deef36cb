//! Bytes as hexadecimal digits.

use std::alloc::Global;
use strat_base::NoMemory;

/// The bytes that hexadecimal digits tell; whatever else stands between them is passed over.
pub(crate) fn hex(alloc: Global, digits: &str) -> Result<Vec<u8>, NoMemory> {
    let mut bytes = Vec::new(alloc);
    let mut high = None;
    for digit in digits.bytes() {
        let half = match digit {
            b'0'..=b'9' => digit - b'0',
            b'a'..=b'f' => digit - b'a' + 10,
            _ => continue,
        };
        match high {
            None => high = Some(half << 4),
            Some(first) => {
                bytes.push(first | half)?;
                high = None;
            }
        }
    }
    Ok(bytes)
}
