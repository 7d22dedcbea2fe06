/// The bytes of a page by its fields: the name of each, its offset, and its bytes, lowest first.
pub type Fields<'a> = &'a [(&'a str, usize, &'a [u8])];

// What the fields have at an offset, which is zero where there is none.
fn byte_at(fields: Fields<'_>, at: usize) -> u8 {
    for (_name, start, bytes) in fields.iter() {
        if at >= *start && at - *start < bytes.len() {
            return bytes[at - *start];
        }
    }
    0
}

/// The offset of the first byte of a page that is another than its fields have. What no field names is
/// zero.
pub fn first_wrong(page: &[u8], fields: Fields<'_>) -> Option<usize> {
    for (at, byte) in page.iter().enumerate() {
        if *byte != byte_at(fields, at) {
            return Some(at);
        }
    }
    None
}

// A byte of a list of the numbers from `first` on, so many of them, of four bytes each.
fn counted(first: u32, count: usize, at: usize) -> u8 {
    if at / 4 >= count {
        return 0;
    }
    let number = at / 4 + first as usize;
    match at % 4 {
        0 => (number % 256) as u8,
        1 => (number / 256 % 256) as u8,
        _ => 0,
    }
}

/// The offset of the first byte of a page that isn't the list of the NSIDs from `first` on, so many of
/// them, with zeros after them. The NSIDs are below 65,536.
pub fn first_uncounted(page: &[u8], first: u32, count: usize) -> Option<usize> {
    for (at, byte) in page.iter().enumerate() {
        if *byte != counted(first, count, at) {
            return Some(at);
        }
    }
    None
}
