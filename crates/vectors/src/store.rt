// The octets of a case, put one after the other into one array that is lent, on no heap; how many there are stands in the case.

// One octet more behind so many; how many there are then, or none where it has no room.
pub(crate) fn put(store: &mut [u8], len: usize, octet: u8) -> Option<usize> {
    *store.get_mut(len)? = octet;
    Some(len + 1)
}

// The octets between two offsets once more, from an offset that is not before the first.
fn again(store: &mut [u8], from: usize, to: usize, at: usize) -> Option<usize> {
    let mut end = at;
    for i in from..to {
        let octet = *store.get(i)?;
        end = put(store, end, octet)?;
    }
    Some(end)
}

// The octets between two offsets so many times, the first time where they stand.
pub(crate) fn repeat(store: &mut [u8], from: usize, to: usize, times: usize) -> Option<usize> {
    let mut end = from;
    for _ in 0..times {
        end = again(store, from, to, end)?;
    }
    Some(end)
}
