// What memory holds before it is lent to a call. Neighbours differ, so that an item in the wrong place shows.
fn fill_by_index<T: Copy, F: Fn(usize) -> T>(memory: &mut [T], at: F)
    requires { F.IsAlwaysCallable at }
{
    for (i, item) in memory.iter_mut().enumerate() {
        *item = at(i);
    }
}

pub(crate) fn fill_bytes(bytes: &mut [u8]) {
    fill_by_index(bytes, |i| (i % 251) as u8);
}

pub(crate) fn fill_words(words: &mut [u64]) {
    fill_by_index(words, |i| i as u64);
}
