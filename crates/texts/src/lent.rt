// The node slices that are lent, filled with numbers that no sheet can hold.

pub(crate) const LAT: i64 = 7_000_000;

pub(crate) const LON: i64 = 8_000_000;

// What element `k` of a slice holds when it is lent.
pub(crate) fn before(base: i64, k: usize) -> i64 {
    base.saturating_add((k % 1_000) as i64)
}

pub(crate) fn fill(list: &mut [i64], base: i64) {
    for (k, element) in list.iter_mut().enumerate() {
        *element = before(base, k);
    }
}
