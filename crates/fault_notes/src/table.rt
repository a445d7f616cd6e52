// Tables: what each of their keys stands for.

/// What stands beside a key in a table.
pub(crate) fn beside<K: Copy + PartialEq, T: Copy>(key: K, table: &[(K, T)]) -> Option<T> {
    for (known, meaning) in table {
        if *known == key {
            return Some(*meaning);
        }
    }
    None
}
