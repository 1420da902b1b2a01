//! In how many equations each variable is.

// The variable is in one equation more, where that is counted.
pub fn count_more(counts: &mut [usize], variable: usize) {
    if let Some(count) = counts.get_mut(variable) {
        *count = count.saturating_add(1);
    }
}

// The variable is in one equation less, where that is counted.
pub fn count_less(counts: &mut [usize], variable: usize) {
    if let Some(count) = counts.get_mut(variable) {
        *count = count.saturating_sub(1);
    }
}
