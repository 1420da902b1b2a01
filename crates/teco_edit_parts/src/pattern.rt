//! Patterns of names, as shells have them.

// What comes of the first part of a pattern on a name.
enum PatternStep<'p, 'n> {
    /// It matches, and these parts of both come next.
    On(&'p [u8], &'n [u8]),
    /// It is a star, and this part of the pattern comes behind it.
    Star(&'p [u8]),
    No,
}

// Matches the first part of a pattern.
fn first_step<'p, 'n>(pattern: &'p [u8], name: &'n [u8]) -> PatternStep<'p, 'n> {
    match (pattern.split_first(), name.split_first()) {
        (Some((b'*', behind)), _) => PatternStep::Star(behind),
        (Some((b'?', behind)), Some((_, rest))) => PatternStep::On(behind, rest),
        (Some((byte, behind)), Some((other, rest))) if *byte == *other => PatternStep::On(
            behind, rest,
        ),
        _ => PatternStep::No,
    }
}

/// Is a name of this pattern? In it `*` stands for any bytes, `?` for one, and all else for itself.
/// It takes time by the product of their lengths.
pub fn matches(pattern: &[u8], name: &[u8]) -> bool {
    let (mut pattern, mut name) = (pattern, name);
    // the parts of both where one byte more may belong to the last star
    let mut retry: Option<(&[u8], &[u8])> = None;
    let most = name
        .len()
        .saturating_add(1)
        .saturating_mul(pattern.len().saturating_add(2));
    for _ in 0..=most {
        if pattern.is_empty() && name.is_empty() {
            return true;
        }
        match first_step(pattern, name) {
            PatternStep::On(behind, rest) => (pattern, name) = (behind, rest),
            PatternStep::Star(behind) => {
                retry = Some((behind, name));
                pattern = behind;
            }
            PatternStep::No => match retry {
                Some((behind, [_, rest @ ..])) => {
                    retry = Some((behind, rest));
                    (pattern, name) = (behind, rest);
                }
                _ => return false,
            },
        }
    }
    false
}
