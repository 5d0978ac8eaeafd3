//! The name that is nearest to another one.

/// The first of the names that differs from the name the least, and in no more than a third of its letters.
pub fn nearest<'a>(name: &str, names: &[&'a str]) -> Option<&'a str> {
    let mut found = None;
    let mut least = name.len() / 3;
    for other in names {
        let changed = changed_letters(name.as_bytes(), other.as_bytes());
        if changed <= least && found.is_none() || changed < least {
            least = changed;
            found = Some(*other);
        }
    }
    found
}

/// How many letters of the longer name stand between what both begin with and what both end with.
fn changed_letters(a: &[u8], b: &[u8]) -> usize {
    let front = a.iter().zip(b).take_while(|(x, y)| x == y).count();
    let back = a
        .iter()
        .rev()
        .zip(b.iter().rev())
        .take_while(|(x, y)| x == y)
        .count();
    let same = front.saturating_add(back).min(a.len()).min(b.len());
    a.len().max(b.len()).saturating_sub(same)
}
