//! Keys that differ by one slip (own profile).
ghost use Rattle.std.specs.Prelude.{◌≡◌, ◌≤◌, drop, length, map, option_map};
ghost use Rattle.config_text.specs.Near as spec;

/// How many bytes two texts begin with alike.
fn alike(one: &[u8], other: &[u8]) -> usize
    ensures alike { result ≡ spec.alike one.now other.now }
    ensures short { result ≤ length one.now }
    ensures short_too { result ≤ length other.now }
{
    let mut count = 0;
    while count < one.len() && count < other.len() && one[count] == other[count] {
        count += 1;
    }
    count
}

/// What stands behind the first so many bytes, or nothing.
fn behind(count: usize, text: &[u8]) -> &[u8]
    ensures { result.now ≡ drop count text.now }
{
    text.get(count..).unwrap_or(&[])
}

/// Whether two bytes are exchanged at the beginning of texts that are alike behind them.
fn are_exchanged(one: &[u8], other: &[u8]) -> bool
    ensures { result ≡ spec.are_exchanged one.now other.now }
{
    match (one, other) {
        ([a, b, rest @ ..], [c, d, others @ ..]) => a == d && b == c && rest == others,
        _ => false,
    }
}

/// Whether two texts differ by one byte that is another, too many or missing, or by two that are exchanged.
fn is_near(one: &[u8], other: &[u8]) -> bool
    ensures { result ≡ spec.is_near one.now other.now }
{
    let count = alike(one, other);
    let (one, other) = (behind(count, one), behind(count, other));
    behind(1, one) == other
        || one == behind(1, other)
        || behind(1, one) == behind(1, other)
        || are_exchanged(one, other)
}

/// The first of some keys that is near a text.
pub(crate) fn nearest<'a>(text: &str, keys: &[&'a str]) -> Option<&'a str>
    ensures { option_map (λ key. key.now) result ≡ spec.nearest text.now (map (λ key. key.now) keys.now) }
{
    for key in keys {
        if is_near(text.as_bytes(), key.as_bytes()) {
            return Some(key);
        }
    }
    None
}
