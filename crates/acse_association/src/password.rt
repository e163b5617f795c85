//! Passwords.
ghost use Rattle.std.specs.Prelude.{◌≡◌, ◌↔◌, length};
ghost use Rattle.std.specs.Str.{bytes_eq};

/// Whether the bytes are the password. All of them are compared, whatever the first difference: how long the comparison takes
/// should not tell a stranger how many of the bytes were right.
pub(crate) fn is_password(given: &[u8], password: &[u8]) -> bool
    ensures { result ≡ bytes_eq given.now password.now }
{
    given.len() == password.len() && differences(given, password) == 0
}

/// The bits in which bytes of one length differ, over all of them.
fn differences(given: &[u8], password: &[u8]) -> u8
    requires { length given.now ≡ length password.now }
    ensures { (result ≡ 0) ↔ (given.now ≡ password.now) }
{
    let mut differences = 0;
    for (x, y) in given.iter().zip(password) {
        differences |= x ^ y;
    }
    differences
}
