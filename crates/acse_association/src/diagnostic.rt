//! Why an association is refused.
ghost use Rattle.std.specs.Prelude.{◌≡◌};
ghost use Rattle.acse_association.specs.Answers.{number_of};

/// Why an association is refused (IEC 62056-5-3, associate-source-diagnostic, acse-service-user).
#[derive(Clone, Copy, Debug, PartialEq, Eq, Drop)]
pub enum Diagnostic {
    /// The AARQ or its InitiateRequest can't be read, or no client has the wPort that it came from (own profile).
    NoReasonGiven,
    /// The application context isn't that of logical names without ciphering.
    ApplicationContextNameNotSupported,
    /// A mechanism of authentication is named that is neither lowest nor low level security.
    AuthenticationMechanismNameNotRecognised,
    /// The password is missing or wrong.
    AuthenticationFailure,
    /// The client has a password, and low level security isn't named.
    AuthenticationRequired,
}

impl Diagnostic {
    /// The number that an AARE has for it (IEC 62056-5-3, associate-source-diagnostic, acse-service-user).
    pub fn number(self) -> u8
        ensures { result ≡ number_of self }
    {
        match self {
            Diagnostic::NoReasonGiven => 1,
            Diagnostic::ApplicationContextNameNotSupported => 2,
            Diagnostic::AuthenticationMechanismNameNotRecognised => 11,
            Diagnostic::AuthenticationFailure => 13,
            Diagnostic::AuthenticationRequired => 14,
        }
    }
}
