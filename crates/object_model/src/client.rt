ghost use Rattle.std.specs.Prelude.{◌≡◌, option_map};
ghost use Rattle.std.specs.String.{string_bytes};

use std::marker::Model;

/// A client of the meter: its name in configurations and step lines, its service access point (IEC 62056-4-7, source
/// wPort) and the password of low level security, if it has one (IEC 62056-5-3, authentication).
#[derive(Drop)]
pub struct Client {
    name: String,
    sap: u8,
    password: Option<String>,
}

impl Model for Client {
    ghost use Rattle.std.specs.Prelude.{option_map};
    ghost use Rattle.std.specs.String.{string_bytes};
    ghost use Rattle.meter_theory.specs.Plan as theory;
    ghost use Rattle.meter_theory.specs.PlanCode.{client_code};

    ghost Value = { theory.Client };

    ghost coded = { client_code };

    ghost view = { λ c. record {
      name = string_bytes c.name;
      sap = c.sap;
      password = option_map string_bytes c.password;
    } };
}

impl Client {
    /// A client with this name, service access point and password.
    pub fn new(name: String, sap: u8, password: Option<String>) -> Self
        ensures { result
            ≡ record { name = string_bytes name; sap = sap; password = option_map string_bytes password } }
    {
        Client {
            name,
            sap,
            password,
        }
    }

    /// The bytes of its name, by which configurations and step lines call it (own profile).
    pub fn name(&self) -> &[u8]
        ensures { result.now ≡ self.now.name }
    {
        self.name.as_bytes()
    }

    /// Its name as a text.
    pub fn name_text(&self) -> &str
        ensures { result.now ≡ self.now.name }
    {
        self.name.as_str()
    }

    /// Its service access point (IEC 62056-4-7, source wPort).
    pub fn sap(&self) -> u8
        ensures { result ≡ self.now.sap }
    {
        self.sap
    }

    /// The bytes of its password, or None for a client without one: low level security asks for it, lowest level does
    /// not (IEC 62056-5-3, authentication).
    pub fn password(&self) -> Option<&[u8]>
        ensures { option_map (λ p. p.now) result ≡ self.now.password }
    {
        match &self.password {
            Some(password) => Some(password.as_bytes()),
            None => None,
        }
    }
}
