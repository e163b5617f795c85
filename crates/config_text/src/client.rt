//! A client's table.

use crate::both::both;
use crate::fault::TableFault;
use crate::keys::no_others;
use crate::known;
use crate::parts::ClientParts;
use crate::place::Place;
use crate::tables::TableForm;
use crate::takes::{KeyTakes, Number};
use crate::values::{natural_at, password_at, text_at};
use toml::Table;

/// The keys of a client.
const CLIENT: [&str; 3] = [known::NAME, known::SAP, known::PASSWORD];

/// `name`, `sap` and perhaps `password`: a client.
pub(crate) struct ClientTable;

impl TableForm for ClientTable {
    ghost use Rattle.config_text.specs.Clients.{client_of};

    type Parts = ClientParts;

    ghost says = { λ form. client_of };

    #[tactic(auto, unfolding(crate::specs::Clients::client_of))]
    fn read(&self, at: &Place<'_>, table: &Table) -> Result<ClientParts, TableFault> {
        let name = text_at(KeyTakes::Name, at, known::NAME, table);
        let sap = natural_at(Number::Sap, at, known::SAP, table);
        let password = password_at(at, known::PASSWORD, table);
        let others = no_others(&CLIENT, at, table);
        let (((name, sap), password), ()) = both(both(both(name, sap), password), others)?;
        Ok(ClientParts {
            name,
            sap: sap as u8,
            password,
        })
    }
}
