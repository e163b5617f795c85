ghost use Rattle.std.specs.Prelude.{◌≡◌};
ghost use Rattle.object_model.specs.Grants.{listed_in};

use cosem_data::name::LogicalName;
use meter_theory::flow::Access;
use std::marker::Model;

/// What a client may do with an object: the attributes that it may read and set, and the methods that it may call
/// (IEC 62056-6-2, access rights). A right without any of them still puts the object into the client's view.
#[derive(Drop)]
pub struct Right {
    client: u8,
    object: LogicalName,
    gets: Vec<u8>,
    sets: Vec<u8>,
    acts: Vec<u8>,
}

impl Model for Right {
    ghost use Rattle.meter_theory.specs.Plan as theory;
    ghost use Rattle.meter_theory.specs.PlanCode.{right_code};

    ghost Value = { theory.Right };

    ghost coded = { right_code };

    ghost view = { λ r. record {
      client = r.client;
      object = r.object;
      gets = r.gets.items;
      sets = r.sets.items;
      acts = r.acts.items;
    } };
}

impl Right {
    /// A right of the client at this place, counted from 0, on the object with this name: the attributes of `gets` may be
    /// read, those of `sets` written, and the methods of `acts` called.
    pub fn new(client: u8, object: LogicalName, gets: Vec<u8>, sets: Vec<u8>, acts: Vec<u8>) -> Self
        ensures { result ≡ record {
          client = client;
          object = object;
          gets = gets.items;
          sets = sets.items;
          acts = acts.items;
        } }
    {
        Right {
            client,
            object,
            gets,
            sets,
            acts,
        }
    }

    /// The place of its client, counted from 0.
    pub(crate) fn client(&self) -> u8
        ensures { result ≡ self.now.client }
    {
        self.client
    }

    /// The name of its object.
    pub(crate) fn object(&self) -> &LogicalName
        ensures { result.now ≡ self.now.object }
    {
        &self.object
    }

    /// The indexes that it lists for this access; for the view, which each right gives, 0.
    pub(crate) fn listed(&self, access: Option<Access>) -> &[u8]
        ensures { result.now ≡ listed_in access self.now }
    {
        match access {
            None => &[0],
            Some(Access::Get) => &self.gets,
            Some(Access::Set) => &self.sets,
            Some(Access::Act) => &self.acts,
        }
    }
}
