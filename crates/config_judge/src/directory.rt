//! What the names of a configuration lead to.

ghost use Rattle.std.specs.Prelude.{◌≡◌, List, ℕ, IfOk, is_some, option_map, take};
ghost use Rattle.std.specs.BTreeMap as tree;
ghost use Rattle.std.specs.Cmp.Lexicographic.{slice_cmp};
ghost use Rattle.std.specs.List.{list_any, position_from};
ghost use Rattle.std.specs.Ordering.{nat_cmp};
ghost use Rattle.std.specs.Str.{bytes_eq};
ghost use Rattle.config_rules.specs.Names as spec;
ghost use Rattle.meter_theory.specs.Classes as classes;

use crate::menus::has_menu;
use crate::places::first_places;
use config_text::parts::{ConfigParts, ObjectParts};
use cosem_data::memory::Memory;
use meter_theory::classes::{is_cell, is_choice, is_settable};
use std::alloc::Global;
use std::collections::BTreeMap;

/// The names of a configuration's objects and clients, each with the place of the first that has it. A look-up takes time
/// that grows with the logarithm of their number alone.
#[derive(Drop)]
pub struct Directory<'a> {
    /// The configuration.
    pub config: &'a ConfigParts,
    objects: BTreeMap<&'a str, usize>,
    clients: BTreeMap<&'a str, usize>,
    ghost object_places: { (q : List ℕ) → tree.get_by (λ k. slice_cmp nat_cmp q k.now) objects
        ≡ position_from (λ o. bytes_eq o.name q) 0 config.now.objects },
    ghost client_places: { (q : List ℕ) → tree.get_by (λ k. slice_cmp nat_cmp q k.now) clients
        ≡ position_from (λ c. bytes_eq c.name q) 0 config.now.clients },
}

impl<'a> Directory<'a> {
    /// The directory of a configuration.
    pub fn new(alloc: Global, config: &'a ConfigParts) -> Result<Self, Memory>
        ensures { IfOk result (λ directory. directory.config.now ≡ config.now) }
    {
        let objects = first_places(alloc, config.objects.as_slice())?;
        let clients = first_places(alloc, config.clients.as_slice())?;
        Ok(Directory {
            config,
            objects,
            clients,
        })
    }

    /// The place of the first object with this logical name.
    pub(crate) fn object_place(&self, name: &str) -> Option<usize>
        ensures { result ≡ position_from (λ o. bytes_eq o.name name.now) 0 self.now.config.now.objects }
    {
        self.objects.get(name).copied()
    }

    /// Whether one of the objects before a place has this logical name.
    pub(crate) fn has_object_before(&self, name: &str, place: usize) -> bool
        ensures { result
            ≡ list_any (λ o. bytes_eq o.name name.now) (take place self.now.config.now.objects) }
    {
        match self.object_place(name) {
            Some(first) => first < place,
            None => false,
        }
    }

    /// The first object with this logical name.
    pub(crate) fn object(&self, name: &str) -> Option<&'a ObjectParts>
        ensures { option_map (λ o. o.now) result ≡ spec.object_named self.now.config.now name.now }
    {
        let place = self.object_place(name)?;
        let config = self.config;
        config.objects.get(place)
    }

    /// Whether an object has this logical name.
    pub(crate) fn has_object(&self, name: &str) -> bool
        ensures { result ≡ is_some (spec.object_named self.now.config.now name.now) }
    {
        self.object(name).is_some()
    }

    /// The interface class of the object with this logical name, 0 where there is none.
    pub fn class(&self, name: &str) -> u16
        ensures { result ≡ spec.class_named self.now.config.now name.now }
    {
        match self.object(name) {
            Some(object) => object.class_id,
            None => 0,
        }
    }

    /// Whether the object with this logical name has a menu.
    pub(crate) fn has_menu(&self, name: &str) -> bool
        ensures { result ≡ spec.menu_key_of (spec.object_named self.now.config.now name.now) }
    {
        match self.object(name) {
            Some(object) => has_menu(&object.body),
            None => false,
        }
    }

    /// Whether a request or a script may set the attribute of the object with this logical name.
    pub(crate) fn is_settable(&self, name: &str, index: u8) -> bool
        ensures { result ≡ spec.passes_or_chosen self.now.config.now classes.is_settable name.now index }
    {
        let class = self.class(name);
        is_settable(class, index) || self.has_menu(name) && is_choice(class, index)
    }

    /// Whether the attribute of the object with this logical name can change.
    pub(crate) fn is_cell(&self, name: &str, index: u8) -> bool
        ensures { result ≡ spec.passes_or_chosen self.now.config.now classes.is_cell name.now index }
    {
        let class = self.class(name);
        is_cell(class, index) || self.has_menu(name) && is_choice(class, index)
    }

    /// The place of the first client with this name.
    pub(crate) fn client_place(&self, name: &str) -> Option<usize>
        ensures { result ≡ position_from (λ c. bytes_eq c.name name.now) 0 self.now.config.now.clients }
    {
        self.clients.get(name).copied()
    }

    /// Whether a client has this name.
    pub(crate) fn has_client(&self, name: &str) -> bool
        ensures { result ≡ spec.has_client self.now.config.now name.now }
    {
        self.client_place(name).is_some()
    }
}
