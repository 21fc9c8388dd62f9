ghost use Rattle.std.specs.Prelude.{◌≡◌, ℕ, List, [], ◌∷◌, ◌++◌, ◌-◌, if◌then◌else◌, IsOk, IsSome, length, take, map, min, drop, OnOk, OnErr};
ghost use Rattle.std.specs.Str.{bytes_eq};
ghost use Rattle.spec_reader.specs.Forms.{place};
ghost use Rattle.spec_reader.specs.Bindings.{place_in};

use sqlite_items::Items;
use std::alloc::{AllocError, Global};
use std::collections::HashMap;
use std::marker::Model;

/// The place of each name's last binding.
#[derive(Drop)]
pub struct Places<'a> {
    places: HashMap<&'a [u8], usize>,
}

impl<'a> Places<'a> {
    /// The place of a name's last binding.
    fn get(&self, name: &[u8]) -> Option<usize>
        ensures { result ≡ place_in self.now name.now }
    {
        self.places.get(name).copied()
    }

    /// Gives a name a place; only for a name that has none memory may be wanting, and then nothing changes.
    fn set(&mut self, name: &'a [u8], place: usize) -> Result<(), AllocError>
        ensures set { OnOk result ((other : List ℕ) → place_in self.new other ≡ if bytes_eq name.now other then Some place else place_in self.old other) }
        ensures kept { OnErr result ((other : List ℕ) → place_in self.new other ≡ place_in self.old other) }
    {
        self.places.insert(name, place)?;
        Ok(())
    }

    /// Gives a name that has a place the one that it had before, if it had one.
    fn restore(&mut self, name: &[u8], hidden: Option<usize>)
        requires { IsSome (place_in self.old name.now) }
        ensures { (other : List ℕ) → place_in self.new other ≡ if bytes_eq name.now other then hidden else place_in self.old other }
    {
        match hidden {
            None => {
                self.places.remove(name);
            }
            Some(before) => {
                if let Some(place) = self.places.get_mut(name) {
                    *place = before;
                }
            }
        }
    }
}

/// A bound name, and the place of the binding that it hides.
#[derive(Clone, Copy)]
pub struct Binding<'a> {
    name: &'a [u8],
    hidden: Option<usize>,
}

/// The variables in scope: formals first, and then bound names from the outermost on. A contract sees their names.
#[derive(Drop)]
pub struct Scope<'a> {
    bindings: Vec<Binding<'a>>,
    places: Places<'a>,
}

impl<'a> Model for Scope<'a> {
    ghost use Rattle.std.specs.Prelude.{List, ℕ};
    ghost use Rattle.spec_reader.specs.Bindings.{names_bound, HavePlaces, NoteHidden};

    ghost Value = { List (List ℕ) };

    ghost view = { λ s. names_bound s.bindings.items };

    ghost invariant = { λ s. HavePlaces s.places (names_bound s.bindings.items) × NoteHidden s.bindings.items };
}

impl<'a> Scope<'a> {
    /// No variables, which takes no memory.
    pub fn new(alloc: Global) -> Scope<'a>
        ensures { result ≡ [] }
    {
        Scope {
            bindings: Vec::new(alloc),
            places: Places {
                places: HashMap::new(alloc),
            },
        }
    }

    /// How many variables are in scope.
    pub fn len(&self) -> usize
        ensures { result ≡ length self.now }
    {
        self.bindings.len()
    }

    /// The place of a name's last binding.
    pub fn place(&self, name: &[u8]) -> Option<usize>
        ensures { result ≡ place self.now name.now }
    {
        self.places.get(name)
    }

    /// Adds a variable.
    fn bind(&mut self, name: &'a [u8]) -> Result<(), AllocError>
        ensures { OnOk result (self.new ≡ self.old ++ name.now ∷ []) }
    {
        let hidden = self.places.get(name);
        let place = self.bindings.len();
        self.bindings.push(Binding { name, hidden })?;
        let set = self.places.set(name, place);
        if set.is_err() {
            self.bindings.pop();
        }
        set
    }

    /// Takes the last variable out of scope.
    fn unbind(&mut self)
        ensures { self.new ≡ take (length self.old - 1) self.old }
    {
        if let Some(binding) = self.bindings.pop() {
            self.places.restore(binding.name, binding.hidden);
        }
    }

    /// Adds variables.
    pub fn bind_all(&mut self, names: &'a [Items<u8>]) -> Result<(), AllocError>
        ensures { OnOk result (self.new ≡ self.old ++ names.now) }
    {
        for name in names {
            self.bind(name.as_slice())?;
        }
        Ok(())
    }

    /// Adds the variable at a place among some, if one stands there.
    pub fn bind_at(&mut self, names: &'a [Items<u8>], at: usize) -> Result<(), AllocError>
        ensures { OnOk result (self.new ≡ self.old ++ take 1 (drop at names.now)) }
    {
        match names.get(at) {
            Some(name) => self.bind(name.as_slice()),
            None => Ok(()),
        }
    }

    /// Takes all variables but the first so many out of scope.
    pub fn truncate(&mut self, depth: usize)
        ensures { self.new ≡ take depth self.old }
    {
        while self.len() > depth {
            self.unbind();
        }
    }
}
