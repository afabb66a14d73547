ghost use Rattle.std.specs.Prelude.{◌≡◌, [], true, false, IfOk, MatchOption, None, Some};
ghost use Rattle.node_objects.specs.Keeping.{told_by, with};
ghost use Rattle.node_objects.specs.Making.{TakesBack};

use lf_base::NoMemory;
use std::alloc::Global;
use std::marker::Model;

/// A list with a stated number of places. Once there was a value without a place, it tells none.
#[derive(Drop)]
pub struct Keeping<T> {
    values: Vec<T>,
    places: usize,
    lost: bool,
}

impl<T> Model for Keeping<T> {
    ghost use Rattle.std.specs.Prelude.{◌≤◌, vec_capacity, vec_len};
    ghost use Rattle.node_objects.specs.Keeping.{Row};

    ghost Value = { Row T };

    ghost view = { λ k. record { values = k.values.items; places = k.places; lost = k.lost } };

    ghost invariant = { λ k. (k.places ≤ vec_capacity k.values) × (vec_len k.values ≤ k.places) };
}

impl<T: Drop> Keeping<T> {
    /// An empty list with room for its places.
    pub fn new(alloc: Global, places: usize) -> Result<Keeping<T>, NoMemory>
        ensures { IfOk result (λ k. k ≡ record { values = []; places = places; lost = false }) }
    {
        let values = Vec::with_capacity(alloc, places)?;
        Ok(Keeping {
            values,
            places,
            lost: false,
        })
    }

    /// Keeps a value where there is a place for it.
    pub fn put(&mut self, value: T)
        ensures put { self.new ≡ with value self.old }
        ensures back { TakesBack value (told_by self.old) (told_by self.new) }
    {
        if self.values.len() == self.places {
            self.lost = true;
            return;
        }
        match self.values.push(value) {
            Ok(()) => {}
            Err(_) => unreachable!(),
        }
    }

    /// There was a value that is not kept.
    pub fn lose(&mut self)
        ensures lost { self.new ≡ record self.old { lost = true } }
        ensures untold { told_by self.new ≡ None }
    {
        self.lost = true;
    }

    /// The values, while there was a place for each.
    pub fn told(&self) -> Option<&[T]>
        ensures { MatchOption result (told_by self.now ≡ None) (λ values. told_by self.now ≡ Some values.now) }
    {
        if self.lost {
            None
        } else {
            Some(self.values.as_slice())
        }
    }
}
