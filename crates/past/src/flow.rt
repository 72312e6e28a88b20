ghost use Rattle.std.specs.Prelude.{◌≡◌, [], ◌∷◌, ◌++◌};

use crate::History;
use std::marker::Model;

/// A history in the order in which its members came. It takes no bytes.
#[derive(Drop)]
pub struct Flow<E> {
    at: History<E>,
}

impl<E> Model for Flow<E> {
    ghost use Rattle.std.specs.Prelude.{List, reverse};

    ghost Value = { List E };

    ghost view = { λ f. reverse f.at };
}

impl<E> Flow<E> {
    pub fn new() -> Flow<E>
        ensures { result ≡ [] }
    {
        Flow { at: History::new() }
    }

    /// Adds a member at the end. Nothing keeps it when the program runs.
    pub fn add(&mut self, x: &E)
        ensures { self.new ≡ self.old ++ x.now ∷ [] }
    {
        self.at.add(x);
    }

    /// Adds members at the end. Nothing keeps them when the program runs.
    pub fn add_all(&mut self, xs: &[E])
        ensures { self.new ≡ self.old ++ xs.now }
    {
        self.at.add_all(xs);
    }
}
