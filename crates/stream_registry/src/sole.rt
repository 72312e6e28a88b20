//! The port of one thread to streams and pools that nobody else serves.
ghost use Rattle.std.specs.Prelude.{◌≡◌, ◌+◌, ◌++◌, ◌<◌, ◌≤◌, ◌^◌, ℕ, [], length, map, reverse, IfOk, IfErr};
ghost use Rattle.stream_model.specs.Shape.{shape_held, most_held};
ghost use Rattle.turn_gate.specs.Histories.{Begins};
ghost use Rattle.stream_registry.specs.Told.{Keeps};
ghost use Rattle.stream_registry.specs.Placed.{Placed, Failed, TriedOnce, answered};
ghost use Rattle.stream_registry.specs.Names.{AreFew, AreTables, places, shape_at};
ghost use Rattle.stream_registry.specs.Books.{journal_at, new_book, shapes_in, sole_rules};

use crate::book::Book;
use crate::names::{NameList, NotFound, OpenList, place_of};
use crate::port::{PortFail, StreamPort};
use crate::shapes::place_shapes;
use av_unit::OutOfMemory;
use past::Flow;
use std::alloc::Global;
use std::marker::Model;
use std::snapshot::Snapshot;
use stream_core::{Entry, Reply, Shape, StreamLimits};

/// A stream or a pool with its journal for each place.
#[derive(Drop)]
pub struct Sole {
    books: Vec<Book>,
    names: NameList,
    opens: OpenList,
    limits: StreamLimits,
}

impl Model for Sole {
    ghost use Rattle.std.specs.Prelude.{◌≡◌, ◌≤◌, ◌++◌, ◌+◌, map, length};
    ghost use Rattle.stream_registry.specs.Names.{shapes_of};
    ghost use Rattle.stream_registry.specs.Books.{SoleState};

    ghost Value = { SoleState };

    ghost view = { λ s. record { rules = record { names = s.names; opens = s.opens; limits = s.limits }; books = s.books.items } };

    ghost invariant = { λ s. (map (λ b. b.limits) s.books.items ≡ shapes_of s.limits s.names s.opens)
        × (length s.books.items ≡ length s.names + length s.opens) × (length s.names + length s.opens ≤ 64) };
}

/// A pass to a port of one thread, of no bytes.
#[derive(Drop)]
pub struct SolePass {
    seen: Snapshot<Book>,
    mine: Flow<u64>,
}

impl Model for SolePass {
    ghost use Rattle.stream_registry.specs.Books.{SeenState};

    ghost Value = { SeenState };

    ghost view = { λ p. record { limits = p.seen.value.limits; seen = p.seen.value.journal; mine = p.mine } };
}

impl Sole {
    /// Makes a port to streams with these names and to these open tables. Each stream and each slot has these limits.
    pub fn new(
        alloc: Global,
        names: NameList,
        opens: OpenList,
        limits: StreamLimits,
    ) -> Result<Sole, OutOfMemory>
        requires { AreFew names opens }
        ensures { IfOk result (λ s. (s.rules ≡ record { names = names; opens = opens; limits = limits }) × ((q : ℕ) → journal_at s.books q ≡ [])) }
    {
        let shapes = place_shapes(alloc, &names, &opens, limits)?;
        let books = new_books(alloc, &shapes)?;
        Ok(Sole {
            books,
            names,
            opens,
            limits,
        })
    }

    /// Gives the number of bytes that the place holds. For a stream these are the bodies of the items in its
    /// window and of the configurations in effect at its base. For a pool they are the same of each slot with
    /// the lengths of the names. The journal isn't counted.
    pub fn held(&self, place: u32) -> u64
        requires { place < places (sole_rules self.now.rules) }
        ensures sum { result ≡ shape_held (shape_at (shapes_in self.now.rules) place) (reverse (journal_at self.now.books place)) }
        ensures most { result ≤ most_held (shape_at (shapes_in self.now.rules) place) }
    {
        let _ = &self.limits;
        let book = &self.books[place as usize];
        book.held()
    }

    /// Gives the history of that place, the oldest call first.
    pub fn journal(&self, place: u32) -> &[(Entry, Reply)]
        requires { place < places (sole_rules self.now.rules) }
        ensures { result.now ≡ journal_at self.now.books place }
    {
        let _ = &self.limits;
        self.books[place as usize].journal()
    }
}

impl StreamPort for Sole {
    type Pass = SolePass;

    ghost use Rattle.std.specs.Prelude.{◌≡◌, [], ◌++◌, length};
    ghost use Rattle.stream_registry.specs.Books.{adds_nothing, adds_together, journal_at, sole_rules, FitsSole};

    ghost busies = { λ s. 0 };

    ghost rules = { λ s. sole_rules s.rules };

    ghost root = { λ s. journal_at s.books };

    ghost fits = { λ s place p. FitsSole s place p };

    ghost limits = { λ p. p.limits };

    ghost seen = { λ p. p.seen };

    ghost mine = { λ p. p.mine };

    ghost kin = { λ s q. [] };

    ghost branches = { λ p. [] };

    ghost owns = { λ s q. [] };

    ghost gains = { λ o ns p q. Unit {0} };

    ghost adds = { λ h xs i. i ≡ h ++ xs };

    ghost count = { λ p. length p.seen };

    ghost wants = { λ _. Unit {0} };

    fn find(&self, app: &[u8], name: &[u8]) -> Result<u32, NotFound> {
        let _ = &self.limits;
        place_of(&self.names, &self.opens, app, name)
    }

    fn busies(&self) -> u64 {
        let _ = &self.limits;
        0
    }

    fn attach(&mut self, place: u32) -> SolePass {
        let _ = &self.limits;
        let book = &self.books[place as usize];
        SolePass {
            seen: Snapshot::of(book),
            mine: Flow::new(),
        }
    }

    fn detach(&mut self, place: u32, pass: SolePass) {
        let _ = pass;
    }

    fn call(&mut self, place: u32, pass: &mut SolePass, entry: Entry) -> Result<Reply, PortFail> {
        let _ = &self.limits;
        ask(&mut self.books[place as usize], pass, entry)
    }

    ghost adds_none = { λ h. adds_nothing h };

    ghost adds_both = { λ h i j xs ys a b. adds_together h i j xs ys a b };

    ghost ruled = { λ x q p f. f.limits };
}

// Makes the machines of these places, with no call.
fn new_books(alloc: Global, shapes: &[Shape]) -> Result<Vec<Book>, OutOfMemory>
    requires { AreTables shapes.now }
    ensures { IfOk result (λ books. books.items ≡ map new_book shapes.now) }
{
    let mut books = Vec::new(alloc);
    for shape in shapes {
        let book = Book::new(alloc, *shape)?;
        books.push(book)?;
    }
    Ok(books)
}

// Makes one call, which the pass has then seen with all before it.
fn ask(book: &mut Book, pass: &mut SolePass, entry: Entry) -> Result<Reply, PortFail>
    requires { (pass.old.limits ≡ book.old.limits) × Begins pass.old.seen book.old.journal }
    ensures book { (book.new.limits ≡ book.old.limits) × Begins book.old.journal book.new.journal }
    ensures pass { (pass.new.limits ≡ pass.old.limits) × (pass.new.seen ≡ book.new.journal) }
    ensures reply { IfOk result (λ r. Placed pass.old.limits book.old.journal pass.old.seen pass.old.mine (entry, r) pass.new.seen pass.new.mine) }
    ensures adds { book.new.journal ≡ book.old.journal ++ answered entry result }
    ensures laws { Keeps pass.new.limits pass.new.seen × (length pass.new.seen ≤ 2 ^ 62) }
    ensures fails { IfErr result (λ e. Failed entry 0 0 (length pass.new.seen) e) }
    ensures once { TriedOnce 0 0 result }
    ensures unmade { IfErr result (λ _. (pass.new.mine ≡ pass.old.mine) × (book.new ≡ book.old)) }
{
    let number = book.journal().len() as u64;
    match book.call(entry) {
        Ok(reply) => {
            book.laws();
            pass.mine.add(&number);
            pass.seen = Snapshot::of(book);
            return Ok(reply);
        }
        Err(fail) => {
            book.laws();
            pass.seen = Snapshot::of(book);
            return Err(fail);
        }
    }
}
