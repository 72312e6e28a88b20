//! Bytes that come in pieces.
ghost use Rattle.std.specs.Prelude.{◌≡◌, ◌<◌, ◌≤◌, ◌-◌, [], ◌∷◌, ◌++◌, length, map, take, drop, min, option_map, IfSome, IfNone, OnOk, OnErr};
ghost use Rattle.std.specs.List.{concat};
ghost use Rattle.relay_outside.specs.Pieces.{nonempty_from, first_bytes, first_piece, cut_first};

use std::alloc::AllocError;
use std::collections::VecDeque;
use std::marker::Model;

/// The pieces that are left. A piece that was given whole is dropped when more is asked for.
#[derive(Drop)]
pub(crate) struct Pieces {
    queue: VecDeque<Vec<u8>>,
    // The number of bytes of the first piece that were given.
    used: usize,
}

impl Model for Pieces {
    ghost use Rattle.std.specs.Prelude.{List, ℕ, ◌≤◌, length, map};
    ghost use Rattle.relay_outside.specs.Pieces.{cut_first, first_piece};

    ghost Value = { List (List ℕ) };

    ghost view = { λ p. cut_first p.used (map (λ v. v.items) p.queue.items) };

    ghost invariant = { λ p. p.used ≤ length (first_piece (map (λ v. v.items) p.queue.items)) };
}

// Drops the pieces of which nothing is left, and returns the number of bytes given of the first piece that
// remains.
fn drop_used(queue: &mut VecDeque<Vec<u8>>, mut used: usize) -> usize
    ensures same { cut_first result (map (λ v. v.items) queue.new.items)
        ≡ nonempty_from (cut_first used (map (λ v. v.items) queue.old.items)) }
    ensures within { 0 < length queue.new.items → result < length (first_piece (map (λ v. v.items) queue.new.items)) }
    ensures none { length queue.new.items ≡ 0 → result ≡ 0 }
{
    while let Some(piece) = queue.front() {
        if used < piece.len() {
            return used;
        }
        queue.pop_front();
        used = 0;
    }
    0
}

// Copies as much of the piece, from `used` on, as there is room for. Returns the number of bytes.
fn copy_from(piece: &[u8], used: usize, into: &mut [u8]) -> usize
    requires { used < length piece.now }
    ensures count { result ≡ min (length piece.now - used) (length into.new) }
    ensures bytes { take result into.new ≡ take result (drop used piece.now) }
{
    let count = (piece.len() - used).min(into.len());
    into[..count].copy_from_slice(&piece[used..used + count]);
    count
}

impl Pieces {
    pub(crate) fn new(list: Vec<Vec<u8>>) -> Pieces
        ensures { result ≡ map (λ v. v.items) list.items }
    {
        Pieces {
            queue: VecDeque::from_vec(list),
            used: 0,
        }
    }

    /// Adds a piece at the end. If memory is refused, the piece is dropped.
    pub(crate) fn add(&mut self, piece: Vec<u8>) -> Result<(), AllocError>
        ensures ok { OnOk result (self.new ≡ self.old ++ piece.items ∷ []) }
        ensures err { OnErr result (self.new ≡ self.old) }
    {
        self.queue.push_back(piece)?;
        Ok(())
    }

    /// Gives as much of the first nonempty piece as there is room for, and returns the number of bytes.
    /// `None` if nothing is left.
    pub(crate) fn give(&mut self, into: &mut [u8]) -> Option<usize>
        requires { 0 < length into.old }
        ensures count { IfSome result (λ n. (0 < n) × (n ≤ length into.new)) }
        ensures bytes { option_map (λ n. take n into.new) result ≡ first_bytes (length into.new) (nonempty_from self.old) }
        ensures left { self.new ≡ cut_first (length into.new) (nonempty_from self.old) }
        ensures none { IfNone result ((concat self.old ≡ []) × (self.new ≡ [])) }
    {
        self.used = drop_used(&mut self.queue, self.used);
        match self.queue.front() {
            None => None,
            Some(piece) => {
                let count = copy_from(piece, self.used, into);
                self.used += count;
                Some(count)
            }
        }
    }
}
