ghost use Rattle.std.specs.Prelude.{◌≡◌, ℕ, [], ◌∷◌, ◌++◌, drop, OnOk, OnErr, MatchOption};
ghost use Rattle.tree_model.specs.Maps.{is_end};

use fs_base::{Items, Memory, Name};
use std::alloc::Global;
use std::marker::Model;

/// The names that a walk has left, the next one first.
#[derive(Debug, Drop)]
pub struct Names {
    stack: Vec<Name>,
}

impl Model for Names {
    ghost use Rattle.std.specs.Prelude.{List, ℕ, reverse};

    ghost Value = { List (List ℕ) };

    ghost view = { λ n. reverse n.stack.items };
}

impl Names {
    /// No names.
    pub fn new(alloc: Global) -> Names
        ensures { result ≡ [] }
    {
        Names {
            stack: Vec::new(alloc),
        }
    }

    /// Takes the next name.
    pub fn pop(&mut self) -> Option<Name>
        ensures { MatchOption result ((self.old ≡ []) × (self.new ≡ [])) (λ name. self.old ≡ name ∷ self.new) }
    {
        self.stack.pop()
    }

    /// The next name, which stays.
    pub fn first(&self) -> Option<&Name>
        ensures { MatchOption result (self.now ≡ []) (λ name. self.now ≡ name.now ∷ drop 1 self.now) }
    {
        self.stack.last()
    }

    /// Whether no name comes after the next one. It is so too where none are left.
    pub fn is_last(&self) -> bool
        ensures { result ≡ is_end (drop 1 self.now) }
    {
        self.stack.len() <= 1
    }

    /// Goes past the next name, if there is one.
    pub fn skip(&mut self)
        ensures { self.new ≡ drop 1 self.old }
    {
        let _ = self.stack.pop();
    }

    /// Whether none are left.
    pub fn is_empty(&self) -> bool
        ensures { result ≡ is_end self.now }
    {
        self.stack.is_empty()
    }

    /// Puts a name before those that are left; without memory for it they stay as they were.
    pub fn push(&mut self, name: Name) -> Result<(), Memory>
        ensures ok { OnOk result (self.new ≡ name ∷ self.old) }
        ensures err { OnErr result (self.new ≡ self.old) }
    {
        self.stack.push(name)?;
        Ok(())
    }

    /// Puts these names before those that are left. Where memory runs out, all but the first of them may have
    /// come.
    pub fn push_all(&mut self, alloc: Global, names: &Items<Name>) -> Result<(), Memory>
        ensures ok { OnOk result (self.new ≡ names.now ++ self.old) }
        ensures err { OnErr result ((without : ℕ) × (self.new ≡ drop without names.now ++ self.old)) }
    {
        let names = names.as_slice();
        let mut i = names.len();
        while i > 0 {
            i -= 1;
            let name = names[i].try_clone(alloc)?;
            self.push(name)?;
        }
        Ok(())
    }
}
