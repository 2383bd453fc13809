ghost use Rattle.std.specs.Prelude.{◌≡◌, ◌<◌, length, slice_index, IfOk};

use crate::memory::Memory;
use std::alloc::Global;
use std::marker::Model;

/// How many categories each variable of a classification has, in order.
#[derive(Debug, Drop)]
pub struct Shape {
    counts: Vec<u16>,
}

impl Model for Shape {
    ghost use Rattle.std.specs.Prelude.{ℕ, List};

    ghost Value = { List ℕ };

    ghost view = { λ s. s.counts.items };
}

impl Shape {
    /// The shape with these counts.
    pub fn of(alloc: Global, counts: &[u16]) -> Result<Shape, Memory>
        ensures { IfOk result (λ shape. shape ≡ counts.now) }
    {
        Ok(Shape {
            counts: counts.to_vec(alloc)?,
        })
    }

    /// How many variables there are.
    pub fn len(&self) -> usize
        ensures { result ≡ length self.now }
    {
        self.counts.len()
    }

    /// How many categories variable `i` has.
    pub fn at(&self, i: usize) -> u16
        requires { i < length self.now }
        ensures { result ≡ slice_index self.now i }
    {
        self.counts[i]
    }

    /// An equal shape.
    pub fn copy(&self) -> Result<Shape, Memory>
        ensures { IfOk result (λ shape. shape ≡ self.now) }
    {
        Ok(Shape {
            counts: self.counts.clone()?,
        })
    }
}
