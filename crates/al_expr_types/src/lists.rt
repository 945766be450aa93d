//! Lists of objects, each object once, and the numbers under which equal lists are found again.

ghost use Rattle.std.specs.Prelude.{◌≡◌, Contains, IfOk, IsTrue, map, nat_lt, true, ℕ};
ghost use Rattle.al_types.specs.Types.{Parts};
ghost use Rattle.al_types.specs.Fused.{fuse_all, fuse_parts};
ghost use Rattle.al_expr_types.specs.Types.{are_below};

use std::alloc::{AllocError, Global};
use std::collections::BTreeMap;
use std::rc::Rc;

/// A list of objects. A digest comes first: it mostly differs where the lists do, and is fast to
/// compare.
type Key = (u64, Rc<Vec<u32>>);

/// Finds the object that is common to the objects of a list. Affects only time and memory.
#[derive(Drop)]
pub(crate) struct Lists {
    /// What the objects of each list have in common, as the number of an object.
    numbers: BTreeMap<Key, u32>,
    /// For each object, the position at which it was last put into a list.
    positions: Vec<usize>,
}

/// A number that depends on all objects of a list and on their order.
fn digest(objects: &[u32]) -> u64 {
    let mut digest = 0_u64;
    for n in objects {
        digest = digest.rotate_left(5) ^ u64::from(*n);
        digest = digest.wrapping_mul(0x517c_c1b7_2722_0a95);
    }
    digest
}

/// Whether an object is in a list, given the position at which it should be. If it is missed, it is
/// only taken twice.
fn is_at(list: &[u32], position: Option<&usize>, n: u32) -> bool
    ensures { IsTrue result → Contains list.now n }
{
    match position {
        Some(i) => list.get(*i) == Some(&n),
        None => false,
    }
}

impl Lists {
    /// No lists. Doesn't allocate.
    pub(crate) fn new(alloc: Global) -> Lists {
        Lists {
            numbers: BTreeMap::new(alloc),
            positions: Vec::new(alloc),
        }
    }

    /// Keeps the position of an object. Fails with `AllocError` when out of memory, as everything
    /// here does.
    fn put(&mut self, n: u32, position: usize) -> Result<(), AllocError> {
        let i = n as usize;
        if i >= self.positions.len() {
            self.positions.resize(i + 1, 0)?;
        }
        self.positions[i] = position;
        Ok(())
    }

    /// A list with one more object, unless it has it.
    pub(crate) fn and(&mut self, list: Vec<u32>, n: u32) -> Result<Vec<u32>, AllocError>
        ensures common { IfOk result (λ more. (f : ℕ → Parts)
            → fuse_all (map f more.items) ≡ fuse_parts (fuse_all (map f list.items)) (f n)) }
        ensures below { IfOk result
            (λ more. (k : ℕ) → are_below k list.items ≡ true → nat_lt n k ≡ true
            → are_below k more.items ≡ true) }
    {
        if is_at(list.as_slice(), self.positions.get(n as usize), n) {
            return Ok(list);
        }
        self.put(n, list.len())?;
        let mut more = list;
        more.push(n)?;
        Ok(more)
    }

    /// A list with more objects, each of them once.
    pub(crate) fn and_all(
        &mut self,
        list: Vec<u32>,
        objects: &[u32],
    ) -> Result<Vec<u32>, AllocError>
        ensures common { IfOk result (λ all. (f : ℕ → Parts)
            → fuse_all (map f all.items)
            ≡ fuse_parts (fuse_all (map f list.items)) (fuse_all (map f objects.now))) }
        ensures below { IfOk result (λ all. (k : ℕ) → are_below k list.items ≡ true
            → are_below k objects.now ≡ true → are_below k all.items ≡ true) }
    {
        let mut all = list;
        for n in objects {
            all = self.and(all, *n)?;
        }
        Ok(all)
    }

    /// The number kept for a list, if there is one.
    pub(crate) fn number(&self, list: &Rc<Vec<u32>>) -> Result<Option<u32>, AllocError> {
        let key = (digest(list.as_slice()), list.clone()?);
        Ok(self.numbers.get(&key).copied())
    }

    /// Keeps the number for a list.
    pub(crate) fn keep(&mut self, list: Rc<Vec<u32>>, number: u32) -> Result<(), AllocError> {
        let key = (digest(list.as_slice()), list);
        self.numbers.insert(key, number)?;
        Ok(())
    }
}
